// Puts replicas into an arena.
ghost use Rattle.std.specs.Prelude.{◌≡◌, ℕ, IfErr, OnOk, OnErr};
ghost use Rattle.bm_base.specs.Words.{insert, replica_at};
ghost use Rattle.bm_base.specs.declared.refusal.Refusal.TheVariants.{Memory};
ghost use Rattle.bm_arena.specs.Contents.{HasHead, IsLawful};
ghost use Rattle.bm_arena.specs.HeldMaps.{replicas_of, blocks_of};

use bm_arena::Arena;
use bm_base::{BlockId, Marks, Refusal, StorageId};

/// Puts a replica of a block on a storage, or sets the marks of the one that is there. The storage
/// has a head, as [`Arena::reserve_heads`] makes it.
pub fn put_replica(
    arena: &mut Arena,
    id: BlockId,
    storage: StorageId,
    marks: Marks,
) -> Result<(), Refusal>
    requires { HasHead arena.old storage }
    ensures replicas { OnOk result (replicas_of arena.new
        ≡ insert (replicas_of arena.old) (replica_at id storage) marks) }
    ensures blocks { blocks_of arena.new ≡ blocks_of arena.old }
    ensures heads { (other : ℕ) → HasHead arena.old other → HasHead arena.new other }
    ensures lawful { IsLawful arena.new }
    ensures refused { IfErr result (λ e. e ≡ Memory) }
    ensures unchanged { OnErr result (arena.new ≡ arena.old) }
{
    arena.show_invariant();
    let slot = arena.add_entry(id)?;
    if arena.marks(slot, storage).is_some() {
        arena.set_marks(slot, storage, marks);
        return Ok(());
    }
    arena.reserve_triplet(slot)?;
    arena.link_front(slot, storage, marks);
    Ok(())
}
