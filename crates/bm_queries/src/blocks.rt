// Lists of blocks.
ghost use Rattle.std.specs.Prelude.{◌≡◌, ℕ, IfOk, IfErr};
ghost use Rattle.bm_base.specs.Words.{Map, Cluster, by_replica};
ghost use Rattle.bm_base.specs.declared.refusal.Refusal.TheVariants.{Memory};
ghost use Rattle.bm_levels.specs.SlotHoldings.{holdings_with};
ghost use Rattle.bm_levels.specs.LeveledBlocks.{AreLevels};
ghost use Rattle.bm_base.specs.Machine.Queries as queries;

use bm_base::{BlockId, Items, Level, Refusal, StorageId};
use bm_levels::LeveledBlocks;
use std::alloc::Global;

/// The blocks of all replicas on a storage, whatever their tags, ascending. Walks the storage's
/// list alone. May answer `Memory`.
pub fn blocks_on(
    alloc: Global,
    blocks: &LeveledBlocks,
    storage: StorageId,
) -> Result<Items<BlockId>, Refusal>
    ensures blocks { (pending : Map by_replica ℕ)
        → IfOk result (λ v. v
        ≡ queries.blocks_on (holdings_with blocks.now.arena pending) storage) }
    ensures refused { IfErr result (λ e. e ≡ Memory) }
{
    blocks.show_invariant();
    let arena = blocks.arena();
    arena.show_invariant();
    let mut ids = Vec::new(alloc);
    for slot in arena.walk(storage) {
        ids.push(arena.id_of(slot))?;
    }
    ids.sort()?;
    Ok(Items::from_vec(ids))
}

/// The known blocks without a usable replica, ascending. Walks the list of that level alone. May
/// answer `Memory`.
pub fn missing_blocks(alloc: Global, blocks: &LeveledBlocks) -> Result<Items<BlockId>, Refusal>
    ensures missing { (C : Cluster) → AreLevels C blocks.now → (pending : Map by_replica ℕ)
        → IfOk result (λ v. v ≡ queries.missing_blocks C (holdings_with blocks.now.arena pending)) }
    ensures refused { IfErr result (λ e. e ≡ Memory) }
{
    blocks.show_invariant();
    let arena = blocks.arena();
    arena.show_invariant();
    let mut ids = Vec::new(alloc);
    let slots = blocks.level_index().at_level(Level::NoUsableReplica);
    for slot in slots {
        ids.push(arena.id_of(*slot as usize))?;
    }
    ids.sort()?;
    Ok(Items::from_vec(ids))
}
