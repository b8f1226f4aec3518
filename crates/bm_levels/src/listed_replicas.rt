// Replicas of a list that are of one block, marked together.
ghost use Rattle.std.specs.Prelude.{◌≡◌, ◌==◌, true, not, position};
ghost use Rattle.bm_base.specs.Words.{position_or_len};
ghost use Rattle.bm_arena.specs.Contents.{block_at, known_of, KeepsAllBut, IsLawful};
ghost use Rattle.bm_arena.specs.HeldMaps.{replicas_at};
ghost use Rattle.bm_levels.specs.Changes.{as_excess, excess_on, each_changed, has_storage, AreByStorage};

use bm_arena::{Arena, Slot};
use bm_base::{BlockId, Marks, ReplicaId, StorageId};

/// How many at the head of a list are of a block.
pub(crate) fn count_of_block(listed: &[ReplicaId], block: BlockId) -> usize
    ensures { result ≡ position_or_len (λ q. not (q.block == block)) listed.now }
{
    index_of_other_block(listed, block).unwrap_or(listed.len())
}

/// The index of the first replica of another block.
fn index_of_other_block(listed: &[ReplicaId], block: BlockId) -> Option<usize>
    ensures { result ≡ position (λ q. not (q.block == block)) listed.now }
{
    listed.iter().position(|replica| replica.block != block)
}

/// The marks of a surplus replica.
pub(crate) fn with_excess(marks: Marks) -> Marks
    ensures { result ≡ as_excess marks }
{
    Marks {
        tag: marks.tag,
        excess: true,
        ordered: marks.ordered,
    }
}

/// Whether a list has a replica on a storage. The replica at index `near` is compared first; if it
/// is on another storage, a binary search follows. `near` becomes the index after the one found: so
/// all storages of the list, in ascending order, take one comparison each.
fn is_listed(listed: &[ReplicaId], storage: StorageId, near: &mut usize) -> bool
    requires { AreByStorage listed.now }
    ensures { result ≡ has_storage listed.now storage }
{
    if is_storage_at(listed, storage, *near) {
        *near = near.wrapping_add(1);
        return true;
    }
    let found = listed.binary_search_by_key(&storage, |replica| replica.storage);
    *near = index_after(&found);
    found.is_ok()
}

/// Whether the replica at an index of a list is on a storage.
fn is_storage_at(listed: &[ReplicaId], storage: StorageId, at: usize) -> bool
    ensures { result ≡ true → has_storage listed.now storage ≡ true }
{
    at < listed.len() && listed[at].storage == storage
}

/// The index after the one that a binary search returns.
fn index_after(found: &Result<usize, usize>) -> usize {
    match found {
        Ok(index) => index.wrapping_add(1),
        Err(index) => *index,
    }
}

/// Marks as excess the replicas of the block at a slot whose storages are in a list. Iterates once
/// over the block's replicas, and searches the list for each, at the next index if both have the
/// same order. Takes no memory.
pub(crate) fn mark_listed(arena: &mut Arena, slot: Slot, listed: &[ReplicaId])
    requires { AreByStorage listed.now }
    ensures replicas { replicas_at arena.new slot
        ≡ each_changed (excess_on listed.now) (replicas_at arena.old slot) }
    ensures known { known_of (block_at arena.new slot) ≡ known_of (block_at arena.old slot) }
    ensures rest { KeepsAllBut slot arena.old arena.new }
    ensures lawful { IsLawful arena.new }
{
    arena.show_invariant();
    let mut near = 0;
    for index in 0..arena.triplet_count(slot) {
        if let Some((storage, marks)) = arena.triplet_at(slot, index) {
            if is_listed(listed, storage, &mut near) {
                arena.set_marks_near(slot, storage, with_excess(marks), index);
            }
        }
    }
    arena.show_invariant();
}
