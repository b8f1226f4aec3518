// Ends pending transfers whose replicas were reported.
ghost use Rattle.std.specs.Prelude.{◌≡◌, ◌==◌, ◌&&◌, ℕ, not, slice_get, Some};
ghost use Rattle.bm_base.specs.Words.{contains_key, keep, replica_at};
ghost use Rattle.bm_arena.specs.HeldMaps.{replicas_of};
ghost use Rattle.bm_pending.specs.PendingMap.{blocks_in};
ghost use Rattle.bm_shard.specs.ArrivedTransfers.{has_arrived};

use bm_arena::Arena;
use bm_base::{BlockId, StorageId};
use bm_pending::PendingTransfers;

/// Removes the transfers to a storage whose blocks have a replica there: reads each block with
/// transfers, and none of the storage's replicas. Takes no memory.
pub(crate) fn drop_arrived(pending: &mut PendingTransfers, arena: &Arena, storage: StorageId)
    ensures { pending.new.map
        ≡ keep pending.old.map (λ q _. not (has_arrived arena.now storage q)) }
{
    pending.show_invariant();
    for index in 0..pending.count() {
        drop_arrived_at(pending, arena, storage, index);
    }
}

/// Removes the transfer of the block at an index to a storage, if the block has a replica there.
fn drop_arrived_at(pending: &mut PendingTransfers, arena: &Arena, storage: StorageId, index: usize)
    ensures places { blocks_in pending.new ≡ blocks_in pending.old }
    ensures map { (b : ℕ) → slice_get (blocks_in pending.old) index ≡ Some b
        → pending.new.map ≡ keep pending.old.map
        (λ q _. not ((b == q.block) && has_arrived arena.now storage q)) }
{
    if let Some(block) = pending.block_at(index) {
        drop_if_arrived(pending, arena, storage, block);
    }
}

/// Removes the transfer of a block to a storage, if it exists and the block has a replica there.
fn drop_if_arrived(
    pending: &mut PendingTransfers,
    arena: &Arena,
    storage: StorageId,
    block: BlockId,
)
    ensures places { blocks_in pending.new ≡ blocks_in pending.old }
    ensures map { pending.new.map
        ≡ keep pending.old.map
        (λ q _. not ((block == q.block) && has_arrived arena.now storage q)) }
{
    if pending.contains(block, storage) && has_replica(arena, storage, block) {
        pending.remove(block, storage);
    }
}

/// Whether a block has a replica on a storage.
fn has_replica(arena: &Arena, storage: StorageId, block: BlockId) -> bool
    ensures { result ≡ contains_key (replicas_of arena.now) (replica_at block storage) }
{
    arena.show_invariant();
    match arena.find(block) {
        Some(slot) => arena.marks(slot, storage).is_some(),
        None => false,
    }
}
