// Notices of single replicas: one was received, one was deleted.
ghost use Rattle.std.specs.Prelude.{◌≡◌, ◌≢◌, ◌+◌, ℕ, if◌then◌else◌, None, Some};
ghost use Rattle.bm_base.specs.Words.{remove, replica_at};
ghost use Rattle.bm_arena.specs.Contents.{block_at, slot_of, marks_at, HasHead, HasCapacity, KeepsEntries};
ghost use Rattle.bm_arena.specs.HeldMaps.{replicas_of, blocks_of};
ghost use Rattle.bm_report.specs.DuringReport.{saturating_sum, IsOncePerNode};
ghost use Rattle.bm_report.specs.Ready.{HasSlotFor};
ghost use Rattle.bm_report.specs.ReceivedReplica.{HasReceived};
ghost use Rattle.bm_base.specs.Machine.Calls as calls;

use crate::reported_block::{link_new, marks_during_report, without_invalid_excess};
use crate::types::{Applied, ReportedSlot};
use bm_arena::Arena;
use bm_base::{BlockId, Stamp, StorageId};
use bm_topo::Topology;

const NO_CHANGE: Applied = Applied {
    added: 0,
    removed: 0,
    steps: 0,
};

/// Adds a received replica, and removes those on the other storages of the node.
pub(crate) fn receive(
    arena: &mut Arena,
    topology: &Topology,
    storage: StorageId,
    named: &ReportedSlot,
) -> Applied
    requires here { slot_of arena.old named.now.id ≡ Some named.now.slot }
    requires head { HasHead arena.old storage }
    requires capacity { marks_at arena.old named.now.slot storage ≡ None
        → HasCapacity arena.old named.now.slot }
    requires once { IsOncePerNode topology.now.cluster (replicas_of arena.old) }
    ensures { HasReceived topology.now.cluster storage named.now.id named.now.stamp arena.old
        arena.new result }
{
    let was = arena.marks(named.slot, storage);
    let marks = without_invalid_excess(marks_during_report(
        arena.info(named.slot),
        was,
        &named.stamp,
    ));
    match was {
        Some(_) => {
            arena.show_invariant();
            arena.set_marks(named.slot, storage, marks);
            NO_CHANGE
        }
        None => applied_by_link(link_new(arena, topology, named, storage, marks)),
    }
}

/// The counts of one added replica; `left_sibling` is whether it replaced one on another storage of
/// the node.
fn applied_by_link(left_sibling: bool) -> Applied
    ensures added { result.added ≡ 1 }
    ensures removed { result.removed ≡ (if left_sibling then 1 else 0) }
    ensures steps { result.steps ≡ (if left_sibling then 2 else 1) }
{
    Applied {
        added: 1,
        removed: if left_sibling { 1 } else { 0 },
        steps: if left_sibling { 2 } else { 1 },
    }
}

/// Adds a received replica of the block `id`, for which the number was made ready, and removes
/// those on the other storages of the node. Only that block changes. Looks the number up again.
/// Takes no memory.
pub fn apply_received(
    arena: &mut Arena,
    topology: &Topology,
    storage: StorageId,
    id: BlockId,
    stamp: Stamp,
) -> Applied
    requires head { HasHead arena.old storage }
    requires place { HasSlotFor arena.old storage id }
    requires once { IsOncePerNode topology.now.cluster (replicas_of arena.old) }
    ensures { HasReceived topology.now.cluster storage id stamp arena.old arena.new result }
{
    match arena.find(id) {
        Some(slot) => receive(arena, topology, storage, &ReportedSlot { id, slot, stamp }),
        None => unreachable!(),
    }
}

/// Removes the replica of the block `id` on a storage, if it exists. Only that block changes.
/// Takes no memory.
pub fn apply_deleted(arena: &mut Arena, storage: StorageId, id: BlockId) -> Applied
    ensures replicas { replicas_of arena.new
        ≡ remove (replicas_of arena.old) (replica_at id storage) }
    ensures blocks { blocks_of arena.new ≡ blocks_of arena.old }
    ensures entries { KeepsEntries arena.old arena.new }
    ensures free { (t : ℕ)
        → marks_at arena.new arena.new.delimiter t ≡ marks_at arena.old arena.old.delimiter t }
    ensures others { (slot : ℕ) → slot_of arena.old id ≢ Some slot
        → block_at arena.new slot ≡ block_at arena.old slot }
    ensures added { result.added
        ≡ calls.new_replicas (replicas_of arena.old) (replicas_of arena.new) }
    ensures removed { result.removed
        ≡ calls.new_replicas (replicas_of arena.new) (replicas_of arena.old) }
    ensures steps { result.steps ≡ result.added + result.removed }
    ensures counted { arena.new.steps ≡ saturating_sum result.steps arena.old.steps }
{
    arena.show_invariant();
    let Some(slot) = arena.find(id) else {
        return NO_CHANGE;
    };
    if arena.marks(slot, storage).is_none() {
        return NO_CHANGE;
    }
    arena.unlink(slot, storage);
    Applied {
        added: 0,
        removed: 1,
        steps: 1,
    }
}
