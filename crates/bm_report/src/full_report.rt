// Applies a full report by the delimiter.
ghost use Rattle.std.specs.Prelude.{◌≡◌, ◌≢◌, ◌≤◌, ◌<◌, ◌+◌, ◌^◌, ℕ, length, map, take, vec_len, vec_capacity, None, ◌⊎◌};
ghost use Rattle.bm_maps.specs.SlotLists.{IsMember};
ghost use Rattle.bm_arena.specs.Contents.{block_at, marks_at, list_of, HasHead, IsEntry, KeepsEntries};
ghost use Rattle.bm_arena.specs.HeldMaps.{replicas_of, blocks_of, holdings_of};
ghost use Rattle.bm_report.specs.DuringReport.{AreAtSlots, HaveCapacity, IsOncePerNode, IsExcessGood, reported_of, slot_in, saturating_sum, AllAlreadyThere};
ghost use Rattle.bm_base.specs.Machine.Events as events;
ghost use Rattle.bm_base.specs.Machine.Calls as calls;

use crate::report_counts::ReportCounts;
use crate::reported_chunks::add_all_reported;
use crate::sweep::{drop_invalid_excess, sweep};
use crate::types::{Applied, ReportedSlot};
use bm_arena::{Arena, Slot};
use bm_base::StorageId;
use bm_topo::Topology;

/// Makes the replicas on a storage those of a full report, and counts the slots that are listed
/// before the sweep.
pub(crate) fn apply(
    arena: &mut Arena,
    topology: &Topology,
    storage: StorageId,
    named: &[ReportedSlot],
    changed: &mut Vec<Slot>,
    came: &mut usize,
) -> Applied
    requires here { AreAtSlots arena.old named.now }
    requires capacity { HaveCapacity arena.old storage named.now }
    requires head { HasHead arena.old storage }
    requires once { IsOncePerNode topology.now.cluster (replicas_of arena.old) }
    requires good { IsExcessGood (replicas_of arena.old) }
    requires free { marks_at arena.old arena.old.delimiter storage ≡ None }
    requires space { vec_len changed.old + length named.now + length (list_of arena.old storage)
        ≤ vec_capacity changed.old }
    ensures replicas { replicas_of arena.new
        ≡ (events.report topology.now.cluster (holdings_of arena.old) storage
        (map reported_of named.now)).replicas }
    ensures blocks { blocks_of arena.new ≡ blocks_of arena.old }
    ensures entries { KeepsEntries arena.old arena.new }
    ensures free { (t : ℕ)
        → marks_at arena.new arena.new.delimiter t ≡ marks_at arena.old arena.old.delimiter t }
    ensures listed { (slot : ℕ) → IsMember slot changed.new.items
        → IsMember slot changed.old.items ⊎ IsEntry arena.old slot }
    ensures changed { (slot : ℕ) → slot ≢ arena.old.delimiter → (IsMember slot changed.new.items → ⊥)
        → block_at arena.new slot ≡ block_at arena.old slot }
    ensures split { came.new ≤ length changed.new.items }
    ensures came { (slot : ℕ) → IsMember slot (take came.new changed.new.items)
        → IsMember slot changed.old.items ⊎ IsMember slot (map slot_in named.now) }
    ensures no_change { AllAlreadyThere arena.old storage named.now → result.removed ≡ 0
        → changed.new.items ≡ changed.old.items }
    ensures added { result.added
        ≡ calls.new_replicas (replicas_of arena.old) (replicas_of arena.new) }
    ensures removed { result.removed
        ≡ calls.new_replicas (replicas_of arena.new) (replicas_of arena.old) }
    ensures few { (result.added < 2 ^ 100) × (result.removed < 2 ^ 100) }
    ensures steps { result.steps ≡ length named.now + result.removed + 2 }
    ensures counted { arena.new.steps ≡ saturating_sum result.steps arena.old.steps }
{
    let mut tally = ReportCounts {
        added: 0,
        removed: 0,
        steps: 1,
        has_invalid_excess: false,
    };
    arena.show_invariant();
    arena.put_delimiter(storage);
    add_all_reported(arena, topology, storage, named, &mut tally, changed);
    arena.show_invariant();
    *came = changed.len();
    sweep(arena, storage, &mut tally, changed);
    arena.show_invariant();
    arena.take_delimiter(storage);
    drop_invalid_excess(arena, storage, named, tally.has_invalid_excess);
    Applied {
        added: tally.added,
        removed: tally.removed,
        steps: tally.steps + 1,
    }
}
