// A full report without a `Report`: nothing is kept between the look-up of its numbers and its end.
ghost use Rattle.std.specs.Prelude.{◌≡◌, ◌<◌, ◌≤◌, ◌+◌, ℕ, length, None, Some, OnOk, IfErr, IsTrue, false, ◌≢◌};
ghost use Rattle.bm_base.specs.Words.{numbers_in};
ghost use Rattle.bm_base.specs.declared.refusal.Refusal.TheVariants.{Memory};
ghost use Rattle.bm_base.specs.declared.limits.TheConstants.{MAX_NUMBERS};
ghost use Rattle.bm_arena.specs.Contents.{block_at, slot_of, marks_at, KeepsEntries};
ghost use Rattle.bm_arena.specs.HeldMaps.{replicas_of, blocks_of, holdings_of};
ghost use Rattle.bm_report.specs.DuringReport.{IsOncePerNode, saturating_sum};
ghost use Rattle.bm_report.specs.ReportedBlocks.{IsPrepared, reported_to_part};
ghost use Rattle.bm_report.specs.Ready.{HasSlotsFor, HasGoodExcess};
ghost use Rattle.bm_base.specs.Machine.Events as events;
ghost use Rattle.bm_base.specs.Machine.Calls as calls;

use crate::look_up::look_up;
use crate::report_counts::ReportCounts;
use crate::types::{Applied, ReportedSlot};
use crate::uncached_numbers::{
    add_reported_entries, drop_invalid_excess_by_number, sweep_unreported,
};
use bm_arena::Arena;
use bm_base::{Entry, Part, Refusal, StorageId};
use bm_topo::Topology;

/// Gives an entry to each new number of the part that the entries name, and reserves all that
/// `apply_full`, or `apply_received` of one of the numbers, needs. All blocks and replicas stay.
/// `Memory`: then `abort` drops the new entries.
pub fn ready(
    arena: &mut Arena,
    storage: StorageId,
    entries: &[Entry],
    part: Part,
) -> Result<(), Refusal>
    requires part { part.index < part.shards }
    ensures ready { OnOk result (HasSlotsFor arena.new storage (reported_to_part part entries.now)) }
    ensures kept { IsPrepared arena.old arena.new }
    ensures others { (b : ℕ) → events.is_named (reported_to_part part entries.now) b ≡ false
        → slot_of arena.new b ≡ slot_of arena.old b }
    ensures refused { IfErr result (λ e. e ≡ Memory) }
{
    let mut named: Vec<ReportedSlot> = Vec::new(arena.allocator());
    look_up(arena, storage, entries, part, &mut named)?;
    Ok(())
}

/// Makes the replicas on a storage those of a full report, whose numbers of the part were
/// made ready. Each number is looked up again, and no slots are listed: a shard uses `Report`,
/// which is faster. Takes no memory.
///
/// The list steps: one for each named number of the part, one for each replica that leaves, and two
/// for the delimiter.
pub fn apply_full(
    arena: &mut Arena,
    topology: &Topology,
    storage: StorageId,
    entries: &[Entry],
    part: Part,
) -> Applied
    requires part { part.index < part.shards }
    requires few { numbers_in entries.now ≤ MAX_NUMBERS }
    requires ready { HasSlotsFor arena.old storage (reported_to_part part entries.now) }
    requires once { IsOncePerNode topology.now.cluster (replicas_of arena.old) }
    requires good { HasGoodExcess (replicas_of arena.old) }
    requires free { marks_at arena.old arena.old.delimiter storage ≡ None }
    ensures replicas { replicas_of arena.new
        ≡ (events.report topology.now.cluster (holdings_of arena.old) storage
        (reported_to_part part entries.now)).replicas }
    ensures blocks { blocks_of arena.new ≡ blocks_of arena.old }
    ensures entries { KeepsEntries arena.old arena.new }
    ensures once { IsOncePerNode topology.now.cluster (replicas_of arena.new) }
    ensures good { HasGoodExcess (replicas_of arena.new) }
    ensures others { (slot : ℕ) → slot ≢ arena.old.delimiter
        → marks_at arena.old slot storage ≡ None →
        ((b : ℕ) → IsTrue (events.is_named (reported_to_part part entries.now) b)
        → slot_of arena.old b ≢ Some slot) → block_at arena.new slot ≡ block_at arena.old slot }
    ensures free { (t : ℕ)
        → marks_at arena.new arena.new.delimiter t ≡ marks_at arena.old arena.old.delimiter t }
    ensures added { result.added
        ≡ calls.new_replicas (replicas_of arena.old) (replicas_of arena.new) }
    ensures removed { result.removed
        ≡ calls.new_replicas (replicas_of arena.new) (replicas_of arena.old) }
    ensures steps { result.steps ≡ length (reported_to_part part entries.now) + result.removed + 2 }
    ensures counted { arena.new.steps ≡ saturating_sum result.steps arena.old.steps }
{
    let mut tally = ReportCounts {
        added: 0,
        removed: 0,
        steps: 1,
        has_invalid_excess: false,
    };
    arena.show_invariant();
    // No list is longer, so the counts do not overflow.
    let _bound = arena.slot_bound();
    arena.put_delimiter(storage);
    add_reported_entries(arena, topology, storage, entries, part, &mut tally);
    arena.show_invariant();
    sweep_unreported(arena, storage, &mut tally);
    arena.show_invariant();
    arena.take_delimiter(storage);
    drop_invalid_excess_by_number(arena, storage, entries, part, tally.has_invalid_excess);
    Applied {
        added: tally.added,
        removed: tally.removed,
        steps: tally.steps + 1,
    }
}
