// Numbers of a report entered one after another, each looked up again: no slots are kept.
ghost use Rattle.std.specs.Prelude.{◌≡◌, ◌<◌, ◌+◌, ◌^◌, ◌∷◌, [], length, false, IsSome};
ghost use Rattle.bm_base.specs.Words.{blocks_of_entry};
ghost use Rattle.bm_arena.specs.Contents.{marks_at};
ghost use Rattle.bm_arena.specs.HeldMaps.{replicas_of};
ghost use Rattle.bm_report.specs.DuringReport.{behind, AreAtSlots, IsCounted, IsEntered, IsExcessGood, DropsInvalidExcess, IsSwept};
ghost use Rattle.bm_report.specs.ReportedBlocks.{of_part, reported_to_part};
ghost use Rattle.bm_report.specs.Ready.{named_of, CanBeAdded};

use crate::first_of_part::first_of_part;
use crate::report_counts::ReportCounts;
use crate::reported_block::add_reported;
use crate::sweep::drop_invalid_excess_of_one;
use crate::types::ReportedSlot;
use bm_arena::Arena;
use bm_base::{BlockId, Entry, Part, Stamp, StorageId};
use bm_topo::Topology;

/// Enters the block of a number.
fn add_number(
    arena: &mut Arena,
    topology: &Topology,
    storage: StorageId,
    id: BlockId,
    stamp: Stamp,
    tally: &mut ReportCounts,
)
    requires { CanBeAdded topology.now.cluster storage (record { id = id; stamp = stamp } ∷ [])
        arena.old tally.old }
    ensures entered { IsEntered topology.now.cluster storage
        (named_of arena.old (record { id = id; stamp = stamp } ∷ [])) arena.old arena.new }
    ensures counted { IsCounted topology.now.cluster storage
        (named_of arena.old (record { id = id; stamp = stamp } ∷ [])) arena.old arena.new
        tally.old tally.new }
{
    match arena.find(id) {
        Some(slot) => {
            let was = arena.marks(slot, storage);
            add_reported(
                arena,
                topology,
                storage,
                &ReportedSlot { id, slot, stamp },
                was,
                tally,
            );
        }
        None => unreachable!(),
    }
}

/// Enters the blocks of an entry's numbers of the part.
fn add_run(
    arena: &mut Arena,
    topology: &Topology,
    storage: StorageId,
    entry: &Entry,
    part: Part,
    tally: &mut ReportCounts,
)
    requires part { part.index < part.shards }
    requires set { CanBeAdded topology.now.cluster storage (of_part part (blocks_of_entry entry.now))
        arena.old tally.old }
    ensures entered { IsEntered topology.now.cluster storage
        (named_of arena.old (of_part part (blocks_of_entry entry.now))) arena.old arena.new }
    ensures counted { IsCounted topology.now.cluster storage
        (named_of arena.old (of_part part (blocks_of_entry entry.now))) arena.old arena.new
        tally.old tally.new }
{
    let last = u128::from(entry.to.0);
    let mut next = first_of_part(entry.from, part);
    while next <= last {
        add_number(
            arena,
            topology,
            storage,
            BlockId(next as u64),
            entry.stamp,
            tally,
        );
        next += u128::from(part.shards);
    }
}

/// Enters the blocks of all numbers of the part that the entries name.
pub(crate) fn add_reported_entries(
    arena: &mut Arena,
    topology: &Topology,
    storage: StorageId,
    entries: &[Entry],
    part: Part,
    tally: &mut ReportCounts,
)
    requires part { part.index < part.shards }
    requires set { CanBeAdded topology.now.cluster storage (reported_to_part part entries.now)
        arena.old tally.old }
    ensures entered { IsEntered topology.now.cluster storage
        (named_of arena.old (reported_to_part part entries.now)) arena.old arena.new }
    ensures counted { IsCounted topology.now.cluster storage
        (named_of arena.old (reported_to_part part entries.now)) arena.old arena.new tally.old tally.new }
{
    for entry in entries {
        add_run(arena, topology, storage, entry, part, tally);
    }
}

/// Drops the invalid excess of the block of a number on the storage.
fn drop_invalid_excess_of_number(arena: &mut Arena, storage: StorageId, id: BlockId, stamp: Stamp)
    requires { AreAtSlots arena.old (named_of arena.old (record { id = id; stamp = stamp } ∷ [])) }
    ensures { DropsInvalidExcess storage (named_of arena.old (record { id = id; stamp = stamp } ∷ []))
        arena.old arena.new }
{
    match arena.find(id) {
        Some(slot) => drop_invalid_excess_of_one(arena, storage, &ReportedSlot { id, slot, stamp }),
        None => unreachable!(),
    }
}

fn drop_invalid_excess_of_run(arena: &mut Arena, storage: StorageId, entry: &Entry, part: Part)
    requires part { part.index < part.shards }
    requires here { AreAtSlots arena.old (named_of arena.old (of_part part (blocks_of_entry entry.now))) }
    ensures { DropsInvalidExcess storage (named_of arena.old (of_part part (blocks_of_entry entry.now)))
        arena.old arena.new }
{
    let last = u128::from(entry.to.0);
    let mut next = first_of_part(entry.from, part);
    while next <= last {
        drop_invalid_excess_of_number(arena, storage, BlockId(next as u64), entry.stamp);
        next += u128::from(part.shards);
    }
}

fn drop_invalid_excess_of_entries(
    arena: &mut Arena,
    storage: StorageId,
    entries: &[Entry],
    part: Part,
)
    requires part { part.index < part.shards }
    requires here { AreAtSlots arena.old (named_of arena.old (reported_to_part part entries.now)) }
    ensures { DropsInvalidExcess storage (named_of arena.old (reported_to_part part entries.now))
        arena.old arena.new }
{
    for entry in entries {
        drop_invalid_excess_of_run(arena, storage, entry, part);
    }
}

/// Drops the invalid excess of all named blocks, if there is some: only a good replica stays in
/// excess.
pub(crate) fn drop_invalid_excess_by_number(
    arena: &mut Arena,
    storage: StorageId,
    entries: &[Entry],
    part: Part,
    has_invalid_excess: bool,
)
    requires part { part.index < part.shards }
    requires here { AreAtSlots arena.old (named_of arena.old (reported_to_part part entries.now)) }
    requires good { has_invalid_excess ≡ false → IsExcessGood (replicas_of arena.old) }
    ensures { DropsInvalidExcess storage (named_of arena.old (reported_to_part part entries.now))
        arena.old arena.new }
{
    if has_invalid_excess {
        drop_invalid_excess_of_entries(arena, storage, entries, part);
    }
}

/// Unlinks the blocks after the delimiter.
pub(crate) fn sweep_unreported(arena: &mut Arena, storage: StorageId, tally: &mut ReportCounts)
    requires put { IsSome (marks_at arena.old arena.old.delimiter storage) }
    requires removed { tally.old.removed + length (behind arena.old storage) < 2 ^ 127 }
    requires steps { tally.old.steps + length (behind arena.old storage) < 2 ^ 127 }
    ensures { IsSwept storage (behind arena.old storage) arena.old arena.new tally.old tally.new }
{
    while let Some(slot) = arena.next_after(storage, None) {
        arena.show_invariant();
        arena.unlink(slot, storage);
        tally.count_sweep();
    }
}
