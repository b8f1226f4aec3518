// The end of a report: unreported replicas leave, and invalid excess is dropped: the mark "in
// excess" of a replica that is no longer good.
ghost use Rattle.std.specs.Prelude.{◌≡◌, ◌≤◌, ◌<◌, ◌+◌, ◌^◌, length, vec_len, vec_capacity, ◌++◌, ◌∷◌, [], false, IsSome, None, Some};
ghost use Rattle.bm_arena.specs.Contents.{marks_at, slot_of};
ghost use Rattle.bm_arena.specs.HeldMaps.{replicas_of};
ghost use Rattle.bm_report.specs.DuringReport.{behind, IsSwept, IsListed, AreAtSlots, IsExcessGood, DropsInvalidExcess};

use crate::report_counts::ReportCounts;
use crate::reported_block::{is_excess_good, without_invalid_excess};
use crate::types::ReportedSlot;
use bm_arena::{Arena, Slot};
use bm_base::StorageId;

/// Unlinks the blocks after the delimiter, and lists their slots.
pub(crate) fn sweep(
    arena: &mut Arena,
    storage: StorageId,
    tally: &mut ReportCounts,
    changed: &mut Vec<Slot>,
)
    requires put { IsSome (marks_at arena.old arena.old.delimiter storage) }
    requires removed { tally.old.removed + length (behind arena.old storage) < 2 ^ 127 }
    requires steps { tally.old.steps + length (behind arena.old storage) < 2 ^ 127 }
    requires space { vec_len changed.old + length (behind arena.old storage) ≤ vec_capacity
        changed.old }
    ensures swept { IsSwept storage (behind arena.old storage) arena.old arena.new
        tally.old tally.new }
    ensures listed { IsListed arena.old arena.new changed.old.items changed.new.items }
    ensures appended { changed.new.items ≡ changed.old.items ++ behind arena.old storage }
    ensures capacity { vec_capacity changed.new ≡ vec_capacity changed.old }
{
    while let Some(slot) = arena.next_after(storage, None) {
        arena.show_invariant();
        arena.unlink(slot, storage);
        tally.count_sweep();
        changed.push_reserved(slot);
    }
}

/// Drops the invalid excess of the named blocks on the storage, if there is some: only a good
/// replica stays in excess.
pub(crate) fn drop_invalid_excess(
    arena: &mut Arena,
    storage: StorageId,
    named: &[ReportedSlot],
    has_invalid_excess: bool,
)
    requires here { AreAtSlots arena.old named.now }
    requires good { has_invalid_excess ≡ false → IsExcessGood (replicas_of arena.old) }
    ensures { DropsInvalidExcess storage named.now arena.old arena.new }
{
    if has_invalid_excess {
        drop_invalid_excess_of_all(arena, storage, named);
    }
}

fn drop_invalid_excess_of_all(arena: &mut Arena, storage: StorageId, named: &[ReportedSlot])
    requires { AreAtSlots arena.old named.now }
    ensures { DropsInvalidExcess storage named.now arena.old arena.new }
{
    for named in named {
        drop_invalid_excess_of_one(arena, storage, named);
    }
}

pub(crate) fn drop_invalid_excess_of_one(
    arena: &mut Arena,
    storage: StorageId,
    named: &ReportedSlot,
)
    requires { slot_of arena.old named.now.id ≡ Some named.now.slot }
    ensures { DropsInvalidExcess storage (named.now ∷ []) arena.old arena.new }
{
    arena.show_invariant();
    let Some(marks) = arena.marks(named.slot, storage) else {
        return;
    };
    if is_excess_good(marks) {
        return;
    }
    arena.set_marks(named.slot, storage, without_invalid_excess(marks));
}
