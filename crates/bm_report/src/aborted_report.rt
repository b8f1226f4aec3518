// Aborts a report that was looked up.
ghost use Rattle.std.specs.Prelude.{◌≡◌, ℕ, if◌then◌else◌, Some, None, ◌∷◌, []};
ghost use Rattle.bm_arena.specs.Contents.{block_at, slot_of};
ghost use Rattle.bm_arena.specs.HeldMaps.{replicas_of, blocks_of};
ghost use Rattle.bm_report.specs.AbortedReport.{IsAborted, IsDropped, is_at, is_unused_number};

use crate::types::ReportedSlot;
use bm_arena::{Arena, Slot};

/// Drops the unused entries of the named blocks, without a block and replicas; all others stay.
/// Takes no memory.
pub(crate) fn abort_named(arena: &mut Arena, named: &[ReportedSlot])
    ensures { IsAborted named.now arena.old arena.new }
{
    for named in named {
        abort_number(arena, named);
    }
}

fn abort_number(arena: &mut Arena, named: &ReportedSlot)
    ensures { IsAborted (named.now ∷ []) arena.old arena.new }
{
    arena.show_invariant();
    let Some(slot) = arena.find(named.id) else {
        return;
    };
    if arena.info(slot).is_some() {
        return;
    }
    if !arena.has_no_replicas(slot) {
        return;
    }
    arena.drop_entry(slot);
}

/// Aborts all look-ups: drops each entry without a block and replicas. All blocks and replicas
/// stay. Scans all slots. Takes no memory.
pub fn abort(arena: &mut Arena)
    ensures replicas { replicas_of arena.new ≡ replicas_of arena.old }
    ensures blocks { blocks_of arena.new ≡ blocks_of arena.old }
    ensures lists { arena.new.lists ≡ arena.old.lists }
    ensures delimiter { arena.new.delimiter ≡ arena.old.delimiter }
    ensures marker { block_at arena.new arena.new.delimiter
        ≡ block_at arena.old arena.old.delimiter }
    ensures steps { arena.new.steps ≡ arena.old.steps }
    ensures numbers { (b : ℕ)
        → slot_of arena.new b ≡ (if is_unused_number arena.old b then None else slot_of arena.old b) }
    ensures entries { (b slot : ℕ) → slot_of arena.new b ≡ Some slot
        → block_at arena.new slot ≡ block_at arena.old slot }
{
    arena.show_invariant();
    for slot in 0..arena.slot_bound() {
        abort_slot(arena, slot);
    }
}

fn abort_slot(arena: &mut Arena, slot: Slot)
    ensures { IsDropped (is_at arena.old slot) arena.old arena.new }
{
    arena.show_invariant();
    if arena.is_delimiter(slot) {
        return;
    }
    if arena.info(slot).is_some() {
        return;
    }
    if !arena.has_no_replicas(slot) {
        return;
    }
    arena.drop_entry(slot);
}
