// The slots that a round scans.
ghost use Rattle.std.specs.Prelude.{◌≡◌, ◌≤◌, ◌++◌, ◌∷◌, [], ℕ, Some, filter, length, map, slice_get, IfOk, OnOk};
ghost use Rattle.bm_base.specs.Words.{IsPermutation};
ghost use Rattle.bm_maps.specs.SlotLists.{IsMember};
ghost use Rattle.bm_arena.specs.HeldMaps.{id_at};
ghost use Rattle.bm_levels.specs.IndexedLevels.{level_of_slot, slots_at};
ghost use Rattle.bm_round_scan.specs.ScannedSlots as scanned;

use crate::keys::{is_before, key_of};
use crate::scan::RoundScan;
use bm_arena::{Arena, Slot};
use bm_base::{BlockId, Level};
use bm_parts::sort_key::Key;
use std::alloc::{AllocError, Global};

/// The number of slots in a chunk.
const CHUNK: usize = 64;

/// Without a bound, the slots of a level are sorted if there are more than this number.
const MAX_UNSORTED: usize = 512;

/// The slots to scan, each once, with its key, in any order: the unsettled slots, and settled ones
/// below the bound. The latter have a level at which copies are wanted and lack pending transfers.
pub(crate) fn slots_to_scan(
    alloc: Global,
    start: &RoundScan,
) -> Result<Vec<(Key, Slot)>, AllocError>
    ensures { IfOk result (λ v. IsPermutation
        (map (scanned.keyed_at start.now.level_index.now start.now.arena.now)
        (scanned.scanned_slots start.now.level_index.now start.now.arena.now start.now.bound
        (scanned.has_enough_pending start.now.topology.now.cluster start.now.pend start.now.round
        start.now.arena.now start.now.pending.now))) v.items) }
{
    let mut keyed = Vec::with_capacity(alloc, first_capacity(start))?;
    for slot in start.level_index.unsettled_slots() {
        keyed.push((key_of(start.level_index, start.arena, slot), slot))?;
    }
    push_level(alloc, start, Level::Highest, &mut keyed)?;
    push_level(alloc, start, Level::VeryUnderReplicated, &mut keyed)?;
    push_level(alloc, start, Level::UnderReplicated, &mut keyed)?;
    push_level(alloc, start, Level::BadlyDistributed, &mut keyed)?;
    Ok(keyed)
}

/// The initial capacity, in slots. Without a bound nearly all blocks that need copies are scanned,
/// with a bound few of them.
fn first_capacity(start: &RoundScan) -> usize {
    let needing_copies = match start.bound {
        Some(_) => 0,
        None => start.level_index.count_needing_copies(),
    };
    start
        .level_index
        .unsettled_count()
        .saturating_add(needing_copies)
}

/// Appends the settled slots of a level that come before the bound and lack pending transfers, in
/// any order. Without a bound, more than `MAX_UNSORTED` slots are sorted first: then memory is read
/// nearly sequentially. Since block numbers mostly ascend with slots, `sort_slots` then has little
/// to do.
fn push_level(
    alloc: Global,
    start: &RoundScan,
    level: Level,
    into: &mut Vec<(Key, Slot)>,
) -> Result<(), AllocError>
    ensures { OnOk result (IsPermutation (into.old.items
        ++ map (scanned.keyed_at start.now.level_index.now start.now.arena.now)
        (filter
        (scanned.is_settled_to_scan start.now.level_index.now start.now.arena.now start.now.bound
        (scanned.has_enough_pending start.now.topology.now.cluster start.now.pend start.now.round
        start.now.arena.now start.now.pending.now)) (slots_at start.now.level_index.now level)))
        into.new.items) }
{
    let listed = start.level_index.at_level(level);
    if is_read_as_listed(start, listed.len()) {
        return push_settled(start, level, listed, into);
    }
    let mut slots = Vec::from_slice(alloc, listed)?;
    slots.sort_unstable();
    push_settled(start, level, &slots, into)
}

/// Whether the slots of a level are read in the order of their list. Sorting pays only for many
/// slots, and only if most of them are kept.
fn is_read_as_listed(start: &RoundScan, count: usize) -> bool {
    start.bound.is_some() || count <= MAX_UNSORTED
}

/// Appends those of these slots of a level that are settled, come before the bound and lack pending
/// transfers.
fn push_settled(
    start: &RoundScan,
    level: Level,
    slots: &[u32],
    into: &mut Vec<(Key, Slot)>,
) -> Result<(), AllocError>
    requires level { (slot : ℕ) → IsMember slot slots.now
        → level_of_slot start.now.level_index.now slot ≡ Some level }
    ensures { OnOk result (into.new.items ≡ into.old.items
        ++ map (scanned.keyed_at start.now.level_index.now start.now.arena.now)
        (filter
        (scanned.is_settled_to_scan start.now.level_index.now start.now.arena.now start.now.bound
        (scanned.has_enough_pending start.now.topology.now.cluster start.now.pend start.now.round
        start.now.arena.now start.now.pending.now)) slots.now)) }
{
    for chunk in slots.chunks(CHUNK) {
        push_settled_chunk(start, level, chunk, into)?;
    }
    Ok(())
}

/// As `push_settled`, for a chunk of the slots.
fn push_settled_chunk(
    start: &RoundScan,
    level: Level,
    chunk: &[u32],
    into: &mut Vec<(Key, Slot)>,
) -> Result<(), AllocError>
    requires few { length chunk.now ≤ 64 }
    requires level { (slot : ℕ) → IsMember slot chunk.now
        → level_of_slot start.now.level_index.now slot ≡ Some level }
    ensures { OnOk result (into.new.items ≡ into.old.items
        ++ map (scanned.keyed_at start.now.level_index.now start.now.arena.now)
        (filter
        (scanned.is_settled_to_scan start.now.level_index.now start.now.arena.now start.now.bound
        (scanned.has_enough_pending start.now.topology.now.cluster start.now.pend start.now.round
        start.now.arena.now start.now.pending.now)) chunk.now)) }
{
    let numbers = read_numbers(start.arena, chunk);
    for (index, slot) in chunk.iter().enumerate() {
        push_if_settled(start, level, *slot as usize, numbers[index], into)?;
    }
    Ok(())
}

/// As `push_settled`, for one slot, whose block has this number. The bound is compared first:
/// mostly few slots come before it.
fn push_if_settled(
    start: &RoundScan,
    level: Level,
    slot: Slot,
    id: BlockId,
    into: &mut Vec<(Key, Slot)>,
) -> Result<(), AllocError>
    requires level { level_of_slot start.now.level_index.now slot ≡ Some level }
    requires id { id ≡ id_at start.now.arena.now slot }
    ensures { OnOk result (into.new.items ≡ into.old.items
        ++ map (scanned.keyed_at start.now.level_index.now start.now.arena.now)
        (filter
        (scanned.is_settled_to_scan start.now.level_index.now start.now.arena.now start.now.bound
        (scanned.has_enough_pending start.now.topology.now.cluster start.now.pend start.now.round
        start.now.arena.now start.now.pending.now)) (slot ∷ []))) }
{
    let key = (level.number() as u64, id.0);
    if is_before(start.bound, key)
        && start.is_settled(slot)
        && !start.has_enough_pending(slot, id)
    {
        into.push((key, slot))?;
    }
    Ok(())
}

/// The numbers of the blocks at the slots of a chunk. All are read before one is compared, so that
/// the cache misses overlap.
fn read_numbers(arena: &Arena, chunk: &[u32]) -> [BlockId; CHUNK]
    requires { length chunk.now ≤ 64 }
    ensures { (i slot : ℕ) → slice_get chunk.now i ≡ Some slot
        → slice_get result i ≡ Some (id_at arena.now slot) }
{
    let mut numbers = [BlockId(0); CHUNK];
    for (index, slot) in chunk.iter().enumerate() {
        numbers[index] = arena.number_of(*slot as usize);
    }
    numbers
}

/// Sorts slots by their keys, the order of the wishes.
pub(crate) fn sort_slots(slots: &mut Vec<(Key, Slot)>)
    ensures { IsPermutation slots.old.items slots.new.items }
{
    slots.sort_unstable();
}
