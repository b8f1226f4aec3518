// Enters all blocks that a report names, chunk by chunk.
//
// The cost of a report is waiting for memory. So the marks of a chunk's blocks are read first, with
// overlapping cache misses, and the moves and links after that find the blocks' entries in the
// cache.
ghost use Rattle.std.specs.Prelude.{◌≡◌, ◌≤◌, ◌<◌, ◌+◌, ◌∷◌, [], ℕ, ◌⊎◌, length, map, slice_get, slice_index_or, vec_len, vec_capacity, true, false, None, Some};
ghost use Rattle.bm_maps.specs.SlotLists.{IsMember};
ghost use Rattle.bm_arena.specs.Contents.{slot_of, marks_at, HasHead, HasCapacity};
ghost use Rattle.bm_report.specs.declared.types.ReportedSlot.{ReportedSlot};
ghost use Rattle.bm_arena.specs.HeldMaps.{replicas_of};
ghost use Rattle.bm_report.specs.DuringReport.{AreAtSlots, HaveCapacity, IsOncePerNode, IsEntered, IsCounted, IsListed, FitsCounters, IsAlreadyThere, AllAlreadyThere, slot_in};
ghost use Rattle.bm_report.specs.declared.reported_chunks.TheConstants.{CHUNK};

use crate::report_counts::ReportCounts;
use crate::reported_block::add_reported;
use crate::types::ReportedSlot;
use bm_arena::{Arena, Slot};
use bm_base::{Marks, StorageId};
use bm_topo::Topology;

/// The number of blocks, or of entries, in a chunk.
pub(crate) const CHUNK: usize = 64;

/// The marks on the storage of each block of a chunk.
fn read_marks_ahead(
    arena: &Arena,
    storage: StorageId,
    chunk: &[ReportedSlot],
) -> [Option<Marks>; CHUNK]
    requires { length chunk.now ≤ CHUNK }
    ensures { (i : ℕ) (n : ReportedSlot) → slice_get chunk.now i ≡ Some n
        → slice_index_or result i None ≡ marks_at arena.now n.slot storage }
{
    let mut ahead = [None; CHUNK];
    for (index, named) in chunk.iter().enumerate() {
        ahead[index] = arena.marks(named.slot, storage);
    }
    ahead
}

/// The marks of a block on the storage: those read ahead, if no block has changed since.
fn marks_now(
    arena: &Arena,
    storage: StorageId,
    slot: Slot,
    ahead: Option<Marks>,
    is_changed: bool,
) -> Option<Marks>
    requires { is_changed ≡ false → ahead ≡ marks_at arena.now slot storage }
    ensures { result ≡ marks_at arena.now slot storage }
{
    if is_changed {
        arena.marks(slot, storage)
    } else {
        ahead
    }
}

/// Enters a block, and lists its slot if its replicas changed. Returns whether they did.
fn add_and_list(
    arena: &mut Arena,
    topology: &Topology,
    storage: StorageId,
    named: &ReportedSlot,
    was: Option<Marks>,
    tally: &mut ReportCounts,
    changed: &mut Vec<Slot>,
) -> bool
    requires here { slot_of arena.old named.now.id ≡ Some named.now.slot }
    requires was { was ≡ marks_at arena.old named.now.slot storage }
    requires head { HasHead arena.old storage }
    requires capacity { marks_at arena.old named.now.slot storage ≡ None
        → HasCapacity arena.old named.now.slot }
    requires once { IsOncePerNode topology.now.cluster (replicas_of arena.old) }
    requires small { FitsCounters tally.old 1 }
    requires space { vec_len changed.old < vec_capacity changed.old }
    ensures entered { IsEntered topology.now.cluster storage (named.now ∷ []) arena.old arena.new }
    ensures counted { IsCounted topology.now.cluster storage (named.now ∷ []) arena.old arena.new
        tally.old tally.new }
    ensures same { result ≡ false → arena.new.blocks ≡ arena.old.blocks }
    ensures no_change { IsAlreadyThere arena.old storage named.now
        → (result ≡ false) × (changed.new.items ≡ changed.old.items) }
    ensures listed { IsListed arena.old arena.new changed.old.items changed.new.items }
    ensures came { (slot : ℕ) → IsMember slot changed.new.items
        → IsMember slot changed.old.items ⊎ (slot ≡ named.now.slot) }
    ensures grown { vec_len changed.new ≤ vec_len changed.old + 1 }
    ensures capacity { vec_capacity changed.new ≡ vec_capacity changed.old }
{
    if add_reported(arena, topology, storage, named, was, tally) {
        changed.push_reserved(named.slot);
        return true;
    }
    false
}

/// Enters the blocks of a chunk, one after another.
fn add_chunk(
    arena: &mut Arena,
    topology: &Topology,
    storage: StorageId,
    chunk: &[ReportedSlot],
    tally: &mut ReportCounts,
    changed: &mut Vec<Slot>,
)
    requires few { length chunk.now ≤ CHUNK }
    requires here { AreAtSlots arena.old chunk.now }
    requires capacity { HaveCapacity arena.old storage chunk.now }
    requires head { HasHead arena.old storage }
    requires once { IsOncePerNode topology.now.cluster (replicas_of arena.old) }
    requires small { FitsCounters tally.old (length chunk.now) }
    requires space { vec_len changed.old + length chunk.now ≤ vec_capacity changed.old }
    ensures entered { IsEntered topology.now.cluster storage chunk.now arena.old arena.new }
    ensures counted { IsCounted topology.now.cluster storage chunk.now arena.old arena.new
        tally.old tally.new }
    ensures no_change { AllAlreadyThere arena.old storage chunk.now
        → (arena.new.blocks ≡ arena.old.blocks) × (changed.new.items ≡ changed.old.items) }
    ensures listed { IsListed arena.old arena.new changed.old.items changed.new.items }
    ensures came { (slot : ℕ) → IsMember slot changed.new.items
        → IsMember slot changed.old.items ⊎ IsMember slot (map slot_in chunk.now) }
    ensures grown { vec_len changed.new ≤ vec_len changed.old + length chunk.now }
    ensures capacity { vec_capacity changed.new ≡ vec_capacity changed.old }
{
    let ahead = read_marks_ahead(arena, storage, chunk);
    let mut is_changed = false;
    for (index, named) in chunk.iter().enumerate() {
        let was = marks_now(arena, storage, named.slot, ahead[index], is_changed);
        let now_changed = add_and_list(arena, topology, storage, named, was, tally, changed);
        is_changed |= now_changed;
    }
}

/// Enters all blocks that a report names, one after another.
pub(crate) fn add_all_reported(
    arena: &mut Arena,
    topology: &Topology,
    storage: StorageId,
    named: &[ReportedSlot],
    tally: &mut ReportCounts,
    changed: &mut Vec<Slot>,
)
    requires here { AreAtSlots arena.old named.now }
    requires capacity { HaveCapacity arena.old storage named.now }
    requires head { HasHead arena.old storage }
    requires once { IsOncePerNode topology.now.cluster (replicas_of arena.old) }
    requires small { FitsCounters tally.old (length named.now) }
    requires space { vec_len changed.old + length named.now ≤ vec_capacity changed.old }
    ensures entered { IsEntered topology.now.cluster storage named.now arena.old arena.new }
    ensures counted { IsCounted topology.now.cluster storage named.now arena.old arena.new
        tally.old tally.new }
    ensures no_change { AllAlreadyThere arena.old storage named.now
        → (arena.new.blocks ≡ arena.old.blocks) × (changed.new.items ≡ changed.old.items) }
    ensures listed { IsListed arena.old arena.new changed.old.items changed.new.items }
    ensures came { (slot : ℕ) → IsMember slot changed.new.items
        → IsMember slot changed.old.items ⊎ IsMember slot (map slot_in named.now) }
    ensures grown { vec_len changed.new ≤ vec_len changed.old + length named.now }
    ensures capacity { vec_capacity changed.new ≡ vec_capacity changed.old }
{
    for chunk in named.chunks(CHUNK) {
        add_chunk(arena, topology, storage, chunk, tally, changed);
    }
}
