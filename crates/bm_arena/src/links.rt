// Reads and writes of the triplets of one block, and the linking of one slot between its
// neighbours.
ghost use Rattle.std.specs.Prelude.{OnSome, OnOk, OnErr, IsOk, IsSomeAnd, if◌then◌else◌, is_some, ◌≡◌, ◌<◌, ◌≤◌, slice_get, Some, None, IsSome, position, ◌==◌, option_map, option_and_then, slice_set};
ghost use Rattle.bm_base.specs.Words.{position_or_len};
ghost use Rattle.slab.specs.Slab.{get};
ghost use Rattle.bm_arena.specs.declared.arena.BlockEntry.{BlockEntry};
ghost use Rattle.smallvec.specs.SmallVec.{HasRoomFor};
ghost use Rattle.bm_maps.specs.SlotLinks.{end_of_links};
ghost use Rattle.bm_maps.specs.SlotLists.{Distinct};
ghost use Rattle.bm_arena.specs.Triplets.{triplet_view, with_capacity, capacity_at, at_slot, added, removed, fill_first, is_of, as_first, first_after, previous_set, detached, find_triplet, change_triplet, storages_in, with_previous, with_next, with_triplet_marks, triplet_at, change_at};

use crate::arena::{BlockEntry, INLINE_TRIPLETS, Triplet};
use bm_base::{BlockInfo, Marks, StorageId};
use bm_maps::{NO_LINK, SlotLink};
use slab::Slab;
use smallvec::SmallVec;
use std::alloc::AllocError;

// The index of a storage's triplet.
#[inline]
fn index_of(triplets: &[Triplet], storage: u32) -> Option<usize>
    ensures { result ≡ position (λ t. t.storage == storage) triplets.now }
{
    let first = first_index(triplets, storage);
    if first < triplets.len() {
        Some(first)
    } else {
        None
    }
}

// The index of the first triplet of a storage; the number of triplets if there is none. Up to three
// are compared with no loop and no branch, since the processor can't predict the index.
#[inline]
fn first_index(triplets: &[Triplet], storage: u32) -> usize
    ensures { result ≡ position_or_len (λ t. t.storage == storage) triplets.now }
{
    match triplets {
        [] => 0,
        [a] => first_true(a.storage == storage, true, true),
        [a, b] => first_true(a.storage == storage, b.storage == storage, true),
        [a, b, c] => first_true(
            a.storage == storage,
            b.storage == storage,
            c.storage == storage,
        ),
        _ => first_index_of_many(triplets, storage),
    }
}

// The index of the first value that is true; 3 if none is.
#[inline(always)]
fn first_true(a: bool, b: bool, c: bool) -> usize
    ensures { result ≡ (if a then 0 else (if b then 1 else (if c then 2 else 3))) }
{
    let mut first = 3;
    if c {
        first = 2;
    }
    if b {
        first = 1;
    }
    if a {
        first = 0;
    }
    first
}

#[inline(never)]
fn first_index_of_many(triplets: &[Triplet], storage: u32) -> usize
    ensures { result ≡ position_or_len (λ t. t.storage == storage) triplets.now }
{
    let mut first = triplets.len();
    for index in (0..triplets.len()).rev() {
        if triplets[index].storage == storage {
            first = index;
        }
    }
    first
}

// The index of a storage's triplet, if no two triplets are of one storage. Compares the triplet
// at index `guess` first, and the others only if that one is of another storage.
fn index_near(triplets: &[Triplet], storage: u32, guess: usize) -> Option<usize>
    requires { Distinct (storages_in triplets.now) }
    ensures { result ≡ position (λ t. t.storage == storage) triplets.now }
{
    if guess < triplets.len() && triplets[guess].storage == storage {
        return Some(guess);
    }
    index_of(triplets, storage)
}

// The triplet of a storage.
fn search_triplets(triplets: &[Triplet], storage: u32) -> Option<Triplet>
    ensures { result ≡ find_triplet triplets.now storage }
{
    match index_of(triplets, storage) {
        Some(index) => Some(triplets[index]),
        None => None,
    }
}

fn set_triplet_previous(triplets: &mut [Triplet], storage: u32, previous: SlotLink)
    ensures { triplets.new ≡ change_triplet (with_previous previous) triplets.old storage }
{
    if let Some(index) = index_of(triplets, storage) {
        triplets[index].previous = previous;
    }
}

fn set_triplet_next(triplets: &mut [Triplet], storage: u32, next: SlotLink)
    ensures { triplets.new ≡ change_triplet (with_next next) triplets.old storage }
{
    if let Some(index) = index_of(triplets, storage) {
        triplets[index].next = next;
    }
}

fn set_triplet_marks(triplets: &mut [Triplet], storage: u32, marks: Marks)
    ensures { triplets.new ≡ change_triplet (with_triplet_marks marks) triplets.old storage }
{
    if let Some(index) = index_of(triplets, storage) {
        triplets[index].marks = marks;
    }
}

fn set_triplet_marks_near(triplets: &mut [Triplet], storage: u32, marks: Marks, guess: usize)
    requires { Distinct (storages_in triplets.old) }
    ensures { triplets.new ≡ change_triplet (with_triplet_marks marks) triplets.old storage }
{
    if let Some(index) = index_near(triplets, storage, guess) {
        triplets[index].marks = marks;
    }
}

// The triplet of a storage in the block at a slot.
pub(crate) fn find(slots: &Slab<BlockEntry>, slot: usize, storage: u32) -> Option<Triplet>
    ensures { result ≡ triplet_at slots.now slot storage }
{
    match slots.get(slot) {
        Some(entry) => search_triplets(entry.triplets.as_slice(), storage),
        None => None,
    }
}

fn set_previous(slots: &mut Slab<BlockEntry>, slot: usize, storage: u32, previous: SlotLink)
    ensures { slots.new ≡ change_at (with_previous previous) slots.old slot storage }
{
    if let Some(entry) = slots.get_mut(slot) {
        set_triplet_previous(entry.triplets.as_mut_slice(), storage, previous);
    }
}

fn set_next(slots: &mut Slab<BlockEntry>, slot: usize, storage: u32, next: SlotLink)
    ensures { slots.new ≡ change_at (with_next next) slots.old slot storage }
{
    if let Some(entry) = slots.get_mut(slot) {
        set_triplet_next(entry.triplets.as_mut_slice(), storage, next);
    }
}

// Relinks the triplet of a storage as the head of its list. Returns the triplet as it was before.
pub(crate) fn put_first(
    slots: &mut Slab<BlockEntry>,
    slot: usize,
    storage: u32,
    first: SlotLink,
) -> Option<Triplet>
    ensures found { result ≡ triplet_at slots.old slot storage }
    ensures slots { slots.new ≡ change_at (as_first first) slots.old slot storage }
{
    match slots.get_mut(slot) {
        Some(entry) => set_first_link(entry.triplets.as_mut_slice(), storage, first),
        None => None,
    }
}

fn set_first_link(triplets: &mut [Triplet], storage: u32, first: SlotLink) -> Option<Triplet>
    ensures found { result ≡ find_triplet triplets.old storage }
    ensures triplets { triplets.new ≡ change_triplet (as_first first) triplets.old storage }
{
    match index_of(triplets, storage) {
        Some(index) => {
            let triplet = triplets[index];
            triplets[index] = as_first(&triplet, first);
            Some(triplet)
        }
        None => None,
    }
}

// A triplet linked as the head of its list. If it is the head already, its next link stays.
fn as_first(triplet: &Triplet, first: SlotLink) -> Triplet
    ensures { result ≡ as_first first triplet.now }
{
    let next = if triplet.previous.slot().is_some() {
        first
    } else {
        triplet.next
    };
    Triplet {
        previous: NO_LINK,
        next,
        ..*triplet
    }
}

pub(crate) fn set_marks(slots: &mut Slab<BlockEntry>, slot: usize, storage: u32, marks: Marks)
    ensures { slots.new ≡ change_at (with_triplet_marks marks) slots.old slot storage }
{
    if let Some(entry) = slots.get_mut(slot) {
        set_triplet_marks(entry.triplets.as_mut_slice(), storage, marks);
    }
}

// As `set_marks`, with a guess of the triplet's index.
pub(crate) fn set_marks_near(
    slots: &mut Slab<BlockEntry>,
    slot: usize,
    storage: u32,
    marks: Marks,
    guess: usize,
)
    requires { (e : BlockEntry) → get slots.old slot ≡ Some e → Distinct (storages_in e.triplets.items) }
    ensures { slots.new ≡ change_at (with_triplet_marks marks) slots.old slot storage }
{
    if let Some(entry) = slots.get_mut(slot) {
        set_triplet_marks_near(entry.triplets.as_mut_slice(), storage, marks, guess);
    }
}

pub(crate) fn set_info(slots: &mut Slab<BlockEntry>, slot: usize, info: Option<BlockInfo>)
    ensures { slots.new ≡ at_slot (λ e. record e { info = info }) slots.old slot }
{
    if let Some(entry) = slots.get_mut(slot) {
        entry.info = info;
    }
}

// Puts a slot at the head of a list. Its triplet has no previous link, and its next link leads to
// the old head.
#[inline]
pub(crate) fn attach(slots: &mut Slab<BlockEntry>, first: &mut SlotLink, slot: usize, storage: u32)
    requires { slot < end_of_links }
    ensures slots { slots.new ≡ previous_set slots.old first.old storage (Some slot) }
    ensures first { first.new ≡ Some slot }
{
    let here = SlotLink::to(slot);
    if let Some(old_first) = first.slot() {
        set_previous(slots, old_first, storage, here);
    }
    *first = here;
}

// Links the neighbours of a triplet to each other.
#[inline(always)]
pub(crate) fn detach(
    slots: &mut Slab<BlockEntry>,
    first: &mut SlotLink,
    triplet: Triplet,
    storage: u32,
)
    ensures slots { slots.new ≡ detached slots.old triplet storage }
    ensures first { first.new ≡ first_after first.old triplet }
{
    match triplet.previous.slot() {
        Some(previous) => set_next(slots, previous, storage, triplet.next),
        None => *first = triplet.next,
    }
    if let Some(next) = triplet.next.slot() {
        set_previous(slots, next, storage, triplet.previous);
    }
}

// Adds a triplet to the block at a slot, which has capacity for it.
pub(crate) fn add_triplet(slots: &mut Slab<BlockEntry>, slot: usize, triplet: Triplet)
    requires { IsSomeAnd (get slots.old slot) (λ e. HasRoomFor e.triplets 1) }
    ensures { slots.new ≡ added slots.old slot triplet }
{
    if let Some(entry) = slots.get_mut(slot) {
        entry.triplets.push_reserved(triplet);
    }
}

// Removes a storage's triplet from a block's: the last one takes its index.
fn remove_and_fill(
    triplets: &mut SmallVec<Triplet, INLINE_TRIPLETS>,
    storage: u32,
) -> Option<Triplet>
    ensures found { result ≡ find_triplet triplets.old.items storage }
    ensures items { triplets.new.items ≡ fill_first (is_of storage) triplets.old.items }
    ensures capacity { triplets.new.capacity ≡ triplets.old.capacity }
{
    match index_of(triplets.as_slice(), storage) {
        Some(index) => Some(triplets.swap_remove(index)),
        None => None,
    }
}

// Removes a storage's triplet from the block at a slot: the block's last triplet takes its index.
pub(crate) fn remove_triplet(
    slots: &mut Slab<BlockEntry>,
    slot: usize,
    storage: u32,
) -> Option<Triplet>
    ensures found { result ≡ triplet_at slots.old slot storage }
    ensures slots { slots.new ≡ removed slots.old slot storage }
{
    match slots.get_mut(slot) {
        Some(entry) => remove_and_fill(&mut entry.triplets, storage),
        None => None,
    }
}

// Reserves capacity for more triplets of the block at a slot.
pub(crate) fn reserve_triplets(
    slots: &mut Slab<BlockEntry>,
    slot: usize,
    additional: usize,
) -> Result<(), AllocError>
    ensures rest { slots.new ≡ at_slot (with_capacity (capacity_at slots.new slot)) slots.old slot }
    ensures grows { capacity_at slots.old slot ≤ capacity_at slots.new slot }
    ensures capacity { OnOk result ((e : _) → get slots.new slot ≡ Some e
        → HasRoomFor e.triplets additional) }
    ensures succeeds { ((e : _) → get slots.old slot ≡ Some e → HasRoomFor e.triplets additional)
        → IsOk result }
    ensures had_capacity { ((e : _) → get slots.old slot ≡ Some e
        → HasRoomFor e.triplets additional)
        → slots.new ≡ slots.old }
    ensures refused { OnErr result (slots.new ≡ slots.old) }
{
    match slots.get_mut(slot) {
        Some(entry) => entry.triplets.reserve(additional),
        None => Ok(()),
    }
}

// The storage and the marks of the triplet at index `i` of the block at a slot.
pub(crate) fn replica_at(
    slots: &Slab<BlockEntry>,
    slot: usize,
    i: usize,
) -> Option<(StorageId, Marks)>
    ensures { result ≡ option_and_then
        (λ e. option_map triplet_view (slice_get e.triplets.items i)) (get slots.now slot) }
{
    match slots.get(slot) {
        Some(entry) => replica_of_triplet(entry.triplets.as_slice(), i),
        None => None,
    }
}

fn replica_of_triplet(triplets: &[Triplet], i: usize) -> Option<(StorageId, Marks)>
    ensures { result ≡ option_map triplet_view (slice_get triplets.now i) }
{
    if i < triplets.len() {
        Some(triplets[i].replica())
    } else {
        None
    }
}

// The number of the entry at a slot.
pub(crate) fn id_at(slots: &Slab<BlockEntry>, slot: usize) -> u64
    requires { IsSome (get slots.now slot) }
    ensures { (e : BlockEntry) → get slots.now slot ≡ Some e → result ≡ e.id }
{
    match slots.get(slot) {
        Some(entry) => entry.id,
        None => unreachable!(),
    }
}

// Removes the entry at a slot, and gives its number.
pub(crate) fn remove_entry(slots: &mut Slab<BlockEntry>, slot: usize) -> Option<u64>
    ensures id { result ≡ option_map (λ e. e.id) (get slots.old slot) }
    ensures slots { OnSome result (slots.new.slots ≡ slice_set slots.old.slots slot None) }
{
    match slots.try_remove(slot) {
        Some(entry) => Some(entry.id),
        None => None,
    }
}
