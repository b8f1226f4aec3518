// Which slot a block number has, or gets.
ghost use Rattle.std.specs.Prelude.{◌≡◌, ◌==◌, ◌<◌, ◌++◌, ◌∷◌, [], None, Some, nat_eq, if◌then◌else◌, ℕ, length, slice_get, IfOk, OnErr, IfErr, true, false, IsOk, option_map};
ghost use Rattle.bm_base.specs.Words.{lookup, keys_of, IsDistinct};
ghost use Rattle.bm_base.specs.declared.refusal.Refusal.TheVariants.{Memory};
ghost use Rattle.slab.specs.Slab.{HasRoomFor};
ghost use Rattle.indexmap.specs.IndexMap.{insert_entry, swap_remove_entry};
ghost use Rattle.bm_maps.specs.SlotLinks.{end_of_links};

use crate::arena::BlockEntry;
use bm_base::{HashSecret, Refusal};
use bm_maps::fits_link;
use indexmap::{IndexMap, map};
use slab::Slab;
use std::alloc::Global;
use std::marker::Model;

/// The slot of each block number. A contract sees it as the list of the numbers with their slots.
///
/// New numbers are mostly ascending, so a number above all that were added is known to be absent
/// without a read of the index.
#[derive(Drop)]
pub(crate) struct SlotIndex {
    index: IndexMap<u64, usize, HashSecret>,
    // No number that has a slot is greater.
    greatest: u64,
}

impl Model for SlotIndex {
    ghost use Rattle.std.specs.Prelude.{ℕ, List};

    ghost Value = { List (ℕ × ℕ) };

    ghost use Rattle.bm_arena.specs.Inside.{AreAtMost};

    ghost view = { λ n. n.index.entries };

    ghost invariant = { λ n. AreAtMost n.index.entries n.greatest };
}

impl SlotIndex {
    /// No number, in a table that hashes by this secret. Takes no memory.
    pub(crate) fn new(alloc: Global, secret: HashSecret) -> SlotIndex
        ensures { result ≡ [] }
    {
        SlotIndex {
            index: IndexMap::with_hasher(alloc, secret),
            greatest: 0,
        }
    }

    /// How many numbers have a slot.
    pub(crate) fn len(&self) -> usize
        ensures { result ≡ length self.now }
    {
        self.index.len()
    }

    /// The slot of a number, if it has one.
    pub(crate) fn get(&self, id: u64) -> Option<usize>
        ensures { result ≡ lookup (nat_eq id) self.now }
    {
        if id > self.greatest {
            return None;
        }
        self.index.get(&id).copied()
    }

    /// The number at index `i`, with its slot.
    pub(crate) fn entry_at(&self, i: usize) -> Option<(u64, usize)>
        ensures { result ≡ slice_get self.now i }
    {
        match self.index.get_index(i) {
            Some((id, slot)) => Some((*id, *slot)),
            None => None,
        }
    }

    /// The slot at index `i`.
    pub(crate) fn slot_at(&self, i: usize) -> Option<usize>
        ensures { result ≡ option_map (λ p. p.1) (slice_get self.now i) }
    {
        match self.index.get_index(i) {
            Some((_, slot)) => Some(*slot),
            None => None,
        }
    }

    /// The slot of a number, and whether it is new: then it is the slot that the slab fills next,
    /// and there is capacity for it. The number is hashed once.
    pub(crate) fn slot_for(
        &mut self,
        slots: &mut Slab<BlockEntry>,
        id: u64,
    ) -> Result<(usize, bool), Refusal>
        ensures there { (was : ℕ) → lookup (nat_eq id) self.old ≡ Some was → IsOk result }
        ensures known { IfOk result (λ r. r.1 ≡ false → (Some r.0 ≡ lookup (nat_eq id) self.old)
            × (self.new ≡ self.old) × (slots.new ≡ slots.old)) }
        ensures absent { IfOk result (λ r. r.1 ≡ true → None ≡ lookup (nat_eq id) self.old) }
        ensures listed { IfOk result (λ r. r.1 ≡ true
            → (r.0 ≡ slots.new.vacant_key) × (r.0 < end_of_links) × HasRoomFor slots.new 1
            × (self.new ≡ self.old ++ (id, r.0) ∷ [])) }
        ensures grown { slots.new ≡ record slots.old { capacity = slots.new.capacity } }
        ensures unique { IsDistinct nat_eq (keys_of self.new) }
        ensures refused { IfErr result (λ e. e ≡ Memory) }
        ensures unchanged { OnErr result (self.new ≡ self.old) }
    {
        let (slot, is_new) = find_or_add_slot(&mut self.index, slots, id)?;
        if is_new {
            self.greatest = self.greatest.max(id);
        }
        Ok((slot, is_new))
    }

    /// Removes a number: the last one takes its index.
    pub(crate) fn remove(&mut self, id: u64)
        ensures list { self.new ≡ swap_remove_entry (nat_eq id) self.old }
        ensures found { (other : ℕ)
            → lookup (nat_eq other) self.new
            ≡ (if id == other then None else lookup (nat_eq other) self.old) }
        ensures unique { IsDistinct nat_eq (keys_of self.new) }
    {
        self.index.swap_remove(&id);
    }
}

// The slot of a number in the index, and whether it is new.
fn find_or_add_slot(
    ids: &mut IndexMap<u64, usize, HashSecret>,
    slots: &mut Slab<BlockEntry>,
    id: u64,
) -> Result<(usize, bool), Refusal>
    ensures there { (was : ℕ) → lookup (nat_eq id) ids.old.entries ≡ Some was → IsOk result }
    ensures known { IfOk result (λ r. r.1 ≡ false → (Some r.0 ≡ lookup (nat_eq id) ids.old.entries)
        × (ids.new.entries ≡ ids.old.entries) × (slots.new ≡ slots.old)) }
    ensures absent { IfOk result (λ r. r.1 ≡ true → None ≡ lookup (nat_eq id) ids.old.entries) }
    ensures listed { IfOk result (λ r. r.1 ≡ true
        → (r.0 ≡ slots.new.vacant_key) × (r.0 < end_of_links) × HasRoomFor slots.new 1
        × (ids.new.entries ≡ insert_entry nat_eq ids.old.entries id r.0)) }
    ensures grown { slots.new ≡ record slots.old { capacity = slots.new.capacity } }
    ensures unique { IsDistinct nat_eq (keys_of ids.new.entries) }
    ensures refused { IfErr result (λ e. e ≡ Memory) }
    ensures unchanged { OnErr result (ids.new.entries ≡ ids.old.entries) }
{
    match ids.entry(id)? {
        map::Entry::Occupied(place) => Ok((*place.get(), false)),
        map::Entry::Vacant(place) => {
            slots.reserve(1)?;
            let slot = slots.vacant_key();
            if !fits_link(slot) {
                return Err(Refusal::Memory);
            }
            place.insert(slot);
            Ok((slot, true))
        }
    }
}
