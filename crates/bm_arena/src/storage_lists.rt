// The lists of storages and their heads: one doubly linked list of slots for each storage that has
// a head, through the triplets of the blocks.
ghost use Rattle.std.specs.Prelude.{nat_eq, ◌≡◌, ◌≢◌, ℕ, None, Some, IsSome, [], ◌∷◌, IfErr, OnOk, IsOk, slice_get, IfSome, Option, unwrap_or, option_map, slice_index, EachIndex};
ghost use Rattle.bm_base.specs.Words.{insert, remove, replica_at, lookup, keys_of, IsDistinct};
ghost use Rattle.bm_base.specs.declared.refusal.Refusal.TheVariants.{Memory};
ghost use Rattle.indexmap.specs.IndexMap.{swap_remove_entry};
ghost use Rattle.bm_maps.specs.SlotLists.{slot_after, without};
ghost use Rattle.bm_arena.specs.Contents.{IsReserved, no_marks, list_of, slot_before, HasHead, HasCapacity, marks_at, linked_front, unlinked, moved_front, KeepsOthers, IsLawful, slot_of};
ghost use Rattle.bm_arena.specs.HeldMaps.{replicas_of, blocks_of};
ghost use Rattle.std.specs.Map.{set_value};

use crate::arena::{Arena, NO_MARKS, Slot, Triplet, saturating_next};
use crate::links;
use crate::walk::Walk;
use bm_base::{HashSecret, Marks, Refusal, StorageId};
use bm_maps::{NO_LINK, SlotLink};
use indexmap::IndexMap;

impl Arena {
    /// Makes a head for each of the storages, so that linking a block with capacity, and putting
    /// the delimiter, take no memory. A storage that has a head keeps it and its list; no other
    /// storage gets one, also if the call is refused. If all have heads nothing is done. `Memory`:
    /// then some of the storages may have got a head.
    pub fn reserve_heads(&mut self, storages: &[StorageId]) -> Result<(), Refusal>
        ensures heads { OnOk result (EachIndex storages.now
            (λ k. HasHead self.new (slice_index storages.now k))) }
        ensures named { (other : ℕ)
            → EachIndex storages.now (λ k. other ≢ slice_index storages.now k)
            → HasHead self.new other → HasHead self.old other }
        ensures had { EachIndex storages.now (λ k. HasHead self.old (slice_index storages.now k))
            → IsOk result × (self.new ≡ self.old) }
        ensures kept { IsReserved self.old self.new }
        ensures refused { IfErr result (λ e. e ≡ Memory) }
        ensures lawful { IsLawful self.new }
    {
        self.show_invariant();
        for storage in storages {
            self.reserve_head(*storage)?;
        }
        Ok(())
    }

    // The delimiter gets capacity for one more triplet with each head.
    fn reserve_head(&mut self, storage: StorageId) -> Result<(), Refusal>
        ensures head { OnOk result (HasHead self.new storage) }
        ensures named { (other : ℕ) → other ≢ storage → HasHead self.new other
            → HasHead self.old other }
        ensures had { HasHead self.old storage → IsOk result × (self.new ≡ self.old) }
        ensures kept { IsReserved self.old self.new }
        ensures refused { IfErr result (λ e. e ≡ Memory) }
        ensures lawful { IsLawful self.new }
    {
        if self.heads.contains_key(&storage.0) {
            return Ok(());
        }
        let capacity = self.heads.len() + 1;
        links::reserve_triplets(&mut self.slots, self.delimiter, capacity)?;
        self.heads.insert(storage.0, NO_LINK)?;
        Ok(())
    }

    /// Drops the head of a storage whose list is empty, or that has none. Takes no memory.
    pub fn drop_head(&mut self, storage: StorageId)
        requires { list_of self.old storage ≡ [] }
        ensures after { self.new
            ≡ record self.old { lists = swap_remove_entry (nat_eq storage) self.old.lists } }
        ensures lists { (other : ℕ) → list_of self.new other ≡ list_of self.old other }
        ensures heads { (other : ℕ) → other ≢ storage → HasHead self.old other
            → HasHead self.new other }
        ensures gone { HasHead self.new storage → ⊥ }
        ensures fewer { (other : ℕ) → HasHead self.new other → HasHead self.old other }
        ensures lawful { IsLawful self.new }
    {
        self.heads.swap_remove(&storage.0);
    }

    /// Adds a replica of the block in `slot` on `storage`, and links the slot at the head of the
    /// storage's list. Takes no memory.
    pub fn link_front(&mut self, slot: Slot, storage: StorageId, marks: Marks)
        requires head { HasHead self.old storage }
        requires capacity { HasCapacity self.old slot }
        requires absent { marks_at self.old slot storage ≡ None }
        ensures after { self.new ≡ linked_front self.old slot storage marks }
        ensures list { list_of self.new storage ≡ slot ∷ list_of self.old storage }
        ensures marks { marks_at self.new slot storage ≡ Some marks }
        ensures others { KeepsOthers self.old self.new slot storage }
        ensures replicas { (id : ℕ) → slot_of self.old id ≡ Some slot
            → replicas_of self.new ≡ insert (replicas_of self.old) (replica_at id storage) marks }
        ensures known { blocks_of self.new ≡ blocks_of self.old }
        ensures lawful { IsLawful self.new }
    {
        if let Some(head) = find_head(&self.heads, storage.0, self.last_head) {
            let mut first = head.first;
            let triplet = Triplet {
                storage: storage.0,
                previous: NO_LINK,
                next: head.first,
                marks,
            };
            links::add_triplet(&mut self.slots, slot, triplet);
            links::attach(&mut self.slots, &mut first, slot, storage.0);
            set_head(&mut self.heads, head.index, first);
            self.last_head = head.index;
            self.steps = saturating_next(self.steps);
        }
    }

    /// Removes the block in `slot` from a storage's list, and that replica: the block's last
    /// replica takes its index. Takes no memory.
    pub fn unlink(&mut self, slot: Slot, storage: StorageId)
        requires { IsSome (marks_at self.old slot storage) }
        ensures after { self.new ≡ unlinked self.old slot storage }
        ensures list { list_of self.new storage ≡ without slot (list_of self.old storage) }
        ensures marks { marks_at self.new slot storage ≡ None }
        ensures others { KeepsOthers self.old self.new slot storage }
        ensures replicas { (id : ℕ) → slot_of self.old id ≡ Some slot
            → replicas_of self.new ≡ remove (replicas_of self.old) (replica_at id storage) }
        ensures known { blocks_of self.new ≡ blocks_of self.old }
        ensures lawful { IsLawful self.new }
    {
        if let Some(head) = find_head(&self.heads, storage.0, self.last_head) {
            let mut first = head.first;
            if let Some(triplet) = links::remove_triplet(&mut self.slots, slot, storage.0) {
                links::detach(&mut self.slots, &mut first, triplet, storage.0);
                set_head(&mut self.heads, head.index, first);
                self.last_head = head.index;
                self.steps = saturating_next(self.steps);
            }
        }
    }

    /// Moves the block in `slot`, which has a replica on the storage, to the head of the storage's
    /// list. Takes no memory.
    pub fn move_front(&mut self, slot: Slot, storage: StorageId)
        requires { IsSome (marks_at self.old slot storage) }
        ensures after { self.new ≡ moved_front self.old slot storage }
        ensures list { list_of self.new storage ≡ slot ∷ without slot (list_of self.old storage) }
        ensures blocks { self.new.blocks ≡ self.old.blocks }
        ensures others { KeepsOthers self.old self.new slot storage }
        ensures replicas { replicas_of self.new ≡ replicas_of self.old }
        ensures known { blocks_of self.new ≡ blocks_of self.old }
        ensures lawful { IsLawful self.new }
    {
        if let Some(head) = find_head(&self.heads, storage.0, self.last_head) {
            let mut first = head.first;
            if let Some(triplet) = links::put_first(&mut self.slots, slot, storage.0, head.first) {
                links::detach(&mut self.slots, &mut first, triplet, storage.0);
                links::attach(&mut self.slots, &mut first, slot, storage.0);
                set_head(&mut self.heads, head.index, first);
                self.last_head = head.index;
                self.steps = saturating_next(self.steps);
            }
        }
    }

    /// Puts the delimiter at the head of a storage's list, which does not have it yet. Takes no
    /// memory.
    pub fn put_delimiter(&mut self, storage: StorageId)
        requires head { HasHead self.old storage }
        requires absent { marks_at self.old self.old.delimiter storage ≡ None }
        ensures after { self.new ≡ linked_front self.old self.old.delimiter storage no_marks }
        ensures list { list_of self.new storage ≡ self.old.delimiter ∷ list_of self.old storage }
        ensures marks { IsSome (marks_at self.new self.old.delimiter storage) }
        ensures others { KeepsOthers self.old self.new self.old.delimiter storage }
        ensures lawful { IsLawful self.new }
    {
        let slot = self.delimiter;
        self.link_front(slot, storage, NO_MARKS);
    }

    /// Removes the delimiter from a storage's list, which has it. Takes no memory.
    pub fn take_delimiter(&mut self, storage: StorageId)
        requires { IsSome (marks_at self.old self.old.delimiter storage) }
        ensures after { self.new ≡ unlinked self.old self.old.delimiter storage }
        ensures list { list_of self.new storage
            ≡ without self.old.delimiter (list_of self.old storage) }
        ensures marks { marks_at self.new self.old.delimiter storage ≡ None }
        ensures others { KeepsOthers self.old self.new self.old.delimiter storage }
        ensures lawful { IsLawful self.new }
    {
        let slot = self.delimiter;
        self.unlink(slot, storage);
    }

    /// The slot after `slot` in a storage's list, or after the delimiter if `slot` is None; None
    /// after the last one. The slot, or the delimiter, is in the list. Takes no memory.
    pub fn next_after(&self, storage: StorageId, slot: Option<Slot>) -> Option<Slot>
        requires { IsSome (marks_at self.now (unwrap_or slot self.now.delimiter) storage) }
        ensures { result ≡ slot_after (unwrap_or slot self.now.delimiter)
            (list_of self.now storage) }
    {
        let slot = slot.unwrap_or(self.delimiter);
        match links::find(&self.slots, slot, storage.0) {
            Some(triplet) => triplet.next.slot(),
            None => None,
        }
    }

    /// The slot before `slot` in a storage's list that has it; None before the first one. So the
    /// links back are the reverse of those along the list. Takes no memory.
    pub fn previous_before(&self, storage: StorageId, slot: Slot) -> Option<Slot>
        requires { IsSome (marks_at self.now slot storage) }
        ensures { result ≡ slot_before slot (list_of self.now storage) }
    {
        match links::find(&self.slots, slot, storage.0) {
            Some(triplet) => triplet.previous.slot(),
            None => None,
        }
    }

    /// The slots of a storage's list, from its head on; none without a head. Between
    /// `put_delimiter` and `take_delimiter` the delimiter's slot is among them. Takes no memory.
    pub fn walk(&self, storage: StorageId) -> Walk<'_>
        ensures { result ≡ list_of self.now storage }
    {
        let first = match self.heads.get(&storage.0) {
            Some(first) => *first,
            None => NO_LINK,
        };
        Walk {
            slots: &self.slots,
            storage: storage.0,
            next: first,
            left: self.slots.capacity(),
        }
    }
}

// The head of a storage's list: the first slot, and the index of the head.
#[derive(Clone, Copy)]
struct Head {
    index: usize,
    first: SlotLink,
}

// The head of a storage's list. The key at index `hint` is compared first: if it is the storage's,
// nothing is hashed.
#[inline]
fn find_head(heads: &IndexMap<u32, SlotLink, HashSecret>, storage: u32, hint: usize) -> Option<Head>
    ensures first { option_map (λ h. h.first) result ≡ lookup (nat_eq storage) heads.now.entries }
    ensures index { IfSome result (λ h. slice_get heads.now.entries h.index ≡ Some (storage, h.first)) }
{
    if let Some((key, first)) = heads.get_index(hint) {
        if *key == storage {
            return Some(Head {
                index: hint,
                first: *first,
            });
        }
    }
    match heads.get_full(&storage) {
        Some((index, _, first)) => Some(Head {
            index,
            first: *first,
        }),
        None => None,
    }
}

// Sets the first slot of the list whose head is at an index.
#[inline]
fn set_head(heads: &mut IndexMap<u32, SlotLink, HashSecret>, index: usize, first: SlotLink)
    ensures entries { (storage : ℕ) (old : Option ℕ)
        → slice_get heads.old.entries index ≡ Some (storage, old)
        → heads.new.entries ≡ set_value (nat_eq storage) heads.old.entries first }
    ensures unique { IsDistinct nat_eq (keys_of heads.new.entries) }
{
    if let Some(head) = heads.get_index_mut(index) {
        *head = first;
    }
}
