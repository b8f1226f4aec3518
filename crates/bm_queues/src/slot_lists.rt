// Doubly linked lists over slots, one for each head: `SlotSet` is built on one.
ghost use Rattle.std.specs.Prelude.{◌≡◌, ◌<◌, ◌≤◌, ℕ, ◌∷◌, ◌==◌, ◌+◌, ◌↔◌, if◌then◌else◌, length, nat_lt, IfOk, OnOk, OnErr, IsOk, IsTrue, Some, None};
ghost use Rattle.bm_maps.specs.SlotLinks.{end_of_links};
ghost use Rattle.bm_maps.specs.SlotLists.{IsMember, without, first_of, slot_after};
ghost use Rattle.bm_queues.specs.Links.{back_set};
ghost use Rattle.bm_queues.specs.LinkedLists.{capacity_of, list_of, AreLinked};

use crate::walk::Walk;
use bm_maps::{END_OF_LINKS, NO_LINK, SlotLink};
use std::alloc::{AllocError, Global};

/// Lists of slots. Each slot below the capacity is in one list or in none; each operation on one
/// slot is a constant number of steps.
///
/// A cell is a head or a slot: slot `x` is the cell number `x` after the heads. So the first slot
/// of a list and any other one are linked and unlinked alike. It takes eight bytes a slot.
#[derive(Drop)]
pub(crate) struct SlotLists {
    pub(crate) heads: usize,
    // The slot after each cell.
    pub(crate) next: Vec<SlotLink>,
    // The cell before each slot; none if the slot is in no list.
    pub(crate) previous: Vec<SlotLink>,
}

// Sets the back link of a slot, if there is one.
fn set_previous(previous: &mut Vec<SlotLink>, at: SlotLink, to: SlotLink)
    requires { (x : ℕ) → at ≡ Some x → x < length previous.old.items }
    ensures { previous.new.items ≡ back_set previous.old.items at to }
{
    if let Some(slot) = at.slot() {
        previous[slot] = to;
    }
}

// Whether links can name all cells of this many heads and slots. If not, the call is out of memory
// without a refused growth.
fn fits_links(heads: usize, bound: usize) -> bool
    requires { heads ≤ end_of_links }
    ensures { IsTrue result ↔ (heads + bound ≤ end_of_links) }
{
    bound <= END_OF_LINKS as usize - heads
}

impl SlotLists {
    /// Empty lists, and capacity for no slot.
    pub(crate) fn new(alloc: Global, heads: usize) -> Result<SlotLists, AllocError>
        requires { heads < end_of_links }
        ensures heads { IfOk result (λ q. q.heads ≡ heads) }
        ensures capacity { IfOk result (λ q. capacity_of q ≡ 0) }
        ensures lawful { IfOk result (λ q. AreLinked q) }
    {
        let mut next = Vec::new(alloc);
        next.resize(heads, NO_LINK)?;
        Ok(SlotLists {
            heads,
            next,
            previous: Vec::new(alloc),
        })
    }

    /// The capacity in slots.
    pub(crate) fn capacity(&self) -> usize
        ensures { result ≡ capacity_of self.now }
    {
        self.previous.len()
    }

    /// Grows the capacity to the slots below `bound`.
    pub(crate) fn grow_to(&mut self, bound: usize) -> Result<(), AllocError>
        requires lawful { AreLinked self.old }
        ensures heads { self.new.heads ≡ self.old.heads }
        ensures capacity { OnOk result (capacity_of self.new
            ≡ (if nat_lt (capacity_of self.old) bound then bound else capacity_of self.old)) }
        ensures enough { OnOk result (bound ≤ capacity_of self.new) }
        ensures kept { capacity_of self.old ≤ capacity_of self.new }
        ensures refused { OnErr result (capacity_of self.new ≡ capacity_of self.old) }
        ensures succeeds { bound ≤ capacity_of self.old → IsOk result }
        ensures lists { (l : ℕ) → l < self.old.heads → list_of self.new l ≡ list_of self.old l }
        ensures lawful { AreLinked self.new }
    {
        if bound <= self.previous.len() {
            return Ok(());
        }
        if !fits_links(self.heads, bound) {
            return Err(AllocError);
        }
        self.next.resize(self.heads + bound, NO_LINK)?;
        self.previous.resize(bound, NO_LINK)
    }

    /// Removes a slot from its list, if it is in one.
    pub(crate) fn unlink(&mut self, slot: usize)
        requires lawful { AreLinked self.old }
        requires slot { slot < capacity_of self.old }
        ensures heads { self.new.heads ≡ self.old.heads }
        ensures capacity { capacity_of self.new ≡ capacity_of self.old }
        ensures lists { (l : ℕ) → l < self.old.heads
            → list_of self.new l ≡ without slot (list_of self.old l) }
        ensures lawful { AreLinked self.new }
    {
        if let Some(before) = self.previous[slot].slot() {
            let cell = self.heads + slot;
            let behind = self.next[cell];
            set_previous(&mut self.previous, behind, SlotLink::to(before));
            self.next[before] = behind;
            self.next[cell] = NO_LINK;
            self.previous[slot] = NO_LINK;
        }
    }

    /// Puts a slot, which is in no list, at the front of a list.
    pub(crate) fn link_front(&mut self, list: usize, slot: usize)
        requires lawful { AreLinked self.old }
        requires list { list < self.old.heads }
        requires slot { slot < capacity_of self.old }
        requires absent { (l : ℕ) → l < self.old.heads → IsMember slot (list_of self.old l) → ⊥ }
        ensures heads { self.new.heads ≡ self.old.heads }
        ensures capacity { capacity_of self.new ≡ capacity_of self.old }
        ensures lists { (l : ℕ) → l < self.old.heads
            → list_of self.new l ≡ (if l == list then slot ∷ list_of self.old l
            else list_of self.old l) }
        ensures lawful { AreLinked self.new }
    {
        let cell = self.heads + slot;
        let first = self.next[list];
        set_previous(&mut self.previous, first, SlotLink::to(cell));
        self.next[cell] = first;
        self.next[list] = SlotLink::to(slot);
        self.previous[slot] = SlotLink::to(list);
    }

    /// The first slot of a list.
    pub(crate) fn first(&self, list: usize) -> Option<usize>
        requires lawful { AreLinked self.now }
        requires list { list < self.now.heads }
        ensures { result ≡ first_of (list_of self.now list) }
    {
        self.next[list].slot()
    }

    /// The next slot in a slot's list; none after the last one, and if the slot is in no list.
    pub(crate) fn next(&self, slot: usize) -> Option<usize>
        requires lawful { AreLinked self.now }
        requires slot { slot < capacity_of self.now }
        ensures listed { (l : ℕ) → l < self.now.heads → IsMember slot (list_of self.now l)
            → result ≡ slot_after slot (list_of self.now l) }
        ensures absent { ((l : ℕ) → l < self.now.heads → IsMember slot (list_of self.now l) → ⊥)
            → result ≡ None }
    {
        self.next[self.heads + slot].slot()
    }

    /// Whether a slot is in a list.
    pub(crate) fn is_listed(&self, slot: usize) -> bool
        requires lawful { AreLinked self.now }
        requires slot { slot < capacity_of self.now }
        ensures listed { IsTrue result
            → (l : ℕ) × (l < self.now.heads) × IsMember slot (list_of self.now l) }
        ensures found { (l : ℕ) → l < self.now.heads → IsMember slot (list_of self.now l)
            → IsTrue result }
    {
        self.previous[slot].slot().is_some()
    }

    /// The slots of a list, from the front on.
    pub(crate) fn walk(&self, list: usize) -> Walk<'_>
        requires lawful { AreLinked self.now }
        requires list { list < self.now.heads }
        ensures { result ≡ list_of self.now list }
    {
        Walk {
            links: &self.next[self.heads..],
            next: self.next[list],
            left: self.previous.len(),
        }
    }
}
