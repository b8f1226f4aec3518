// A set of slots in reverse order of insertion.
ghost use Rattle.std.specs.Prelude.{◌≡◌, ◌≢◌, ℕ, ◌<◌, ◌≤◌, IsTrue, ◌↔◌, [], ◌∷◌, length, Option, Some, IfOk, IfErr, OnOk, OnErr, IsOk};
ghost use Rattle.bm_base.specs.declared.refusal.Refusal.TheVariants.{Memory};
ghost use Rattle.bm_maps.specs.SlotLists.{IsMember, without, first_of, slot_after};
ghost use Rattle.bm_queues.specs.Members.{with_capacity, visited, IsLawful};
ghost use Rattle.bm_queues.specs.Walks.{slots_from, IsOn, IsPast};

use crate::slot_lists::SlotLists;
use crate::walk::Walk;
use bm_base::Refusal;
use std::alloc::Global;
use std::marker::Model;

/// A set of slots below the capacity.
///
/// A contract sees it as `Members`. Only `new` and `grow_to` take memory, eight bytes a slot and
/// four for the head; every other call takes none and succeeds. Each call but `grow_to` is a
/// constant number of steps, and so is each step of a walk.
#[derive(Drop)]
pub struct SlotSet {
    lists: SlotLists,
    count: usize,
}

impl Model for SlotSet {
    ghost use Rattle.std.specs.Prelude.{length};
    ghost use Rattle.bm_queues.specs.Links.{list_from};
    ghost use Rattle.bm_queues.specs.Members.{Members, AreMembers};

    ghost Value = { Members };

    ghost view = { λ a. record {
      slots = list_from a.lists.heads a.lists.next.items a.lists.previous.items 0;
      capacity = length a.lists.previous.items;
    } };

    ghost invariant = { λ a. AreMembers a.lists.heads a.lists.next.items a.lists.previous.items
        a.count };
}

impl SlotSet {
    /// No slot, and no capacity. May answer `Memory`.
    pub fn new(alloc: Global) -> Result<SlotSet, Refusal>
        ensures slots { IfOk result (λ a. a.slots ≡ []) }
        ensures capacity { IfOk result (λ a. a.capacity ≡ 0) }
        ensures refused { IfErr result (λ e. e ≡ Memory) }
    {
        let lists = SlotLists::new(alloc, 1)?;
        Ok(SlotSet { lists, count: 0 })
    }

    /// For proofs alone: the invariant of a set, and that following `next` from the first slot
    /// visits its slots, each once and in order. It does nothing when it runs.
    pub fn show_invariant(&self)
        ensures lawful { IsLawful self.now }
        ensures visited { visited self.now ≡ self.now.slots }
    {
        let _ = &self.lists;
    }

    /// The capacity in slots: the condition of the calls on a slot.
    pub fn capacity(&self) -> usize
        ensures { result ≡ self.now.capacity }
    {
        self.lists.capacity()
    }

    /// Grows the capacity to the slots below `bound`. If it is sufficient already, nothing changes.
    /// May answer `Memory`, also if a link of 32 bits could not name all slots.
    pub fn grow_to(&mut self, bound: usize) -> Result<(), Refusal>
        ensures after { OnOk result (self.new ≡ with_capacity self.old bound) }
        ensures slots { self.new.slots ≡ self.old.slots }
        ensures capacity { OnOk result (bound ≤ self.new.capacity) }
        ensures there { bound ≤ self.old.capacity → IsOk result }
        ensures refused { IfErr result (λ e. e ≡ Memory) }
        ensures unchanged { OnErr result (self.new ≡ self.old) }
    {
        self.lists.grow_to(bound)?;
        Ok(())
    }

    /// Puts a slot at the front; nothing changes if it is in the set already. Takes no memory.
    pub fn insert(&mut self, slot: usize)
        requires { slot < self.old.capacity }
        ensures same { IsMember slot self.old.slots → self.new ≡ self.old }
        ensures after { (IsMember slot self.old.slots → ⊥)
            → self.new ≡ record self.old { slots = slot ∷ self.old.slots } }
        ensures held { IsMember slot self.new.slots }
        ensures others { (other : ℕ) → other ≢ slot
            → (IsMember other self.new.slots ↔ IsMember other self.old.slots) }
        ensures capacity { self.new.capacity ≡ self.old.capacity }
        ensures rest { (at : Option ℕ) → IsPast slot at self.old.slots
            → slots_from self.new.slots at ≡ slots_from self.old.slots at }
        ensures on { (at : Option ℕ) → IsPast slot at self.old.slots → IsOn at self.old.slots
            → IsOn at self.new.slots }
    {
        if self.lists.is_listed(slot) {
            return;
        }
        self.lists.link_front(0, slot);
        self.count += 1;
    }

    /// Removes a slot, if it is in the set. Takes no memory.
    pub fn remove(&mut self, slot: usize)
        requires { slot < self.old.capacity }
        ensures after { self.new ≡ record self.old { slots = without slot self.old.slots } }
        ensures gone { IsMember slot self.new.slots → ⊥ }
        ensures capacity { self.new.capacity ≡ self.old.capacity }
        ensures others { (other : ℕ) → other ≢ slot
            → (IsMember other self.new.slots ↔ IsMember other self.old.slots) }
        ensures rest { (at : Option ℕ) → IsPast slot at self.old.slots
            → slots_from self.new.slots at ≡ slots_from self.old.slots at }
        ensures on { (at : Option ℕ) → IsPast slot at self.old.slots → IsOn at self.old.slots
            → IsOn at self.new.slots }
    {
        if self.lists.is_listed(slot) {
            self.lists.unlink(slot);
            self.count -= 1;
        }
    }

    /// Whether a slot is in the set.
    pub fn contains(&self, slot: usize) -> bool
        requires { slot < self.now.capacity }
        ensures { IsTrue result ↔ IsMember slot self.now.slots }
    {
        self.lists.is_listed(slot)
    }

    /// The number of slots in the set.
    pub fn len(&self) -> usize
        ensures count { result ≡ length self.now.slots }
        ensures few { result ≤ self.now.capacity }
    {
        self.count
    }

    /// The slot at the front; none if the set is empty. An iteration from there on visits all
    /// slots.
    pub fn first(&self) -> Option<usize>
        ensures slot { result ≡ first_of self.now.slots }
        ensures on { IsOn result self.now.slots }
        ensures rest { slots_from self.now.slots result ≡ self.now.slots }
    {
        self.lists.first(0)
    }

    /// The next slot after a slot; none after the last one, and if the slot is not in the set. A
    /// caller that iterates may remove the slot that it has passed, or insert it again: the
    /// remaining slots stay the same.
    pub fn next(&self, slot: usize) -> Option<usize>
        requires { slot < self.now.capacity }
        ensures slot { result ≡ slot_after slot self.now.slots }
        ensures on { IsOn result self.now.slots }
        ensures rest { IsMember slot self.now.slots
            → slots_from self.now.slots (Some slot) ≡ slot ∷ slots_from self.now.slots result }
        ensures past { IsPast slot result self.now.slots }
    {
        self.lists.next(slot)
    }

    /// The slots from the front on. Takes no memory.
    pub fn walk(&self) -> Walk<'_>
        ensures { result ≡ self.now.slots }
    {
        self.lists.walk(0)
    }
}
