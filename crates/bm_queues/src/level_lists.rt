// Five lists of slots, one for each level.
ghost use Rattle.std.specs.Prelude.{◌≡◌, ◌≢◌, ◌<◌, ◌≤◌, ◌==◌, ◌↔◌, ℕ, [], ◌∷◌, length, if◌then◌else◌, Option, Some, None, IfOk, IfErr, OnOk, OnErr, IsOk, reverse};
ghost use Rattle.bm_base.specs.Words.{IsPermutation};
ghost use Rattle.bm_base.specs.declared.refusal.Refusal.TheVariants.{Memory};
ghost use Rattle.bm_base.specs.declared.replica.Level.{Level};
ghost use Rattle.bm_maps.specs.SlotLists.{IsMember, Distinct, first_of};
ghost use Rattle.bm_queues.specs.Levels.{level_at, slots_of, next_of, with_capacity, visited, IsLawful};
ghost use Rattle.bm_queues.specs.Walks.{slots_from, IsOn, IsPast, GoesOn};

use crate::arrays::{new_arrays, reserve_each};
use crate::level_byte::{LevelByte, no_level};
use bm_base::{Level, Refusal};
use bm_maps::fits_link;
use std::alloc::Global;
use std::marker::Model;

/// The level of a slot, or none, and its index in the array of that level; any number if it has
/// none.
#[derive(Clone, Copy)]
pub(crate) struct Cell {
    level: LevelByte,
    index: u32,
}

/// For each slot below the capacity a level or none, and for each level the list of its slots.
///
/// A contract sees it as `Levels`. The list of a level is an array, and the end of the array is the
/// front of the list. So a change of level writes to the cells of two slots and to two arrays. Only
/// `new` and `grow_to` take memory, 28 bytes a slot: 8 for its cell, and 4 in the array of each
/// level. Every other call takes none and succeeds. Each call but `grow_to` is a constant number of
/// steps.
#[derive(Drop)]
pub struct LevelLists {
    cells: Vec<Cell>,
    // By number of level, each with capacity for all slots.
    arrays: Vec<Vec<u32>>,
}

impl Model for LevelLists {
    ghost use Rattle.std.specs.Prelude.{length};
    ghost use Rattle.bm_queues.specs.Levels.{Levels};
    ghost use Rattle.bm_queues.specs.DenseLevels.{levels_in, indices_in, arrays_in, seen, AreDense, HaveCapacity};

    ghost Value = { Levels };

    ghost view = { λ a. seen (levels_in a.cells.items) (arrays_in a.arrays.items) };

    ghost invariant = { λ a. AreDense (levels_in a.cells.items) (indices_in a.cells.items)
        (arrays_in a.arrays.items)
        × HaveCapacity a.arrays.items (length (levels_in a.cells.items)) };
}

impl LevelLists {
    /// Capacity for no slot, and five empty lists. May answer `Memory`.
    pub fn new(alloc: Global) -> Result<LevelLists, Refusal>
        ensures levels { IfOk result (λ a. a.levels ≡ []) }
        ensures lists { IfOk result (λ a. a.lists ≡ [] ∷ [] ∷ [] ∷ [] ∷ [] ∷ []) }
        ensures refused { IfErr result (λ e. e ≡ Memory) }
    {
        let arrays = new_arrays(alloc)?;
        Ok(LevelLists {
            cells: Vec::new(alloc),
            arrays,
        })
    }

    /// For proofs alone: the invariant of level lists, and the content of `slots`. Following `next`
    /// from the first slot of a level gives its slots, each once and in order. It does nothing when
    /// it runs.
    pub fn show_invariant(&self)
        ensures lawful { IsLawful self.now }
        ensures exact { (l : Level) (slot : ℕ)
            → IsMember slot (reverse (slots_of self.now l)) ↔ (level_at self.now slot ≡ Some l) }
        ensures once { (l : Level) → Distinct (reverse (slots_of self.now l)) }
        ensures visited { (l : Level) → visited self.now l ≡ slots_of self.now l }
    {
        let _ = &self.cells;
    }

    /// The capacity in slots: the condition of the calls on a slot.
    pub fn capacity(&self) -> usize
        ensures { result ≡ length self.now.levels }
    {
        self.cells.len()
    }

    /// Grows the capacity to the slots below `bound`; new slots have no level. If the capacity is
    /// sufficient already, nothing changes. May answer `Memory`, also if 32 bits could not name all
    /// slots; capacity that the arrays gained is kept then.
    pub fn grow_to(&mut self, bound: usize) -> Result<(), Refusal>
        ensures after { OnOk result (self.new ≡ with_capacity self.old bound) }
        ensures capacity { OnOk result (bound ≤ length self.new.levels) }
        ensures levels { (slot : ℕ) → level_at self.new slot ≡ level_at self.old slot }
        ensures lists { self.new.lists ≡ self.old.lists }
        ensures there { bound ≤ length self.old.levels → IsOk result }
        ensures refused { IfErr result (λ e. e ≡ Memory) }
        ensures unchanged { OnErr result (self.new ≡ self.old) }
        ensures lawful { IsLawful self.new }
    {
        if bound <= self.cells.len() {
            return Ok(());
        }
        if !fits_link(bound) {
            return Err(Refusal::Memory);
        }
        reserve_each(&mut self.arrays, bound)?;
        let empty = Cell {
            level: no_level(),
            index: 0,
        };
        self.cells.resize(bound, empty)?;
        Ok(())
    }

    /// Gives a slot a level, or none. The first slot of its old list takes its index there, and the
    /// slot becomes the first of its new level. If it has the level already, nothing changes. Takes
    /// no memory.
    pub fn set(&mut self, slot: usize, level: Option<Level>)
        requires { slot < length self.old.levels }
        ensures same { level_at self.old slot ≡ level → self.new ≡ self.old }
        ensures front { (l : Level) → level ≡ Some l → level_at self.old slot ≢ level
            → slots_of self.new l ≡ slot ∷ slots_of self.old l }
        ensures left { (l : Level) → level_at self.old slot ≡ Some l → level ≢ Some l
            → IsPermutation (slots_of self.old l) (slot ∷ slots_of self.new l) }
        ensures capacity { length self.new.levels ≡ length self.old.levels }
        ensures levels { (other : ℕ)
            → level_at self.new other ≡ (if other == slot then level else level_at self.old other) }
        ensures others { (l : Level) → Some l ≢ level → Some l ≢ level_at self.old slot
            → slots_of self.new l ≡ slots_of self.old l }
        ensures rest { (l : Level) (at : Option ℕ) → IsPast slot at (slots_of self.old l)
            → slots_from (slots_of self.new l) at ≡ slots_from (slots_of self.old l) at }
        ensures on { (l : Level) (at : Option ℕ) → IsPast slot at (slots_of self.old l)
            → IsOn at (slots_of self.old l) → IsOn at (slots_of self.new l) }
        ensures lawful { IsLawful self.new }
    {
        if self.cells[slot].level.is(LevelByte::of(level)) {
            return;
        }
        self.leave(slot);
        if let Some(wanted) = level {
            self.enter(slot, wanted);
        }
    }

    /// Removes a slot from its list, if it is in one: it has no level then.
    fn leave(&mut self, slot: usize)
        requires { slot < length self.old.levels }
        ensures left { (l : Level) → level_at self.old slot ≡ Some l
            → IsPermutation (slots_of self.old l) (slot ∷ slots_of self.new l) }
        ensures capacity { length self.new.levels ≡ length self.old.levels }
        ensures levels { (other : ℕ)
            → level_at self.new other ≡ (if other == slot then None else level_at self.old other) }
        ensures others { (l : Level) → Some l ≢ level_at self.old slot
            → slots_of self.new l ≡ slots_of self.old l }
        ensures rest { (l : Level) (at : Option ℕ) → IsPast slot at (slots_of self.old l)
            → slots_from (slots_of self.new l) at ≡ slots_from (slots_of self.old l) at }
        ensures on { (l : Level) (at : Option ℕ) → IsPast slot at (slots_of self.old l)
            → IsOn at (slots_of self.old l) → IsOn at (slots_of self.new l) }
        ensures lawful { IsLawful self.new }
    {
        let cell = self.cells[slot];
        if let Some(level) = cell.level.get() {
            let array = &mut self.arrays[level.number() as usize];
            let last = array[array.len() - 1];
            self.cells[last as usize].index = cell.index;
            self.cells[slot].level = no_level();
            array.swap_remove(cell.index as usize);
        }
    }

    /// Puts a slot that has no level at the front of a level's list.
    fn enter(&mut self, slot: usize, level: Level)
        requires inside { slot < length self.old.levels }
        requires absent { level_at self.old slot ≡ None }
        ensures front { slots_of self.new level ≡ slot ∷ slots_of self.old level }
        ensures capacity { length self.new.levels ≡ length self.old.levels }
        ensures levels { (other : ℕ)
            → level_at self.new other ≡ (if other == slot then Some level else level_at self.old other) }
        ensures others { (l : Level) → l ≢ level → slots_of self.new l ≡ slots_of self.old l }
        ensures lawful { IsLawful self.new }
    {
        let array = &mut self.arrays[level.number() as usize];
        self.cells[slot] = Cell {
            level: LevelByte::of(Some(level)),
            index: array.len() as u32,
        };
        array.push_reserved(slot as u32);
    }

    /// The level of a slot.
    pub fn level(&self, slot: usize) -> Option<Level>
        requires { slot < length self.now.levels }
        ensures { result ≡ level_at self.now slot }
    {
        self.cells[slot].level.get()
    }

    /// The slots of a level, from the back of its list to the front. Takes no memory.
    pub fn slots(&self, level: Level) -> &[u32]
        ensures slots { result.now ≡ reverse (slots_of self.now level) }
        ensures exact { (slot : ℕ) → IsMember slot result.now ↔ (level_at self.now slot ≡ Some level) }
        ensures once { Distinct result.now }
        ensures few { length result.now ≤ length self.now.levels }
    {
        self.arrays[level.number() as usize].as_slice()
    }

    /// The first slot of a level; none if its list is empty. An iteration over the level begins
    /// with it.
    pub fn first(&self, level: Level) -> Option<usize>
        ensures slot { result ≡ first_of (slots_of self.now level) }
        ensures on { IsOn result (slots_of self.now level) }
        ensures rest { slots_from (slots_of self.now level) result ≡ slots_of self.now level }
    {
        let first = self.slots(level).last()?;
        Some(*first as usize)
    }

    /// The next slot in the list of a slot's level; none after the last one, and if the slot has no
    /// level. A caller that iterates may change the level of the slot that it has passed: the
    /// remaining slots stay the same.
    pub fn next(&self, slot: usize) -> Option<usize>
        requires { slot < length self.now.levels }
        ensures slot { result ≡ next_of self.now slot }
        ensures goes_on { (l : Level) → level_at self.now slot ≡ Some l
            → GoesOn slot result (slots_of self.now l) }
    {
        let cell = self.cells[slot];
        let level = cell.level.get()?;
        if cell.index == 0 {
            return None;
        }
        let array = self.slots(level);
        Some(array[cell.index as usize - 1] as usize)
    }
}
