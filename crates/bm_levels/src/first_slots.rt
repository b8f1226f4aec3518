// The first slots in the list of a storage.
ghost use Rattle.std.specs.Prelude.{◌≡◌, ◌<◌, ◌≤◌, ◌+◌, ◌++◌, [], length};
ghost use Rattle.bm_arena.specs.Contents.{list_of};
ghost use Rattle.bm_levels.specs.LeavingReplicas.{HasFirstSlots};

use crate::classified_chunks::CHUNK;
use bm_arena::{Arena, Slot, Walk};
use bm_base::StorageId;
use std::marker::Model;

/// Up to `CHUNK` slots of a list, in order.
#[derive(Drop)]
pub(crate) struct FirstSlots {
    slots: [Slot; CHUNK],
    count: usize,
}

impl Model for FirstSlots {
    ghost use Rattle.std.specs.Prelude.{◌≤◌, ℕ, List, take};

    ghost Value = { List ℕ };

    ghost view = { λ f. take f.count f.slots };

    ghost invariant = { λ f. f.count ≤ 64 };
}

impl FirstSlots {
    pub(crate) fn none() -> FirstSlots
        ensures { result ≡ [] }
    {
        FirstSlots {
            slots: [0; CHUNK],
            count: 0,
        }
    }

    /// The first slots in the list of a storage.
    pub(crate) fn of(arena: &Arena, storage: StorageId) -> FirstSlots
        ensures first { HasFirstSlots arena.now storage result }
        ensures some { 0 < length (list_of arena.now storage) → 0 < length result }
    {
        let mut walk = arena.walk(storage);
        let mut first = FirstSlots::none();
        for _index in 0..CHUNK {
            first.push_next(&mut walk);
        }
        first
    }

    /// Steps along a list, and adds the next slot; does nothing at the end.
    pub(crate) fn push_next(&mut self, walk: &mut Walk<'_>)
        requires { length self.old < 64 }
        ensures whole { self.new ++ walk.new ≡ self.old ++ walk.old }
        ensures few { length self.new ≤ length self.old + 1 }
        ensures some { 0 < length walk.old → 0 < length self.new }
        ensures more { length self.old ≤ length self.new }
    {
        if let Some(slot) = walk.next() {
            self.slots[self.count] = slot;
            self.count += 1;
        }
    }

    pub(crate) fn as_slice(&self) -> &[Slot]
        ensures { result.now ≡ self.now }
    {
        &self.slots[..self.count]
    }

    pub(crate) fn len(&self) -> usize
        ensures length { result ≡ length self.now }
        ensures few { result ≤ 64 }
    {
        self.count
    }
}
