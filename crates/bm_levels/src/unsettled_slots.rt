// The unsettled slots: those that a round has to scan for marks and deletes.
ghost use Rattle.std.specs.Prelude.{◌≡◌, ◌∷◌, length, Some};
ghost use Rattle.bm_base.specs.Words.{has};
ghost use Rattle.bm_maps.specs.SlotLists.{Distinct};
ghost use Rattle.bm_queues.specs.Walks.{slots_from, IsOn, IsPast};
ghost use Rattle.bm_levels.specs.IndexedLevels.{IsUnsettled};

use crate::level_index::LevelIndex;
use bm_arena::Slot;
use bm_queues::Walk;

impl LevelIndex {
    /// How many slots are unsettled.
    pub fn unsettled_count(&self) -> usize
        ensures { result ≡ length self.now.unsettled.slots }
    {
        self.unsettled.len()
    }

    /// The first unsettled slot, at which an iteration over all of them begins.
    pub(crate) fn first_unsettled(&self) -> Option<Slot>
        ensures on { IsOn result self.now.unsettled.slots }
        ensures rest { slots_from self.now.unsettled.slots result ≡ self.now.unsettled.slots }
    {
        self.unsettled.first()
    }

    /// The next unsettled slot. `slot` may then be removed or inserted again without a change to
    /// the rest of the iteration.
    pub(crate) fn next_unsettled(&self, slot: Slot) -> Option<Slot>
        requires { IsUnsettled self.now slot }
        ensures on { IsOn result self.now.unsettled.slots }
        ensures rest { slots_from self.now.unsettled.slots (Some slot)
            ≡ slot ∷ slots_from self.now.unsettled.slots result }
        ensures past { IsPast slot result self.now.unsettled.slots }
    {
        self.unsettled.show_invariant();
        self.unsettled.next(slot)
    }

    /// Whether a slot is unsettled: a round has to scan it for marks and deletes.
    pub fn is_unsettled(&self, slot: Slot) -> bool
        ensures { result ≡ has self.now.unsettled.slots slot }
    {
        self.unsettled.show_invariant();
        slot < self.unsettled.capacity() && self.unsettled.contains(slot)
    }

    /// The unsettled slots, in any order.
    pub fn unsettled_slots(&self) -> Walk<'_>
        ensures slots { result ≡ self.now.unsettled.slots }
        ensures once { Distinct result }
    {
        self.unsettled.show_invariant();
        self.unsettled.walk()
    }
}
