// The walk along a storage's list.
ghost use Rattle.bm_base.specs.Words.{YieldsFirst, item_count};

use crate::arena::BlockEntry;
use crate::links;
use bm_maps::{NO_LINK, SlotLink};
use slab::Slab;
use std::marker::Model;

/// The remaining slots of a storage's list. A contract sees it as the list of those slots. Takes no
/// memory.
#[derive(Drop)]
pub struct Walk<'a> {
    pub(crate) slots: &'a Slab<BlockEntry>,
    pub(crate) storage: u32,
    pub(crate) next: SlotLink,
    // No more slots than these are left.
    pub(crate) left: usize,
}

impl<'a> Model for Walk<'a> {
    ghost use Rattle.std.specs.Prelude.{ℕ, List};

    ghost Value = { List ℕ };

    ghost use Rattle.bm_arena.specs.Triplets.{links_of};
    ghost use Rattle.bm_arena.specs.Lists.{walk};

    ghost view = { λ w. walk (links_of w.slots.now w.storage) w.left w.next };
}

impl<'a> Iterator for Walk<'a> {
    type Item = usize;

    ghost next_gives = { YieldsFirst (λ rest. rest) };

    ghost remaining = { item_count (λ rest. rest) };

    fn next(&mut self) -> Option<usize> {
        let slot = self.next.slot()?;
        if self.left == 0 {
            return None;
        }
        self.left -= 1;
        self.next = match links::find(self.slots, slot, self.storage) {
            Some(triplet) => triplet.next,
            None => NO_LINK,
        };
        Some(slot)
    }
}
