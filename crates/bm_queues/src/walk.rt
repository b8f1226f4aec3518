// An iterator along a list.
ghost use Rattle.std.specs.Prelude.{◌≡◌};
ghost use Rattle.bm_base.specs.Words.{YieldsFirst, item_count};
ghost use Rattle.bm_queues.specs.Links.{link_at};

use bm_maps::{NO_LINK, SlotLink};
use std::marker::Model;

/// The remaining slots of a list. A contract sees it as the list of those slots. Takes no memory.
#[derive(Drop)]
pub struct Walk<'a> {
    // The slot after each slot.
    pub(crate) links: &'a [SlotLink],
    pub(crate) next: SlotLink,
    // An upper bound on the number of remaining slots.
    pub(crate) left: usize,
}

impl<'a> Model for Walk<'a> {
    ghost use Rattle.std.specs.Prelude.{ℕ, List};

    ghost Value = { List ℕ };

    ghost use Rattle.bm_queues.specs.Links.{link_at, walk};

    ghost view = { λ w. walk (link_at w.links.now) w.left w.next };
}

// The link of a slot: none past the last slot.
fn next_link(links: &[SlotLink], slot: usize) -> SlotLink
    ensures { result ≡ link_at links.now slot }
{
    if slot < links.len() {
        links[slot]
    } else {
        NO_LINK
    }
}

impl<'a> Iterator for Walk<'a> {
    type Item = usize;

    ghost next_gives = { YieldsFirst (λ rest. rest) };

    ghost remaining = { item_count (λ rest. rest) };

    fn next(&mut self) -> Option<usize> {
        let slot = self.next.slot()?;
        if self.left == 0 {
            return None;
        }
        self.left -= 1;
        self.next = next_link(self.links, slot);
        Some(slot)
    }
}
