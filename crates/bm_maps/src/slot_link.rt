// A slot number of 32 bits, or none: the link of the lists over slots.
ghost use Rattle.std.specs.Prelude.{◌≡◌, ◌<◌, nat_lt, Some};
ghost use Rattle.bm_maps.specs.SlotLinks.{end_of_links};

use std::marker::Model;

/// A link can name the slots below this number; a link that holds it leads nowhere.
pub const END_OF_LINKS: u32 = u32::MAX;

/// A link to a slot, or to none, in four bytes. A contract sees it as an option.
#[derive(Clone, Copy)]
pub struct SlotLink(u32);

impl Model for SlotLink {
    ghost use Rattle.std.specs.Prelude.{ℕ, Option};

    ghost Value = { Option ℕ };

    ghost use Rattle.std.proofs.Common.{ap};
    ghost use Rattle.bm_maps.specs.SlotLinks.{link_view, link_number, link_number-view};

    ghost view = { λ l. link_view l.0 };

    ghost inverse = { λ o. record { 0 = link_number o } };

    ghost inverse_ok = { λ l h. ap (λ n. record { 0 = n }) (link_number-view l.0) };
}

/// Whether a link can name this slot.
pub fn fits_link(slot: usize) -> bool
    ensures { result ≡ nat_lt slot end_of_links }
{
    slot < END_OF_LINKS as usize
}

/// The link that leads nowhere.
pub const NO_LINK: SlotLink = SlotLink(END_OF_LINKS);

impl SlotLink {
    /// The link to a slot, which is below `END_OF_LINKS`.
    pub fn to(slot: usize) -> SlotLink
        requires { slot < end_of_links }
        ensures { result ≡ Some slot }
    {
        SlotLink(slot as u32)
    }

    /// The slot that it leads to, if there is one.
    pub fn slot(self) -> Option<usize>
        ensures { result ≡ self }
    {
        if self.0 == END_OF_LINKS {
            None
        } else {
            Some(self.0 as usize)
        }
    }
}
