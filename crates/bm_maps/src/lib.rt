//! A sorted map from numbers, and links between slots.
#![tactic(auto)]

mod number_map;
mod slot_link;
pub mod sorted_entries;

pub use number_map::NumberMap;
pub use slot_link::{END_OF_LINKS, NO_LINK, SlotLink, fits_link};
