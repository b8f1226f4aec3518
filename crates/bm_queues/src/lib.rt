//! Lists over slots: for each level the list of its slots, and sets of slots.
//!
//! The list of a level is an array, whose end is the front. A set is a doubly linked list through
//! arrays by slot. A caller that iterates over either may change it at slots that it has visited.
//! Each change is a constant number of steps and takes no memory. A caller that reads the slots of
//! a level, or of a set, reads no other slot.
#![tactic(auto)]

mod arrays;
mod level_byte;
mod level_lists;
mod slot_lists;
mod slot_set;
mod walk;

pub use level_lists::LevelLists;
pub use slot_set::SlotSet;
pub use walk::Walk;
