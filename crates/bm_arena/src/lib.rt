//! The arena under a shard: blocks with their replicas in a slab, and for each storage one doubly
//! linked list of its blocks.
//!
//! A block's replicas are triplets, as in Hadoop 2's BlockInfo: the storage, and the previous and
//! the next block in that storage's list. So a list operation costs a constant number of steps. A
//! full report is compared by a delimiter that is put at the head of the list. Reported blocks move
//! to the head, so the blocks that are then after the delimiter were not reported.
#![tactic(auto)]

mod arena;
mod block_entries;
mod links;
mod lookups;
mod predicted_slots;
mod slot_index;
mod storage_lists;
mod walk;

pub use arena::{Arena, Slot, Triplet};
pub use bm_base::{BlockInfo, Marks};
pub use walk::Walk;
