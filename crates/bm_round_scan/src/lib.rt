//! The findings of a round in the blocks of a shard: expired transfers, replicas in excess, wishes,
//! and replicas to be deleted.
//!
//! A round scans the unsettled blocks and those at a level at which copies are wanted, never all
//! blocks. A settled block has at most a wish, and none if enough transfers are pending. The
//! replicas of an unsettled block are marked again. The findings of each block are appended. In the
//! end each list is sorted.
#![tactic(auto)]

mod block_scan;
mod findings;
mod guess;
mod keys;
mod order;
mod pending_copies;
mod replicas;
mod scan;
mod scanned_slots;
mod settled_request;
mod wishes;

pub use findings::find_round;
pub use guess::likely_bound;
