//! The pending transfers: copies of blocks that were commanded and not yet reported, each with the
//! round of its command.
//!
//! They are grouped by block, as in Hadoop 2's PendingReplicationBlocks: one hash finds those of a
//! block, and changing or removing them takes no memory. Capacity is reserved first: `reserve` for
//! a block, and then as many inserts.
#![tactic(auto)]

mod by_block;
mod own_transfers;
mod pending_transfers;
mod remaining_targets;
mod transfer_lists;

pub use pending_transfers::PendingTransfers;
