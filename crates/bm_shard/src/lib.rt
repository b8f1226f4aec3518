//! One shard of a block manager: the blocks of its numbers, their replicas on the storages of the
//! cluster, their pending transfers, and how urgently each block needs replicas.
//!
//! An event is checked ([`Shard::check`]), all its memory is taken ([`Shard::prepare`]), and then
//! it is made ([`Shard::commit`]), which refuses nothing; or it is aborted ([`Shard::abort`]). So
//! is a round: [`Shard::round_part`] finds what all shards choose from, [`Shard::round_ready`]
//! takes the memory, [`Shard::round_commit`] ends it.
#![tactic(auto)]

mod arrived_transfers;
mod block_events;
mod checks;
mod cluster_events;
mod events;
mod own_transfers;
mod queries;
mod reported_replicas;
mod rounds;
mod shard;

pub use bm_base::{RoundPart, Wish};
pub use shard::Shard;
