//! The queries of a shard's blocks and replicas. The arena has no order, so the answer is gathered,
//! and then sorted.
//!
//! Only calls that return a list take memory. A call about one block or one storage scans the
//! replicas there alone; one about a node scans the blocks on its storages.
#![tactic(auto)]

mod block_queries;
mod blocks;
mod held_back;
mod replicas;
mod rows;

pub use block_queries::{is_still_stored, knows_block, places};
pub use blocks::{blocks_on, missing_blocks};
pub use held_back::is_held_back;
pub use replicas::{ReplicaFilter, list_replicas, replica_key, replica_keys};
pub use rows::table_rows;
