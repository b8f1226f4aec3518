//! How urgent the blocks of a shard are, and which of them a round has to scan.
//!
//! The blocks and replicas of a shard are in an arena. Parallel to it, by slots of the arena, are
//! the level of each block, the blocks of each level, and the set of unsettled blocks. A block is
//! unsettled if a round may mark or delete a replica of it. When the replicas of a block change,
//! the block is reclassified from its own replicas, with one read of each. Nothing here takes
//! memory but `new`, `for_slots`, `grow_to`, `ready_block`, `ready_report` and `ready_notice`.
#![tactic(auto)]

mod block_events;
mod classification;
mod classified_chunks;
mod draining_nodes;
mod first_slots;
mod four_lists;
mod level_index;
mod leveled_blocks;
mod listed_replicas;
mod live_replicas;
mod lost_storages;
mod mark_changes;
mod rack_changes;
mod reports;
mod round_end;
mod round_start;
mod storage_list;
mod unsettled_slots;
mod unused_entries;

pub use level_index::LevelIndex;
pub use leveled_blocks::LeveledBlocks;
pub use live_replicas::count_live;
