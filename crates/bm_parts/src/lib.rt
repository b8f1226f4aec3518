//! Blocks cut into parts by their numbers: how changes, findings and answers of parts join to those
//! of the whole.
//!
//! A shard holds the blocks whose number modulo the number of shards is its index, with their
//! replicas and their pending transfers. `specs/` defines a part, the effect of an event and a
//! round on it, and the whole of parts.
//!
//! - `whole`: parts put together
//! - `events`, `rounds`: changes of parts, and of the whole
//! - `queries`: answers of parts, joined
//! - `settled_blocks`: blocks that a round need not scan
//! - `levels`: events on the cluster after which a shard need not reclassify its blocks
//! - `replica_storages`: the storages of replicas, and which are in excess
//! - `sort_key`: the key by which a round's lists are sorted
//!
//! Only `events::block_of` computes something; the contract of each other function is a law.
#![tactic(auto)]

pub mod events;
pub mod levels;
pub mod queries;
pub mod replica_storages;
pub mod rounds;
pub mod settled_blocks;
pub mod sort_key;
pub mod whole;
