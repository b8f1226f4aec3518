//! Placement: which replicas of a block are in excess, and the source and target of its next copy.
//!
//! A round makes both tables, [`Streams`] and [`Scheduled`], once from the cluster. For each wanted
//! copy it asks [`least_source`] and [`least_target`], and if both answer it adds the transfer to
//! both tables. Usable replicas are the good ones that are not in excess: on a node that drains
//! they are drained, elsewhere live. The given storages are in the cluster, and a list names a
//! storage once.
#![tactic(auto)]

mod best_targets;
mod excess;
mod holders;
mod replica_spread;
mod scheduled_bytes;
mod sorted_excess;
mod source;
mod streams;
mod target;
mod up_to_two;

pub use excess::{ExcessScratch, excess_of, fill_excess};
pub use scheduled_bytes::Scheduled;
pub use source::least_source;
pub use streams::Streams;
pub use target::least_target;
