//! Losses of racks, nodes and storages of a loaded cluster, with no round between them. Makes the
//! events of the losses, and then finds the lost blocks and the counts of the cluster. The losses
//! of each rack or each node alone are computed, and not made.
#![tactic(auto)]

pub mod applied_losses;
mod block_tallies;
pub mod cluster_counts;
pub mod events;
mod failure_domains;
pub mod fault;
pub mod loss;
pub mod loss_events;
mod name_lookup;
mod row_counts;
mod row_index;
pub mod single_losses;
