//! The cluster: which DataNodes are alive, on which racks they are, which storages they have, and
//! the free bytes of each.
#![tactic(auto)]

mod by_node;
mod changes;
mod checks;
mod index_hints;
mod racks;
mod spots;
mod tables;
mod topology;

pub use spots::Spot;
pub use topology::{Location, Topology};
