//! The names of a cluster: of hosts, racks and storages by their numbers, and the file of each
//! block.
#![tactic(auto)]

mod files;
mod name_table;
mod names;

pub use files::{FileIndex, Files};
pub use name_table::NameTable;
pub use names::Names;
