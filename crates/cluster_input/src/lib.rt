//! Loads a cluster from a text, which is lines of the line tool or the output of `hdfs fsck`. Keeps
//! the names of racks, nodes, storages and files, if the text has them. All calls are made on one
//! manager.
#![tactic(auto)]

mod calls;
pub mod fault;
mod kind;
pub mod loaded_cluster;
mod names;
pub mod options;
pub mod sources;
