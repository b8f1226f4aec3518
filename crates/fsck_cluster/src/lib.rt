//! A cluster as `hdfs fsck` and `hdfs dfsadmin -report` describe it: its nodes, storages, blocks
//! and replicas.
#![tactic(auto)]

mod blocks;
mod cluster;
mod names;
mod node_list;
mod node_storages;
mod rows;

pub use blocks::Blocks;
pub use cluster::{Bad, Cluster, ClusterFault, NodeRow, Why};
pub use names::Names;
pub use node_list::{NodeFault, NodeList, NodeRefusal, NodeWhy};
pub use rows::{Row, Rows, StoredReplica};
