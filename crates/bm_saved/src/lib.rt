//! What a snapshot holds of a manager's state, its text, and how the state is restored from it.
//!
//! `specs/` defines both; the contract of each function here is a law of them, or an example.
//! What is saved has no fault, and restoring it gives the state again. What has no fault makes a
//! lawful state, of which it is saved again. No call of the library saves or loads yet.
//!
//! - `nodes`, `blocks`, `states`: laws of saved nodes, of saved blocks, and of whole states
//! - `calls`: a law of later calls
//! - `examples`: the text of a state, and each fault, computed
#![tactic(auto)]

pub mod blocks;
pub mod calls;
pub mod examples;
pub mod nodes;
pub mod states;

use bm_base::{Marks, StorageId};

/// A replica of a saved block.
#[derive(Clone, Copy, Debug, PartialEq, Eq)]
pub struct SavedReplica {
    pub storage: StorageId,
    pub marks: Marks,
}

/// A pending transfer of a saved block.
#[derive(Clone, Copy, Debug, PartialEq, Eq)]
pub struct SavedTransfer {
    pub target: StorageId,
    /// The round of its command.
    pub round: u64,
}

/// Why a saved node or a saved block is not restored.
#[derive(Clone, Copy, Debug, PartialEq, Eq)]
pub enum LoadFault {
    /// The number of a node or of a block is not above that of the line before.
    NotAscending,
    /// Storages do not ascend, or one is repeated.
    BadOrder,
    /// A storage of a node is one of an earlier node.
    StorageKnown,
    /// More nodes or storages than the limits of the cluster allow.
    TooMany,
    /// An unknown block without replicas.
    NothingHeld,
    /// The number of wanted replicas is not between 1 and 16.
    BadReplication,
    /// A replica or a transfer is on a storage that no node has.
    UnknownStorage,
    /// Two replicas of a block are on one node.
    NodeTwice,
    /// A stray replica of a known block, or another one of an unknown block.
    WrongTag,
    /// A replica is in excess, and not good.
    WrongExcess,
    /// A transfer of an unknown block.
    UnknownBlock,
    /// A transfer that was commanded after the last round.
    FutureRound,
}
