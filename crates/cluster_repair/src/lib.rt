//! Re-replication after a loss, round by round: DataNodes obey the commands of each round at a
//! given bandwidth.
//!
//! How fast DataNodes are is a model: each sends one copy after another and receives one after
//! another, in the order of the commands. A copy takes its bytes from the target's free bytes when
//! it is commanded. A delete is done by the next round. Copies that were commanded before the
//! repair never arrive. A round is skipped while the number of copies on their way is at least the
//! number that it may command. Clients, disks and switches are not in the model.
#![tactic(auto)]

pub mod awaited_copies;
pub mod datanodes;
pub mod free_bytes;
pub mod links;
mod numbers;
pub mod reasons;
pub mod repair;
pub mod rows;
pub mod ticks;
pub mod watch;
