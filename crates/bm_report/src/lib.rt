//! Full block reports, compared by the delimiter as in Hadoop 2's BlockManager, and the notices of
//! single replicas.
//!
//! A report is taken in two steps. `ready`, or `prepare_notice` for a notice, finds or makes the
//! entries of its numbers and reserves all memory, which can be refused. Then `apply_full`,
//! `apply_received` or `abort` takes none and succeeds. In between, a `Report` keeps the slots, so
//! that a known number is hashed at most twice. It reads 64 numbers ahead and lists the slots that
//! change. A shard holds one. The free functions keep nothing and look each number up again.
//!
//! Contracts describe the blocks and replicas of an arena by two finite maps.
#![tactic(auto)]

mod aborted_report;
mod first_of_part;
mod full_report;
mod look_up;
mod notices;
mod report;
mod report_counts;
mod reported_block;
mod reported_chunks;
mod sweep;
mod types;
mod uncached_numbers;
mod uncached_report;

pub use aborted_report::abort;
pub use notices::{apply_deleted, apply_received};
pub use report::Report;
pub use types::Applied;
pub use uncached_report::{apply_full, ready};
