//! The files of an `hdfs fsck` text: the blocks that are taken from it, with their replicas, and
//! the lines that are refused.
//!
//! A line is refused if it leaves open what its file or its replicas are. At the end, the text is
//! refused if the numbers of the summary differ from what was read.
#![tactic(auto)]

mod counts;
mod files;
mod numbers;
mod refusal;
mod replicas;
mod skips;

pub use counts::{Counts, Summed};
pub use files::{File, Files, LineFault, Section};
pub use numbers::Numbers;
pub use refusal::{Mismatch, Refusal, Why};
pub use replicas::{Block, is_corrupt, is_draining};
pub use skips::{Kind, LeftOut, Skips, Unclear};
