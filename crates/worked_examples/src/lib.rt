//! Worked examples: calls of a block manager with the answers that they give, each computed by the
//! definitions of `bm_base`.
//!
//! The answers were worked out by hand from the rules in words, so each example checks the
//! definitions, to which the block manager is proved. No function here computes anything: its
//! contract is the example.
#![tactic(auto)]

pub mod choices;
pub mod copies;
pub mod deletes;
pub mod draining_nodes;
pub mod levels;
pub mod limits;
pub mod refusals;
pub mod reports;
