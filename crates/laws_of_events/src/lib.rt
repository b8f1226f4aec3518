//! Laws of events: consequences of the definitions of `bm_base`, for every state, every lawful
//! state or every list of calls.
//!
//! - `lawful_states`, `plain_words`: what holds of every state that calls lead to
//! - `calls`: the state after each kind of call
//! - `changes`, `reports`: what each event changes, and what it keeps
//! - `runs`: full reports whose entries are runs of block numbers
//! - `draining_nodes`: decommissioning
//! - `queries`: what queries list
//! - `shards`: the parts into which blocks are cut by their numbers
//!
//! The definitions state the effect of each call; a slip in one of them makes a law false. No
//! function here computes anything: its contract is the law.
#![tactic(auto)]

pub mod calls;
pub mod changes;
pub mod draining_nodes;
pub mod lawful_states;
pub mod plain_words;
pub mod queries;
pub mod reports;
pub mod runs;
pub mod shards;
