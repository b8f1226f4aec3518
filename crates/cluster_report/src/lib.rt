//! The report on a cluster. It makes the calls of an input on a manager, keeps a book of the facts
//! for which the manager has no query, and counts the state at the end.
//!
//! A line that asks for no call, or whose call is refused, gets a note with its number. The other
//! lines are processed.
#![tactic(auto)]

pub mod book;
pub mod catalogue;
pub mod fault;
pub mod levels;
pub mod line_reader;
pub mod nodes;
pub mod options;
pub mod report;
pub mod session;
pub mod tag_counts;
pub mod text_parts;
pub mod transfers;
