//! The answer to one line of the tool: the call that the line asks for is made on a manager, and
//! its answer becomes text. The tool makes the calls by its threads, the library for other
//! languages on the calling thread alone.
//!
//! `specs/OneLine` defines the text that answers a line, and the state after it.
#![tactic(auto)]

mod line_answer;

pub use line_answer::{
    LineAnswer, Request, make_call, make_call_alone, parse_held_line, parse_request,
};
