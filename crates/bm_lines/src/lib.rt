//! The lines of the tool, for every program that reads or writes them. The crate cuts an input into
//! lines, reads a line as a call, and writes the line of a call and the line of an answer.
//!
//! `specs/` defines the lines of an input (`Lines`), a line's call (`CallOf`), the line that asks
//! for a call (`CallText`) and the text of an answer (`Print`). `CALLING.md` has a caller.
#![tactic(auto)]

mod field_writer;
mod limits;
mod line;
mod parser;
mod print;
mod print_items;
mod writer;

pub use limits::MAX_LINE;
pub use line::{LINE_END, Line, line_end};
pub use parser::{call_of, canonical_call};
pub use print::answer_line;
pub use writer::{has_op, line_of};
