//! A run of the line tool: answers each line that it reads from a reader by a line that it writes
//! to a writer. The program `bm_tool` calls it on the standard streams; any other program or test
//! can call it on bytes in memory or on streams of its own.
//!
//! `run` is the whole of it. `specs/` defines the text that answers an input (`Text`), the output
//! if a run ends early (`Outcome`), and how readers and writers count their failures (`Ends`,
//! `FaultCounts`).
#![tactic(auto)]

mod fault;
mod limits;
mod session;
mod whole_run;

pub use fault::{Fault, Summary};
pub use whole_run::{FaultCounting, Sink, Source, run};
