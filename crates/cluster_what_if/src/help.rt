// Texts of the command line.
use crate::options::command;
use clap::Error;
use clap::error::ErrorKind;
use cluster_input::options::WRONG_VALUE;
use std::alloc::{AllocError, Global};

pub static EXAMPLES: &str = "\
A FILE holds lines of the line tool, or is a text of hdfs fsck; without FILE standard input is read. \
Racks, nodes and storages have the names of the text; in lines they have their numbers. A HOST may leave out the port.

Examples:
  what-if --lose rack:/rack7 --nodes nodes.txt fsck.txt       rack /rack7 burns
  what-if --lose rack:1 cluster.jsonl                         the same of lines
  what-if --lose node:10.1.1.11 --lose node:10.1.1.12 FILE    two nodes die at once
  what-if --lose each-rack FILE                               a table: each rack alone, the worst first
  what-if --lose rack:1 --mend --html rack.html FILE          the answer as a page too
  what-if --drain 10.1.1.11 --mend FILE                       when the node can be switched off";

/// The error for words that ask no question.
pub fn wrong_question(alloc: Global) -> Result<Error, AllocError> {
    let mut command = command(alloc)?;
    command.error(
        ErrorKind::ValueValidation,
        "--lose takes rack:NAME, node:HOST, storage:ID, each-rack and each-node, the last two \
         alone and without --mend; at least one --lose or --drain is wanted; --svg needs --mend",
    )
}

/// The error for a value that its option does not take.
pub fn wrong_value(alloc: Global) -> Result<Error, AllocError> {
    let mut command = command(alloc)?;
    command.error(ErrorKind::ValueValidation, WRONG_VALUE)
}
