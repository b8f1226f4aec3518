// The faults that end a run.
use fsck_cluster::NodeWhy;
use fsck_text::{Reason, Wrong, column_of, escaped};
use std::alloc::{AllocError, Global};
use std::io::ErrorKind;
use std::marker::Model;
use std::{fmt, io};
use thiserror::Error;

/// A word that cannot be parsed, as it is printed, and its first column, in bytes from 1. An empty
/// word is the end of the line.
#[derive(Debug, Drop)]
pub struct Quoted {
    column: usize,
    word: String,
    why: Reason,
}

impl Model for Quoted {
    ghost use Rattle.std.specs.Prelude.{string_bytes};
    ghost use Rattle.fsck_import.specs.Quotes as spec;

    ghost Value = { spec.Quoted };

    ghost view = { λ q. record {
      column = q.column;
      word = string_bytes q.word;
      why = q.why;
    } };
}

impl Quoted {
    ghost use Rattle.std.specs.Prelude.{◌≡◌, IfOk};
    ghost use Rattle.fsck_import.specs.Quotes.{quoted};

    /// The word that is wrong in a line.
    pub fn new(alloc: Global, line: &str, wrong: &Wrong) -> Result<Quoted, AllocError>
        ensures { IfOk result (λ q. q ≡ quoted line.now wrong.now) }
    {
        let word = wrong.word.text();
        Ok(Quoted {
            column: column_of(line, word),
            word: escaped(alloc, word)?,
            why: wrong.why,
        })
    }
}

impl fmt::Display for Quoted {
    fn fmt<W: fmt::Write>(&self, f: &mut fmt::Formatter<W>) -> fmt::Result {
        let Quoted { column, word, why } = self;
        if word.is_empty() {
            write!(f, "column {column}: the end of the line {why}")
        } else {
            write!(f, "column {column}: '{word}' {why}")
        }
    }
}

/// Why a line is refused.
#[derive(Debug, Drop, Error)]
pub enum Cause {
    #[error("the line is not UTF-8")]
    NotText,
    #[error("{0}")]
    Word(Quoted),
    #[error("{0}")]
    File(fsck_files::Why),
    #[error("{0}")]
    Cluster(fsck_cluster::Why),
    #[error("{0}")]
    Node(NodeWhy),
}

/// Why a line is refused, or out of memory.
#[derive(Drop)]
pub enum LineFault {
    Memory,
    Refused(Cause),
}

impl From<AllocError> for LineFault {
    ghost use Rattle.std.specs.Prelude.{◌≡◌};
    ghost use Rattle.fsck_import.specs.declared.fault.LineFault.TheVariants.{Memory};

    ghost from_gives = { λ _ e. e ≡ Memory };

    fn from(_error: AllocError) -> Self {
        LineFault::Memory
    }
}

/// A refused line; lines are numbered from 1.
#[derive(Debug, Drop, Error)]
#[error("line {line}: {why}")]
pub struct Unread {
    pub line: u64,
    pub why: Cause,
}

/// Why a run ends early. After a refused line or a failed read nothing was written; after any other
/// fault, a part may have been.
#[derive(Debug, Drop, Error)]
pub enum Fault {
    #[error("memory fault")]
    Memory,
    #[error("read fault: {0}")]
    Read(io::Error),
    /// A write or the flush failed.
    #[error("write fault: {0}")]
    Write(io::Error),
    /// The file for a table could not be opened or written.
    #[error("a table cannot be written")]
    Table,
    #[error("{0}")]
    Refused(Unread),
    /// A report is longer than a line of the tool may be.
    #[error("a storage has too many replicas for one report: ./puljemrod report has no such limit")]
    LongReport,
}

impl Fault {
    /// Whether the reader of the output has closed it, so that no message is needed.
    pub fn is_closed_pipe(&self) -> bool {
        matches!(self, Fault::Write(error) if error.kind() == ErrorKind::BrokenPipe)
    }
}

impl From<AllocError> for Fault {
    ghost use Rattle.std.specs.Prelude.{◌≡◌};
    ghost use Rattle.fsck_import.specs.declared.fault.Fault.TheVariants.{Memory};

    ghost from_gives = { λ _ e. e ≡ Memory };

    fn from(_error: AllocError) -> Self {
        Fault::Memory
    }
}
