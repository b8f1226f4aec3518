// Why a run ends early.

use bm_base::Refusal;
use std::alloc::AllocError;
use std::io::ErrorKind;
use std::{fmt, io};

#[derive(Drop)]
pub enum Fault {
    Memory,
    Write(io::Error),
    /// The manager refused a report or a round.
    Refused(Refusal),
}

impl Fault {
    /// Whether the reader of the output has closed it, so that no message is needed.
    pub fn is_closed_pipe(&self) -> bool {
        matches!(self, Fault::Write(error) if error.kind() == ErrorKind::BrokenPipe)
    }
}

impl fmt::Display for Fault {
    fn fmt<W: fmt::Write>(&self, f: &mut fmt::Formatter<W>) -> fmt::Result {
        match self {
            Fault::Memory => f.write_str("memory fault"),
            Fault::Write(error) => write!(f, "write fault: {error}"),
            Fault::Refused(refusal) => write!(f, "refused: {refusal}"),
        }
    }
}

impl From<AllocError> for Fault {
    fn from(_: AllocError) -> Fault {
        Fault::Memory
    }
}

impl From<Refusal> for Fault {
    fn from(refusal: Refusal) -> Fault {
        match refusal {
            Refusal::Memory => Fault::Memory,
            refusal => Fault::Refused(refusal),
        }
    }
}
