// The end of a run: why it ended early, or the counts of its lines.
ghost use Rattle.std.specs.Prelude.{◌≡◌};
ghost use Rattle.bm_session.specs.declared.fault.Fault.TheVariants.{Memory};

use std::alloc::{AllocError, AllocFailed};

/// Why a run ended early.
#[derive(Clone, Copy, Debug, PartialEq, Eq)]
pub enum Fault {
    /// The configuration is outside its ranges.
    Config,
    /// A read failed.
    Read,
    /// A write or a flush failed.
    Write,
    /// Out of memory.
    Memory,
    /// There are more lines or bytes than a run accepts.
    TooMuch,
}

impl From<AllocError> for Fault {
    ghost from_gives = { λ _ e. e ≡ Memory };

    fn from(_: AllocError) -> Fault {
        Fault::Memory
    }
}

impl<T: Drop> From<AllocFailed<T>> for Fault {
    ghost from_gives = { λ _ e. e ≡ Memory };

    fn from(_: AllocFailed<T>) -> Fault {
        Fault::Memory
    }
}

/// The numbers of lines, of accepted lines and of refused lines.
#[derive(Clone, Copy, Debug, PartialEq, Eq)]
pub struct Summary {
    pub lines: u64,
    pub accepted: u64,
    pub refused: u64,
}
