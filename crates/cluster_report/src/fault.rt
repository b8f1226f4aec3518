// The faults that end a run.
use std::alloc::AllocError;
use thiserror::Error;

/// Why there is no report. After a failed write, an unknown part was written.
#[derive(Clone, Copy, Debug, Error)]
pub enum Fault {
    #[error("memory fault")]
    Memory,
    #[error("read fault")]
    Read,
    /// A write or the flush failed.
    #[error("write fault")]
    Write,
}

impl From<AllocError> for Fault {
    ghost use Rattle.std.specs.Prelude.{◌≡◌};
    ghost use Rattle.cluster_report.specs.declared.fault.Fault.TheVariants.{Memory};

    ghost from_gives = { λ _ e. e ≡ Memory };

    fn from(_error: AllocError) -> Self {
        Fault::Memory
    }
}
