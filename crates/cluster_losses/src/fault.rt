// Why a run ends without its answer.
use crate::loss::Kind;
use bm_base::Refusal;
use std::alloc::{AllocError, AllocFailed};
use thiserror::Error;

/// Why there is no answer.
#[derive(Clone, Copy, Debug, Error)]
pub enum Fault {
    #[error("memory fault")]
    Memory,
    /// A word of the command line names nothing of the cluster.
    #[error("the cluster has no such {0}; `report` lists the names")]
    Unknown(Kind),
    /// The manager refused a loss.
    #[error("refused: {0}")]
    Refused(Refusal),
}

impl From<AllocError> for Fault {
    ghost use Rattle.std.specs.Prelude.{◌≡◌};
    ghost use Rattle.cluster_losses.specs.declared.fault.Fault.TheVariants.{Memory};

    ghost from_gives = { λ _ e. e ≡ Memory };

    fn from(_error: AllocError) -> Self {
        Fault::Memory
    }
}

impl<T: Drop> From<AllocFailed<T>> for Fault {
    ghost use Rattle.std.specs.Prelude.{◌≡◌};
    ghost use Rattle.cluster_losses.specs.declared.fault.Fault.TheVariants.{Memory};

    ghost from_gives = { λ _ e. e ≡ Memory };

    fn from(_failed: AllocFailed<T>) -> Self {
        Fault::Memory
    }
}

impl From<Refusal> for Fault {
    ghost use Rattle.cluster_losses.specs.Faults.{IsOfRefusal};

    ghost from_gives = { IsOfRefusal };

    fn from(refusal: Refusal) -> Self {
        match refusal {
            Refusal::Memory => Fault::Memory,
            refusal => Fault::Refused(refusal),
        }
    }
}
