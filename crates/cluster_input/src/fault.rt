// The faults of loading a cluster.
use std::alloc::AllocError;
use thiserror::Error;

/// Why no cluster was loaded. The manager may have taken some of the calls.
#[derive(Debug, Drop, Error)]
pub enum Fault {
    #[error("memory fault")]
    Memory,
    #[error("read fault")]
    Read,
    /// A text has nothing but blanks.
    #[error("the text is empty: give lines of the line tool, or a text of hdfs fsck")]
    Empty,
    /// A note on a refused line could not be written.
    #[error("write fault")]
    Write,
    /// A line of a text of fsck, or of the report on DataNodes, was refused.
    #[error("{0}")]
    Text(fsck_import::fault::Fault),
    /// The manager refused a call for a text of fsck.
    #[error("a call for the text is {0}")]
    Call(String),
}

impl From<AllocError> for Fault {
    ghost use Rattle.std.specs.Prelude.{◌≡◌};
    ghost use Rattle.cluster_input.specs.declared.fault.Fault.TheVariants.{Memory};

    ghost from_gives = { λ _ e. e ≡ Memory };

    fn from(_error: AllocError) -> Self {
        Fault::Memory
    }
}

impl From<fsck_import::fault::Fault> for Fault {
    fn from(fault: fsck_import::fault::Fault) -> Self {
        match fault {
            fsck_import::fault::Fault::Memory => Fault::Memory,
            fsck_import::fault::Fault::Read(_) => Fault::Read,
            other => Fault::Text(other),
        }
    }
}

impl From<cluster_report::fault::Fault> for Fault {
    fn from(fault: cluster_report::fault::Fault) -> Self {
        match fault {
            cluster_report::fault::Fault::Memory => Fault::Memory,
            cluster_report::fault::Fault::Read => Fault::Read,
            cluster_report::fault::Fault::Write => Fault::Write,
        }
    }
}
