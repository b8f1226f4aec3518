// Writes a report.
ghost use Rattle.std.specs.Prelude.{◌≡◌, IfOk, IfErr, OnOk, string_bytes};
ghost use Rattle.bm_base.specs.Words.{Appends};
ghost use Rattle.cluster_report.specs.Sessions.{IsInStep};
ghost use Rattle.cluster_pages.specs.Output.{IsReportOn, PrintsReport, IsClusterReport, WritesNothing};

use crate::files_at_risk::{AtRisk, files_at_risk};
use crate::text::report_text;
use cluster_input::loaded_cluster::Loaded;
use cluster_report::report::{Report, build_report};
use std::alloc::{AllocError, Global};
use std::io;
use std::io::Write;
use thiserror::Error;

/// The report on a cluster, and its files at risk.
#[derive(Drop)]
pub struct ClusterReport {
    pub report: Report,
    pub risk: AtRisk,
}

/// The report on a loaded cluster. Here the manager refuses only when out of memory.
pub fn make_report(alloc: Global, loaded: &Loaded) -> Result<ClusterReport, AllocError>
    requires { IsInStep loaded.now.session }
    ensures { IfOk result (λ s. IsClusterReport loaded.now s) }
{
    let Ok(report) = build_report(alloc, &loaded.session.manager, &loaded.session.book) else {
        return Err(AllocError);
    };
    let risk = files_at_risk(
        alloc,
        &loaded.files,
        report.missing.as_slice(),
        report.urgent.as_slice(),
    )?;
    Ok(ClusterReport { report, risk })
}

/// The text of a report, with at most this number of blocks and files of each list.
#[tactic(auto, using(crate::proofs::OutputLemmas::reported))]
pub fn make_text(
    alloc: Global,
    loaded: &Loaded,
    most: usize,
    cluster: &ClusterReport,
) -> Result<String, AllocError>
    requires { IsClusterReport loaded.now cluster.now }
    ensures { IfOk result (λ s. IsReportOn loaded.now most (string_bytes s)) }
{
    report_text(
        alloc,
        &loaded.names,
        &loaded.files,
        most,
        &cluster.report,
        &cluster.risk,
    )
}

/// Why a report was not printed. After a failed write, an unknown part was printed.
#[derive(Clone, Copy, Debug, Error)]
pub enum PrintFault {
    #[error("memory fault")]
    Memory,
    /// A write or the flush failed.
    #[error("write fault: {0}")]
    Write(io::Error),
}

impl From<AllocError> for PrintFault {
    ghost use Rattle.std.specs.Prelude.{◌≡◌};
    ghost use Rattle.cluster_pages.specs.declared.output.PrintFault.TheVariants.{Memory};

    ghost from_gives = { λ _ e. e ≡ Memory };

    fn from(_error: AllocError) -> Self {
        PrintFault::Memory
    }
}

/// Prints why the report was not printed; nothing if the reader of the pipe went away.
pub fn print_output_fault<R: Eprint>(rt: &R, program: &str, fault: &PrintFault) {
    let is_unread = match fault {
        PrintFault::Write(error) => error.kind() == io::ErrorKind::BrokenPipe,
        PrintFault::Memory => false,
    };
    if !is_unread {
        let _ = rt.eprintln(format_args!("{program}: {fault}"));
    }
}

/// Prints the lines of a report, with at most this number of blocks and files of each list. Nothing
/// is written before the whole text is made.
#[tactic(auto, using(crate::proofs::OutputLemmas::printed))]
pub fn print_report<W: Write>(
    alloc: Global,
    writer: &mut W,
    loaded: &Loaded,
    most: usize,
    cluster: &ClusterReport,
) -> Result<(), PrintFault>
    requires { IsClusterReport loaded.now cluster.now }
    ensures text { OnOk result (PrintsReport loaded.now most
        (W.contents writer.old) (W.contents writer.new)) }
    ensures nothing_written { IfErr result (λ f. WritesNothing f writer.old writer.new) }
{
    let text = make_text(alloc, loaded, most, cluster)?;
    match write_flushed(writer, text.as_bytes()) {
        Ok(()) => Ok(()),
        Err(error) => Err(PrintFault::Write(error)),
    }
}

/// Writes a whole text, and flushes.
pub fn write_flushed<W: Write>(writer: &mut W, text: &[u8]) -> io::Result<()>
    ensures { OnOk result (Appends (W.contents writer.old) (W.contents writer.new) text.now) }
{
    writer.write_all(text)?;
    writer.flush()
}
