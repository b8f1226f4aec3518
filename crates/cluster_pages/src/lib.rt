//! The report on a cluster: reads lines of the line tool or a text of `hdfs fsck`, and prints the
//! state of the cluster.
//!
//! ```text
//! puljemrod_cluster report cluster.jsonl
//! puljemrod_cluster report --nodes nodes.txt fsck.txt
//! ```
//!
//! The report has a line for each fact (docs/CLUSTERS.md). An input line that asks for no call, or
//! whose call is refused, gets a note with its number on standard error. The report is printed
//! nevertheless.
//!
//! The numbers of the stored run of `puljemrod_cluster` follow from the rules. Nodes 1, 2 and 5 are
//! on rack 1, nodes 3 and 4 on rack 2. Nodes 2 and 5 drain; node 5 has no replica, so it is
//! retired. Corrupt and stale replicas do not count. The blocks:
//! - 1 wants three replicas and has live ones on storages 11 and 31, at least a third, but not all:
//!   under_replicated;
//! - 2 wants two and has none live, only one on storage 21, which drains: highest; the one on
//!   storage 41 is stale;
//! - 3 wants one and has none: missing;
//! - 4 wants two and has one live, on storage 31; the one on storage 11 is corrupt: highest;
//! - 5 wants one and has it on storage 41: no level;
//! - 6 wants two and has them on storages 31 and 41, both on rack 2: badly_distributed;
//! - 7 wants seven and has live ones on storages 11 and 41, fewer than a third:
//!   very_under_replicated;
//! - 8 wants one and has live ones on storages 11 and 31, so the round marks one as excess: no
//!   level;
//! - 9 is unknown, so its replica on storage 12 is stray.
//!
//! Copies can go to storages 11, 12 and 31 alone. Storage 41 has no free bytes, and a node gets no
//! copy if it drains or has a replica of the block, of any tag. So the round commands four copies:
//! of block 2 to storages 12 and 31, of block 7 to storage 31, of block 6 to storage 12. Blocks 1
//! and 4 have replicas on nodes 1 and 3 already. One copy has arrived and three are pending; block
//! 2 has one live replica now, so its level is still the highest.
//!
//! The exit status is 0 if every line asked for a call that was accepted. It is 1 if a line did
//! not, if a read or a write failed, or if out of memory; and 2 if the words are refused.
#![tactic(auto)]

mod chart;
pub mod files_at_risk;
pub mod json;
pub mod options;
pub mod output;
pub mod page;
pub mod page_file;
pub mod page_frame;
pub mod page_parts;
pub mod text;
pub mod text_parts;

ghost use Rattle.cluster_report.specs.Sessions.{IsInStep};
ghost use Rattle.cluster_pages.specs.Output.{IsClusterReport};

use clap::Error;
use clap::error::ErrorKind;
use cluster_input::loaded_cluster::Loaded;
use cluster_input::options::{files_of, parse_load_options};
use cluster_input::sources::load;
use json::make_json;
use options::{Form, form_of, parse_words, wrong_value};
use output::{
    ClusterReport, PrintFault, make_report, print_output_fault, print_report, write_flushed,
};
use page::make_page;
use page_file::write_page;
use std::alloc::Global;
use std::io;
use std::io::Write;
use std::random::RandomSource;
use std::rt::Files;
use std::sync::Wait;
use std::thread::Threads;

const DONE: u8 = 0;

const FAULTED: u8 = 1;

const MISUSED: u8 = 2;

/// The program's name, in its messages.
const PROGRAM: &str = "report";

/// Makes the report for the words of a command line, the program's name first. Notes on refused
/// lines go to `notes`. Returns the exit status.
pub fn report_by_words<
    R: Input + Print + Eprint + Files + AllocGlobal + Threads + Wait + RandomSource + Sync,
    N: Print,
>(rt: &R, notes: &N, words: &[String]) -> u8 {
    let alloc: Global = rt.alloc();
    let matches = match parse_words(alloc, words) {
        Ok(matches) => matches,
        Err(error) => return print_error(rt, &error),
    };
    let Some(asked) = parse_load_options(&matches) else {
        return match wrong_value(alloc) {
            Ok(error) => print_error(rt, &error),
            Err(_) => print_out_of_memory(rt),
        };
    };
    match load(rt, notes, PROGRAM, &asked, files_of(&matches)) {
        Some((loaded, all_accepted)) => {
            let status = report_on(rt, &loaded, &form_of(&matches));
            drop(loaded);
            if all_accepted { status } else { FAULTED }
        }
        None => FAULTED,
    }
}

/// Prints why there is no report.
fn print_error<R: Print + Eprint>(rt: &R, error: &Error) -> u8 {
    if matches!(error.kind(), ErrorKind::OutOfMemory) {
        return print_out_of_memory(rt);
    }
    let _ = error.print(rt);
    if error.use_stderr() { MISUSED } else { DONE }
}

fn print_out_of_memory<R: Eprint>(rt: &R) -> u8 {
    let _ = rt.eprintln(format_args!("{PROGRAM}: memory fault"));
    FAULTED
}

fn report_on<R: Print + Eprint + Files + AllocGlobal>(
    rt: &R,
    loaded: &Loaded,
    form: &Form<'_>,
) -> u8
    requires { IsInStep loaded.now.session }
{
    let alloc: Global = rt.alloc();
    let Ok(cluster) = make_report(alloc, loaded) else {
        return print_out_of_memory(rt);
    };
    let status = write_report(rt, loaded, form, &cluster);
    drop(cluster);
    status
}

/// Writes the page, if one is asked for, and then prints the lines or the JSON value.
fn write_report<R: Print + Eprint + Files + AllocGlobal>(
    rt: &R,
    loaded: &Loaded,
    form: &Form<'_>,
    cluster: &ClusterReport,
) -> u8
    requires { IsClusterReport loaded.now cluster.now }
{
    let alloc: Global = rt.alloc();
    if let Some(path) = form.page {
        let Ok(page) = make_page(alloc, loaded, form.most, cluster) else {
            return print_out_of_memory(rt);
        };
        if !write_page(rt, PROGRAM, path, page) {
            return FAULTED;
        }
    }
    let mut writer = io::writer(rt);
    let printed = if form.is_json {
        print_json(alloc, &mut writer, loaded, form.most, cluster)
    } else {
        print_report(alloc, &mut writer, loaded, form.most, cluster)
    };
    match printed {
        Ok(()) => DONE,
        Err(fault) => {
            print_output_fault(rt, PROGRAM, &fault);
            FAULTED
        }
    }
}

/// Prints the report as one JSON value on a line.
fn print_json<W: Write>(
    alloc: Global,
    writer: &mut W,
    loaded: &Loaded,
    most: usize,
    cluster: &ClusterReport,
) -> Result<(), PrintFault> {
    let Ok(mut text) = make_json(alloc, loaded, most, cluster) else {
        return Err(PrintFault::Memory);
    };
    text.push_str("\n")?;
    match write_flushed(writer, text.as_bytes()) {
        Ok(()) => Ok(()),
        Err(error) => Err(PrintFault::Write(error)),
    }
}
