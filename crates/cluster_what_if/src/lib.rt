//! Shows the losses if racks, nodes and storages fail. Reads lines of the line tool or a text of
//! `hdfs fsck`, and makes their calls on one manager. Then it prints the state of the cluster after
//! the losses, before any round. With `--mend` it goes on with rounds until nothing more is copied.
//!
//! ```text
//! puljemrod_cluster what-if --lose rack:1 cluster.jsonl
//! puljemrod_cluster what-if --lose rack:/rack7 --nodes nodes.txt fsck.txt
//! ```
//!
//! The answer has a line for each fact (docs/CLUSTERS.md). For `each-rack` and `each-node` it is a
//! table of the losses if each is lost alone.
//!
//! The exit status is 0. It is 1 if a line was refused, a name is unknown, a read or a write
//! failed, or if out of memory. It is 2 for invalid options.
#![tactic(auto)]

mod answers;
mod columns;
mod findings;
mod help;
mod options;
mod output;
mod page;
mod page_rounds;
mod page_table;
mod repair_picture;
mod repair_text;
mod shown_rows;
mod table;
mod text;

ghost use Rattle.std.specs.Prelude.{◌≡◌, false};
ghost use Rattle.bm_base.specs.Words.{Appends};
ghost use Rattle.cluster_report.specs.Sessions.{IsInStep};
ghost use Rattle.cluster_what_if.specs.Output.{IsPrinted, found_text};

use clap::Error;
use clap::error::ErrorKind;
use cluster_input::loaded_cluster::Loaded;
use cluster_input::options::files_of;
use cluster_input::sources::load;
use cluster_losses::fault::Fault;
use cluster_losses::loss::{Loss, Question};
use cluster_losses::loss_events::unknown_of;
use cluster_pages::output::print_output_fault;
use cluster_pages::page_file::write_page;
use cluster_progress::Progress;
use findings::{Findings, find};
use options::{Arguments, parse_arguments, parse_words};
use output::{print_lines, print_picture};
use page::found_page;
use std::alloc::Global;
use std::io;
use std::io::Write;
use std::random::RandomSource;
use std::rt::Files;
use std::sync::Wait;
use std::thread::Threads;

const DONE: u8 = 0;

const FAULTED: u8 = 1;

const MISUSED: u8 = 2;

/// The program's name, in its messages.
const PROGRAM: &str = "what-if";

/// Runs a command line, the program's name first. Prints the answer to standard output, and notes
/// on refused lines to `notes`. Returns the exit status.
pub fn losses_by_words<
    R: Input + Print + Eprint + Files + AllocGlobal + Threads + Wait + RandomSource + Sync,
    N: Print,
>(rt: &R, notes: &N, words: &[String]) -> u8 {
    let alloc: Global = rt.alloc();
    let matches = match parse_words(alloc, words) {
        Ok(matches) => matches,
        Err(error) => return print_error(rt, &error),
    };
    let asked = match parse_arguments(alloc, &matches) {
        Ok(asked) => asked,
        Err(error) => return print_error(rt, &error),
    };
    match load(rt, notes, PROGRAM, &asked.input, files_of(&matches)) {
        Some((mut loaded, all_accepted)) => {
            let status = answer(rt, &mut io::writer(rt), &mut loaded, &asked);
            drop(loaded);
            if all_accepted { status } else { FAULTED }
        }
        None => FAULTED,
    }
}

/// Prints why there is no answer.
fn print_error<R: Print + Eprint>(rt: &R, error: &Error) -> u8 {
    if matches!(error.kind(), ErrorKind::OutOfMemory) {
        return print_fault(rt, Fault::Memory);
    }
    let _ = error.print(rt);
    if error.use_stderr() { MISUSED } else { DONE }
}

fn print_fault<R: Eprint>(rt: &R, fault: Fault) -> u8
    ensures { result ≡ 1 }
{
    let _ = rt.eprintln(format_args!("{PROGRAM}: {fault}"));
    FAULTED
}

/// The answer about a cluster: the page, if one is asked for, and then the lines or the picture.
/// The status is `DONE` only if all of it is written.
#[tactic(auto, using(crate::proofs::WholeAnswers::printed))]
fn answer<R: Eprint + Files + AllocGlobal + Threads + Wait + Sync, W: Write>(
    rt: &R,
    writer: &mut W,
    loaded: &mut Loaded,
    asked: &Arguments<'_>,
) -> u8
    requires { IsInStep loaded.old.session }
    ensures { result ≡ 0 → asked.now.is_picture ≡ false
        → IsPrinted asked.now.question asked.now.pace asked.now.most loaded.old loaded.new
        (W.contents writer.old) (W.contents writer.new) }
{
    let mut progress = Progress::new(asked.shows_progress);
    let found = find(rt, rt.alloc(), loaded, asked, &mut progress);
    progress.end(rt);
    match found {
        Ok(found) => {
            let status = write_found(rt, writer, loaded, asked, &found);
            drop(found);
            status
        }
        Err(fault) => print_find_fault(rt, loaded, &asked.question, fault),
    }
}

/// Prints why there is no answer: which name is unknown, if one is.
fn print_find_fault<R: Eprint + AllocGlobal>(
    rt: &R,
    loaded: &Loaded,
    question: &Question<'_>,
    fault: Fault,
) -> u8
    ensures { result ≡ 1 }
{
    match unknown_of(rt.alloc(), loaded, question) {
        Some(Loss { kind, name }) => {
            let _ = rt.eprintln(format_args!(
                "{PROGRAM}: the cluster has no {kind} {name}; `report` lists the names"
            ));
            FAULTED
        }
        None => print_fault(rt, fault),
    }
}

/// Writes the page, if one is asked for, and then the lines or the picture.
fn write_found<R: Eprint + Files + AllocGlobal, W: Write>(
    rt: &R,
    writer: &mut W,
    loaded: &Loaded,
    asked: &Arguments<'_>,
    found: &Findings,
) -> u8
    ensures { result ≡ 0 → asked.now.is_picture ≡ false
        → Appends (W.contents writer.old) (W.contents writer.new)
        (found_text loaded.now.names loaded.now.files asked.now.most found.now) }
{
    let alloc: Global = rt.alloc();
    let (names, files, most) = (&loaded.names, &loaded.files, asked.most);
    if let Some(path) = asked.page {
        let Ok(page) = found_page(alloc, names, files, most, found) else {
            return print_fault(rt, Fault::Memory);
        };
        if !write_page(rt, PROGRAM, path, page) {
            return FAULTED;
        }
    }
    let printed = if asked.is_picture {
        print_picture(alloc, writer, found)
    } else {
        print_lines(alloc, writer, names, files, most, found)
    };
    match printed {
        Ok(()) => DONE,
        Err(fault) => {
            print_output_fault(rt, PROGRAM, &fault);
            FAULTED
        }
    }
}
