//! The import: reads the output of `hdfs fsck / -files -blocks -locations -replicaDetails
//! -maintenance`, and writes lines that build that cluster in the line tool. The table of names
//! goes to standard error or into a file, the table of files into a file.
#![tactic(auto)]

mod destination;
pub mod fault;
mod file_table;
pub mod import;
pub mod line_writer;
pub mod lines;
pub mod listed_files;
mod name_table;
pub mod options;
pub mod text_reader;

use clap::Error;
use clap::error::ErrorKind;
use cluster_progress::watched_streams::{Meter, WatchedReader};
use destination::{Destination, Stream, TableFile};
use fault::Fault;
use fsck_cluster::Cluster;
use fsck_files::{LeftOut, Unclear};
use import::{Notes, import};
use options::{Arguments, parse_arguments};
use std::alloc::Global;
use std::fs::File;
use std::io::{BufReader, BufWriter, Read};
use std::rt::Files;
use std::{fmt, io};
use text_reader::{Reading, read_nodes};

const DONE: u8 = 0;

const FAULTED: u8 = 1;

const MISUSED: u8 = 2;

/// The program's name, in its messages.
const PROGRAM: &str = "import";

/// The number of lines that the line tool reads in a run.
const MOST_LINES: u64 = 1_048_576;

/// Runs the import for the words of a command line, the program's name first, from standard input
/// to standard output. The table of names goes to `notes` unless the words name a file; messages
/// are printed by `rt`. Returns the exit status: 0, 1 after a fault, or 2 if the words are refused.
pub fn import_by_words<R: Input + Print + Eprint + Files + AllocGlobal, N: Print>(
    rt: &R,
    notes: &N,
    words: &[String],
) -> u8 {
    match parse_arguments(rt.alloc(), words) {
        Ok(asked) => run_status(rt, notes, &asked),
        Err(error) => print_error(rt, &error),
    }
}

/// Prints why there is no run.
fn print_error<R: Print + Eprint>(rt: &R, error: &Error) -> u8 {
    if matches!(error.kind(), ErrorKind::OutOfMemory) {
        return print_fault(rt, &Fault::Memory);
    }
    let _ = error.print(rt);
    if error.use_stderr() { MISUSED } else { DONE }
}

/// Prints why a run ended early; nothing if the reader of the output went away.
fn print_fault<R: Eprint>(rt: &R, fault: &Fault) -> u8 {
    if !fault.is_closed_pipe() {
        let _ = rt.eprintln(format_args!("{PROGRAM}: {fault}"));
    }
    FAULTED
}

/// Prints why a file was not read.
fn print_file_fault<R: Eprint, E: fmt::Display>(rt: &R, path: &str, why: &E) -> u8 {
    let _ = rt.eprintln(format_args!("{PROGRAM}: {path}: {why}"));
    FAULTED
}

/// Reads the nodes of the report, if the words name one, and runs the import.
fn run_status<R: Input + Print + Eprint + Files + AllocGlobal, N: Print>(
    rt: &R,
    notes: &N,
    asked: &Arguments<'_>,
) -> u8 {
    let alloc: Global = rt.alloc();
    let Some(path) = asked.nodes else {
        return run_from(rt, notes, asked, Cluster::new(alloc));
    };
    let file = match File::open(rt, path) {
        Ok(file) => file,
        Err(error) => return print_file_fault(rt, path, &error),
    };
    match read_nodes_from(alloc, file) {
        Ok(nodes) => run_from(rt, notes, asked, nodes),
        Err(fault) => print_file_fault(rt, path, &fault),
    }
}

/// The nodes of a report in a file.
fn read_nodes_from<F: Read + Drop>(alloc: Global, file: F) -> Result<Cluster, Fault> {
    let Ok(mut reader) = BufReader::new(alloc, file) else {
        return Err(Fault::Memory);
    };
    read_nodes(alloc, &mut reader)
}

/// Runs the import on these nodes, with the tables of names and files where the words ask for them.
fn run_from<R: Input + Print + Eprint + Files + AllocGlobal, N: Print>(
    rt: &R,
    notes: &N,
    asked: &Arguments<'_>,
    nodes: Cluster,
) -> u8 {
    let mut files = match asked.files {
        Some(path) => Some(TableFile::new(rt, "files", path)),
        None => None,
    };
    let ended = match asked.names {
        Some(path) => {
            let mut names = TableFile::new(rt, "names", path);
            let ended = run(rt, asked, nodes, &mut names, &mut files);
            names.print_error(rt);
            ended
        }
        None => {
            let mut names = Stream {
                writer: io::writer(notes),
            };
            run(rt, asked, nodes, &mut names, &mut files)
        }
    };
    if let Some(table) = &files {
        table.print_error(rt);
    }
    print_outcome(rt, asked, ended)
}

/// Prints the notes, or the fault. The reason of a failed table was printed before.
fn print_outcome<R: Eprint>(rt: &R, asked: &Arguments<'_>, ended: Result<Notes, Fault>) -> u8 {
    match ended {
        Ok(notes) => {
            print_notes(rt, asked, &notes);
            DONE
        }
        Err(Fault::Table) => FAULTED,
        Err(fault) => print_fault(rt, &fault),
    }
}

fn print_notes<R: Eprint>(rt: &R, asked: &Arguments<'_>, notes: &Notes) {
    print_text_notes(rt, PROGRAM, asked.values.unclear, notes);
    if notes.lines > MOST_LINES {
        let lines = notes.lines;
        let _ = rt.eprintln(format_args!(
            "{PROGRAM}: warning: {lines} lines are more than the line tool reads in a run \
             ({MOST_LINES}); ./puljemrod report has no such limit"
        ));
    }
}

/// Prints what was left out of a text or is uncertain, each line after the program's name.
pub fn print_text_notes<R: Eprint>(rt: &R, program: &str, unclear: Unclear, notes: &Notes) {
    print_left_out(rt, program, &notes.left_out);
    let (block, blocks) = match unclear {
        Unclear::Good => (
            "block with more places than live replicas taken with each place as good",
            "blocks with more places than live replicas taken with each place as good",
        ),
        Unclear::Omit | Unclear::Refuse => (
            "block with more places than live replicas left out",
            "blocks with more places than live replicas left out",
        ),
    };
    print_count(rt, program, notes.unclear_blocks, block, blocks);
    print_count(
        rt,
        program,
        notes.maintained,
        "replica on a node in maintenance taken as live",
        "replicas on nodes in maintenance taken as live",
    );
    print_not_in_text(rt, program, notes);
}

/// Prints which files the text lacks: those being written, or all outside its path. Replicas of
/// their blocks are stray.
fn print_not_in_text<R: Eprint>(rt: &R, program: &str, notes: &Notes) {
    let files = notes.unlisted;
    if files > 0 {
        let are = if files == 1 {
            "file being written is"
        } else {
            "files being written are"
        };
        let _ = rt.eprintln(format_args!("{program}: {files} {are} not in the text"));
    }
    if !notes.is_of_all {
        let _ = rt.eprintln(format_args!("{program}: the text is of one path alone, and not of /"));
    }
}

fn print_left_out<R: Eprint>(rt: &R, program: &str, left_out: &LeftOut) {
    print_count(
        rt,
        program,
        left_out.erasure_coded,
        "erasure coded file left out",
        "erasure coded files left out",
    );
    print_count(
        rt,
        program,
        left_out.over_replicated,
        "file with more than 16 replicas left out",
        "files with more than 16 replicas left out",
    );
    print_count(
        rt,
        program,
        left_out.open_files,
        "file that is being written left out",
        "files that are being written left out",
    );
    print_count(
        rt,
        program,
        left_out.snapshots,
        "file in a snapshot left out",
        "files in snapshots left out",
    );
}

/// Prints a count with the words for one or for several; prints nothing for 0.
fn print_count<R: Eprint>(rt: &R, program: &str, count: u64, one: &str, several: &str) {
    if count > 0 {
        let what = if count == 1 { one } else { several };
        let _ = rt.eprintln(format_args!("{program}: {count} {what}"));
    }
}

/// Runs the import from standard input to standard output.
fn run<R: Input + Print + Eprint + AllocGlobal, N: Destination, F: Destination>(
    rt: &R,
    asked: &Arguments<'_>,
    nodes: Cluster,
    names: &mut N,
    files: &mut F,
) -> Result<Notes, Fault> {
    let alloc: Global = rt.alloc();
    let values = asked.values;
    let keeps_files = asked.files.is_some();
    let start = Reading::new(alloc, nodes, values.skips, values.unclear, keeps_files);
    let meter = Meter::new(asked.input_bytes);
    let input = WatchedReader::new(rt.reader(), rt, Some(&meter));
    let Ok(mut reader) = BufReader::new(alloc, input) else {
        drop(start);
        return Err(Fault::Memory);
    };
    let Ok(mut writer) = BufWriter::new(alloc, io::writer(rt)) else {
        drop(start);
        return Err(Fault::Memory);
    };
    let ended = import(
        alloc,
        start,
        values.remaining,
        &mut reader,
        &mut writer,
        names,
        files,
    );
    meter.clear(rt);
    ended
}
