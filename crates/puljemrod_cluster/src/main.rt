//! Tools for clusters, chosen by the first word. `import` converts the output of `hdfs fsck` to
//! lines of the line tool. `report` prints the state of a cluster, from such lines or from fsck.
//! `what-if` prints the losses if a part of the cluster fails. `simulate` shows how a made-up
//! cluster recovers.
//!
//! ```text
//! puljemrod_cluster report < cluster.jsonl
//! ```
//!
//! `--help` in place of the word names the words, and after a word its options with examples.
//! `--version`, in place of the word or behind it, prints the version. The exit status is 0. It is
//! 1 after a fault, if `report` or `what-if` met a refused line, or if `what-if` was asked about a
//! name that the cluster does not have. It is 2 for invalid options. The stored run is a report,
//! which `crates/cluster_pages/src/lib.rt` explains.
#![tactic(auto)]

use cluster_pages::report_by_words;
use cluster_simulation::simulate_by_words;
use cluster_what_if::losses_by_words;
use fsck_import::import_by_words;
use std::env::Env;
use std::process::ExitCode;
use std::random::RandomSource;
use std::rt::Files;
use std::sync::Wait;
use std::thread::Threads;
use std::{env, io};

const DONE: u8 = 0;

const FAULTED: u8 = 1;

const MISUSED: u8 = 2;

/// The file `VERSION` at the top of the repository has it too.
const VERSION: &str = "puljemrod_cluster 2.0.0";

const HELP: &str = "Tools for HDFS clusters, chosen by the first word

Usage: puljemrod_cluster WORD [OPTIONS] [FILE]...

Words:
  import    writes what hdfs fsck says of a cluster as lines of the line tool
  report    prints the state of a cluster, from such lines or from a text of hdfs fsck
  what-if   prints what is lost with racks, nodes or storages, and how long repair takes
  simulate  shows how a made-up cluster of DataNodes recovers, round by round

`puljemrod_cluster WORD --help` prints the options of a word, with examples; --version, with or
without a word, prints the version.";

fn main(rt: HostRuntime) -> ExitCode {
    ExitCode::from(status_of(&rt, &rt.stderr()))
}

fn status_of<
    R: Env + Input + Print + Eprint + Files + AllocGlobal + Threads + Wait + RandomSource + Sync,
    N: Print,
>(rt: &R, notes: &N) -> u8 {
    match read_arguments(rt) {
        Ok(words) => status_by_words(rt, notes, words.get(1..).unwrap_or(&[])),
        Err(error) if error.kind() == io::ErrorKind::OutOfMemory => {
            let _ = rt.eprintln("puljemrod_cluster: memory fault");
            FAULTED
        }
        Err(_) => {
            let _ = rt.eprintln("error: an argument is not UTF-8");
            MISUSED
        }
    }
}

/// The words of the command line. Each is pushed, so that no refused growth is ignored.
fn read_arguments<R: Env + AllocGlobal>(rt: &R) -> io::Result<Vec<String>> {
    let mut words = Vec::new(rt.alloc());
    for word in env::args(rt)? {
        if words.push(word).is_err() {
            return Err(io::Error::from(io::ErrorKind::OutOfMemory));
        }
    }
    Ok(words)
}

/// Whether a word asks for the version.
fn is_version(word: Option<&String>) -> bool {
    matches!(word.map(String::as_str), Some("-V" | "--version"))
}

/// Runs the command of the first word, with the other words as its options.
fn status_by_words<
    R: Input + Print + Eprint + Files + AllocGlobal + Threads + Wait + RandomSource + Sync,
    N: Print,
>(rt: &R, notes: &N, words: &[String]) -> u8 {
    if is_version(words.first()) || is_version(words.get(1)) {
        let _ = rt.println(VERSION);
        return DONE;
    }
    match words.first().map(String::as_str) {
        Some("import") => import_by_words(rt, notes, words),
        Some("report") => report_by_words(rt, notes, words),
        Some("simulate") => simulate_by_words(rt, words),
        Some("what-if") => losses_by_words(rt, notes, words),
        Some("-h" | "--help") => {
            let _ = rt.println(HELP);
            DONE
        }
        _ => {
            let _ = rt.eprintln(
                "error: the first word is none of import, report, simulate and what-if",
            );
            MISUSED
        }
    }
}
