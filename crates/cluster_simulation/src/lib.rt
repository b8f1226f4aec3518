//! A made-up cluster, round by round: its nodes, the blocks placed on them, and the copies that are
//! made once something goes wrong. In one round racks, nodes and disks are lost, nodes drain, or
//! replicas are found corrupt. The block manager's answers are counted after each round, and
//! written as a table (CSV) or as a picture (SVG). The same options give the same bytes.
//!
//! ```text
//! puljemrod_cluster simulate --lose rack:1 --rounds 100 --svg > rack.svg
//! ```
//!
//! The incidents happen as round `--at` begins. From then on DataNodes do what `what-if --mend` has
//! them do (`cluster_repair`). At the start of a round they report the copies that have arrived,
//! the deletes of the round before and their free bytes. Then the manager takes its round, and they
//! obey. Each sends one copy after another and receives one after another. A round comes at the
//! first multiple of `--interval` at which fewer copies are on their way than it may command. A
//! line of the table is a round, and no length of time. Each disk has capacity for twice its share
//! of the replicas.
//!
//! After each round the known blocks at each level are counted (`missing` are those without a
//! usable replica). So are the copies that the manager awaits, the replicas in excess and the
//! corrupt ones. The other counts are the copies and deletes that the round commands, and the calls
//! that the manager refused since the previous round. Dead nodes report nothing, so the manager has
//! nothing to refuse.
//!
//! The numbers of `examples/stories/one_of_two_racks_dies.csv` follow from the rules, whatever is
//! drawn. There are four nodes, two on each of two racks, and six blocks, each with one replica on
//! each rack. In round 5 the nodes of one rack die. At 1,000 megabytes a second all copies that a
//! round commands arrive before the next:
//! - Round 5: each block has one live replica, and wants two, so all six are of the highest
//!   urgency, and one copy of each is requested. A round commands two copies for each of the two
//!   nodes that are left: four. A node may send four of the highest urgency, and the other node of
//!   the rack, which has no replica of the block, is the target.
//! - Round 6: the four copies have arrived. Their blocks have two live replicas; both are on one
//!   rack, but it is the only one. The two other blocks get their copies.
//! - Round 7: these two have arrived, and nothing more is requested.
//!
//! The exit status is 1 when out of memory or when a write fails, and 2 for invalid options.
#![tactic(auto)]

mod arrivals;
mod block_counts;
mod cluster;
mod corrupt_replicas;
pub mod counts;
mod csv;
mod dice;
mod fault;
mod help;
mod incident;
mod losses;
mod made_up_cluster;
mod misuse;
mod nodes;
mod options;
mod placement;
mod plan;
mod rounds;
mod scale;
mod shape;
mod simulation;
pub mod svg;

use bm_base::{HashSecret, Refusal};
use clap::Error;
use clap::error::ErrorKind;
use cluster_progress::Progress;
use counts::Counts;
use csv::csv_text;
use fault::Fault;
use options::{Arguments, Form, Options, parse_arguments};
use plan::Plan;
use rounds::take_all_rounds;
use simulation::Simulation;
use std::alloc::Global;
use std::io;
use std::io::Write;
use std::random::RandomSource;
use std::sync::Wait;
use std::thread::Threads;
use svg::svg_text;

const DONE: u8 = 0;

const FAULTED: u8 = 1;

const MISUSED: u8 = 2;

/// Runs the command line in `words`, the program's name first, and writes to standard output. The
/// result is the exit status.
pub fn simulate_by_words<R: Print + Eprint + AllocGlobal + Threads + Wait + RandomSource + Sync>(
    rt: &R,
    words: &[String],
) -> u8 {
    match parse_arguments(rt.alloc(), words) {
        Ok(asked) => match simulate(rt, asked) {
            Ok(()) => DONE,
            Err(fault) => print_fault(rt, fault),
        },
        Err(error) => print_error(rt, &error),
    }
}

/// Reports why there is no simulation.
fn print_error<R: Print + Eprint>(rt: &R, error: &Error) -> u8 {
    if matches!(error.kind(), ErrorKind::OutOfMemory) {
        return print_fault(rt, Fault::Memory);
    }
    let _ = error.print(rt);
    if error.use_stderr() { MISUSED } else { DONE }
}

fn print_fault<R: Eprint>(rt: &R, fault: Fault) -> u8 {
    if !fault.is_closed_pipe() {
        let _ = rt.eprintln(format_args!("simulate: {fault}"));
    }
    FAULTED
}

fn simulate<R: Print + Eprint + AllocGlobal + Threads + Wait + RandomSource + Sync>(
    rt: &R,
    asked: Arguments,
) -> Result<(), Fault> {
    let text = write_result(rt, rt.alloc(), asked)?;
    let mut writer = io::writer(rt);
    if let Err(error) = writer.write_all(text.as_bytes()) {
        return Err(Fault::Write(error));
    }
    match writer.flush() {
        Ok(()) => Ok(()),
        Err(error) => Err(Fault::Write(error)),
    }
}

/// Writes the table or the picture of all rounds.
fn write_result<R: Eprint + Threads + Wait + RandomSource + Sync>(
    rt: &R,
    alloc: Global,
    asked: Arguments,
) -> Result<String, Fault> {
    let Arguments {
        options,
        plan,
        shows_progress,
    } = asked;
    let mut progress = Progress::new(shows_progress);
    let rows = all_rounds(rt, alloc, &options, &plan, &mut progress);
    progress.end(rt);
    let rows = rows?;
    let text = match options.form {
        Form::Csv => csv_text(alloc, rows.as_slice())?,
        Form::Svg => svg_text(alloc, &options, &plan, rows.as_slice())?,
    };
    Ok(text)
}

/// The counts of each round. The tables hash by a secret that is drawn here, on which no count
/// depends.
fn all_rounds<R: Eprint + Threads + Wait + RandomSource + Sync>(
    rt: &R,
    alloc: Global,
    options: &Options,
    plan: &Plan,
    progress: &mut Progress,
) -> Result<Vec<Counts>, Refusal> {
    let mut simulation = Simulation::new(alloc, HashSecret::draw(rt))?;
    let mut rows = Vec::new(alloc);
    let taken = take_all_rounds(rt, &mut simulation, options, plan, &mut rows, progress);
    drop(simulation);
    taken?;
    Ok(rows)
}
