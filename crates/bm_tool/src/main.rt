//! The line tool: reads one JSON object a line from standard input, makes the call that it asks
//! for, and writes one line of text for it to standard output.
#![tactic(auto)]

ghost use Rattle.std.specs.Prelude.{◌≡◌, map, string_bytes};
ghost use Rattle.clap.specs.Words.{kind_of};
ghost use Rattle.bm_tool.specs.Options.{EndsBy, refusals_of};
ghost use Rattle.bm_tool.specs.Status.{end_of};

mod options;
mod status;

use bm_base::Config;
use bm_session::{Fault, FaultCounting, Summary, run};
use clap::Error;
use clap::error::ErrorKind;
use options::config_of;
use status::{End, fault_text, status_of};
use std::env::Env;
use std::io::{BufWriter, Write};
use std::process::ExitCode;
use std::random::RandomSource;
use std::sync::Wait;
use std::thread::Threads;
use std::{env, io};

/// Reads the options, and makes the run that they ask for.
fn main(rt: HostRuntime) -> ExitCode {
    ExitCode::from(status_of(end_of_run(&rt)))
}

fn end_of_run<R: Env + Input + Print + Eprint + AllocGlobal + Threads + Wait + RandomSource + Sync>(
    rt: &R,
) -> End {
    match read_arguments(rt) {
        Ok(words) => run_of_words(rt, words.as_slice()),
        Err(error) if error.kind() == io::ErrorKind::OutOfMemory => print_fault(rt, Fault::Memory),
        Err(_) => {
            let _ = rt.eprintln("error: an argument is not UTF-8");
            End::Misused
        }
    }
}

/// The words of the command line. Each is pushed, so that no refused growth is ignored.
fn read_arguments<R: Env + AllocGlobal>(rt: &R) -> io::Result<Vec<String>> {
    let mut words = Vec::new(rt.alloc());
    for word in env::args(rt)? {
        if words.push(word).is_err() {
            return Err(io::Error::from(io::ErrorKind::OutOfMemory));
        }
    }
    Ok(words)
}

fn run_of_words<R: Input + Print + Eprint + AllocGlobal + Threads + Wait + RandomSource + Sync>(
    rt: &R,
    words: &[String],
) -> End
    ensures { EndsBy (refusals_of (map string_bytes words.now)) result }
{
    match config_of(rt.alloc(), words) {
        Ok(config) => match run_on_streams(rt, &config) {
            Ok(_) => End::Answered,
            Err(fault) => print_fault(rt, fault),
        },
        Err(error) => print_error(rt, &error),
    }
}

/// Writes why there is no run.
fn print_error<R: Print + Eprint>(rt: &R, error: &Error) -> End
    ensures { result ≡ end_of (kind_of error.now) }
{
    if matches!(error.kind(), ErrorKind::OutOfMemory) {
        return print_fault(rt, Fault::Memory);
    }
    let _ = error.print(rt);
    if error.use_stderr() {
        End::Misused
    } else {
        End::Helped
    }
}

fn print_fault<R: Eprint>(rt: &R, fault: Fault) -> End
    ensures { result ≡ End.Faulted fault }
{
    let _ = rt.eprintln(fault_text(fault));
    End::Faulted(fault)
}

/// The whole run, from standard input to standard output.
fn run_on_streams<R: Input + Print + AllocGlobal + Threads + Wait + RandomSource + Sync>(
    rt: &R,
    config: &Config,
) -> Result<Summary, Fault> {
    let mut reader = FaultCounting::new(rt.reader());
    let Ok(buffered) = BufWriter::new(rt.alloc(), io::writer(rt)) else {
        return Err(Fault::Memory);
    };
    let mut writer = FaultCounting::new(buffered);
    let result = run(rt, rt.alloc(), &mut reader, &mut writer, config);
    // The answers before a fault are written too.
    let flushed = writer.into_inner().flush();
    match result {
        Ok(_) if flushed.is_err() => Err(Fault::Write),
        other => other,
    }
}
