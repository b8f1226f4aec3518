// Loads a cluster from files or from standard input.
ghost use Rattle.std.specs.Prelude.{◌≡◌, None, IfSome};
ghost use Rattle.cluster_report.specs.Sessions.{IsInStep};

use crate::fault::Fault;
use crate::loaded_cluster::Loaded;
use crate::options::LoadOptions;
use bm_base::HashSecret;
use cluster_progress::watched_streams::{Meter, NoteWriter, WatchedReader};
use fsck_cluster::Cluster;
use fsck_import::print_text_notes;
use fsck_import::text_reader::{Reading, read_nodes};
use std::alloc::Global;
use std::fs::File;
use std::io;
use std::io::{BufReader, Write};
use std::random::RandomSource;
use std::rt::Files;
use std::sync::Wait;
use std::thread::Threads;

/// The messages of loading: the program's name, and the progress line, which each message erases
/// first.
#[derive(Drop)]
struct Console<'c, R> {
    rt: &'c R,
    program: &'c str,
    meter: &'c Meter,
}

/// Loads the cluster of these files, or of standard input if there are none. The result has whether
/// every call was accepted. Refused lines go to `notes`. If nothing was loaded, the reason is
/// printed to standard error after the program's name. The tables hash by a secret that is drawn
/// here, so that nobody can make loading slow by colliding numbers.
pub fn load<
    R: Input + Eprint + Files + AllocGlobal + Threads + Wait + RandomSource + Sync,
    N: Print,
>(
    rt: &R,
    notes: &N,
    program: &str,
    asked: &LoadOptions<'_>,
    files: Option<&[&str]>,
) -> Option<(Loaded, bool)>
    ensures { IfSome result (λ p. IsInStep p.0.session) }
{
    let meter = Meter::new(asked.input_bytes);
    let console = Console {
        rt,
        program,
        meter: &meter,
    };
    let nodes = read_node_list(&console, asked)?;
    let mut loaded = match Loaded::new(rt.alloc(), &asked.config, HashSecret::draw(rt)) {
        Ok(loaded) => loaded,
        Err(fault) => {
            drop(nodes);
            return print_load_fault(&console, None, &fault, None);
        }
    };
    let start = initial_state(rt.alloc(), nodes, asked);
    let mut writer = NoteWriter::new(io::writer(notes), rt, &meter);
    let taken = take_all(&console, &mut loaded, start, asked, files, &mut writer);
    let Some(all_accepted) = taken else {
        drop(loaded);
        return None;
    };
    meter.clear(rt);
    if let Some(notes) = &loaded.notes {
        print_text_notes(rt, program, asked.values.unclear, notes);
    }
    Some((loaded, all_accepted))
}

/// The state before the first line, with the known nodes.
fn initial_state(alloc: Global, nodes: Cluster, asked: &LoadOptions<'_>) -> Reading {
    Reading::new(alloc, nodes, asked.values.skips, asked.values.unclear, true)
}

/// Prints a fault of a file or of standard input, with the system's message for a failed read.
/// Nothing was loaded.
fn print_load_fault<R: Eprint, T>(
    console: &Console<'_, R>,
    path: Option<&str>,
    fault: &Fault,
    error: Option<io::Error>,
) -> Option<T>
    ensures { result ≡ None }
{
    let (rt, program) = (console.rt, console.program);
    console.meter.clear(rt);
    let reason = if matches!(fault, Fault::Read) {
        error
    } else {
        None
    };
    let _ = match (path, reason) {
        (Some(path), Some(error)) => {
            rt.eprintln(format_args!("{program}: {path}: {fault}: {error}"))
        }
        (Some(path), None) => rt.eprintln(format_args!("{program}: {path}: {fault}")),
        (None, Some(error)) => rt.eprintln(format_args!("{program}: {fault}: {error}")),
        (None, None) => rt.eprintln(format_args!("{program}: {fault}")),
    };
    None
}

/// Reads the nodes of the report on DataNodes, if one is named. The progress does not count it.
fn read_node_list<R: Eprint + Files + AllocGlobal>(
    console: &Console<'_, R>,
    asked: &LoadOptions<'_>,
) -> Option<Cluster> {
    let alloc: Global = console.rt.alloc();
    let Some(path) = asked.nodes else {
        return Some(Cluster::new(alloc));
    };
    let mut reader = open_file(console, None, path)?;
    match read_nodes(alloc, &mut reader) {
        Ok(nodes) => Some(nodes),
        Err(fault) => {
            let fault = Fault::from(fault);
            print_load_fault(console, Some(path), &fault, reader.get_ref().error())
        }
    }
}

/// A file, opened for reading.
fn open_file<'c, R: Eprint + Files + AllocGlobal>(
    console: &Console<'c, R>,
    meter: Option<&'c Meter>,
    path: &str,
) -> Option<BufReader<WatchedReader<'c, R::File, R>>> {
    let alloc: Global = console.rt.alloc();
    let file = file_at(console, path)?;
    let watched = WatchedReader::new(file, console.rt, meter);
    let Ok(reader) = BufReader::new(alloc, watched) else {
        let _: Option<()> = print_load_fault(console, Some(path), &Fault::Memory, None);
        return None;
    };
    Some(reader)
}

/// Opens a file. Prints the system's message if that fails.
fn file_at<R: Eprint + Files>(console: &Console<'_, R>, path: &str) -> Option<R::File> {
    match File::open(console.rt, path) {
        Ok(file) => Some(file),
        Err(error) => {
            let (rt, program) = (console.rt, console.program);
            console.meter.clear(rt);
            let _ = rt.eprintln(format_args!("{program}: {path}: {error}"));
            None
        }
    }
}

/// Reads these files, or standard input if there are none.
fn take_all<R: Input + Eprint + Files + AllocGlobal + Threads + Wait + Sync, W: Write>(
    console: &Console<'_, R>,
    loaded: &mut Loaded,
    start: Reading,
    asked: &LoadOptions<'_>,
    files: Option<&[&str]>,
    notes: &mut W,
) -> Option<bool>
    requires { IsInStep loaded.old.session }
    ensures { IfSome result (λ all. IsInStep loaded.new.session) }
{
    match files {
        None => take_input(console, loaded, start, asked, notes),
        Some(paths) => take_files(console, loaded, start, asked, paths, notes),
    }
}

/// Reads standard input.
fn take_input<R: Input + Eprint + AllocGlobal + Threads + Wait + Sync, W: Write>(
    console: &Console<'_, R>,
    loaded: &mut Loaded,
    start: Reading,
    asked: &LoadOptions<'_>,
    notes: &mut W,
) -> Option<bool>
    requires { IsInStep loaded.old.session }
    ensures { IfSome result (λ all. IsInStep loaded.new.session) }
{
    let rt = console.rt;
    let input = WatchedReader::new(rt.reader(), rt, Some(console.meter));
    let Ok(mut reader) = BufReader::new(rt.alloc(), input) else {
        drop(start);
        return print_load_fault(console, None, &Fault::Memory, None);
    };
    match loaded.take_text(rt, start, asked.values.remaining, &mut reader, notes) {
        Ok(all_accepted) => Some(all_accepted),
        Err(fault) => print_load_fault(console, None, &fault, reader.get_ref().error()),
    }
}

/// Reads these files, one after another.
fn take_files<R: Eprint + Files + AllocGlobal + Threads + Wait + Sync, W: Write>(
    console: &Console<'_, R>,
    loaded: &mut Loaded,
    start: Reading,
    asked: &LoadOptions<'_>,
    paths: &[&str],
    notes: &mut W,
) -> Option<bool>
    requires { IsInStep loaded.old.session }
    ensures { IfSome result (λ all. IsInStep loaded.new.session) }
{
    let Some((path, others)) = paths.split_first() else {
        drop(start);
        return Some(true);
    };
    let first = take_first(console, loaded, start, asked, path, notes);
    take_others(console, loaded, first, others, notes)
}

/// Reads the first file, which may be a text of fsck.
fn take_first<R: Eprint + Files + AllocGlobal + Threads + Wait + Sync, W: Write>(
    console: &Console<'_, R>,
    loaded: &mut Loaded,
    start: Reading,
    asked: &LoadOptions<'_>,
    path: &str,
    notes: &mut W,
) -> Option<bool>
    requires { IsInStep loaded.old.session }
    ensures { IfSome result (λ all. IsInStep loaded.new.session) }
{
    let Some(mut reader) = open_file(console, Some(console.meter), path) else {
        drop(start);
        return None;
    };
    match loaded.take_text(
        console.rt,
        start,
        asked.values.remaining,
        &mut reader,
        notes,
    ) {
        Ok(all_accepted) => Some(all_accepted),
        Err(fault) => print_load_fault(console, Some(path), &fault, reader.get_ref().error()),
    }
}

/// Reads the other files, which hold lines of the tool, unless there was a fault before.
fn take_others<R: Eprint + Files + AllocGlobal + Threads + Wait + Sync, W: Write>(
    console: &Console<'_, R>,
    loaded: &mut Loaded,
    before: Option<bool>,
    paths: &[&str],
    notes: &mut W,
) -> Option<bool>
    requires { IfSome before (λ all. IsInStep loaded.old.session) }
    ensures { IfSome result (λ all. IsInStep loaded.new.session) }
{
    let mut all_accepted = before?;
    for path in paths {
        let is_accepted = take_other(console, loaded, path, notes)?;
        all_accepted = all_accepted && is_accepted;
    }
    Some(all_accepted)
}

fn take_other<R: Eprint + Files + AllocGlobal + Threads + Wait + Sync, W: Write>(
    console: &Console<'_, R>,
    loaded: &mut Loaded,
    path: &str,
    notes: &mut W,
) -> Option<bool>
    requires { IsInStep loaded.old.session }
    ensures { IfSome result (λ all. IsInStep loaded.new.session) }
{
    let mut reader = open_file(console, Some(console.meter), path)?;
    match loaded.take_more(console.rt, &mut reader, notes) {
        Ok(true) => Some(true),
        Ok(false) => {
            let (rt, program) = (console.rt, console.program);
            console.meter.clear(rt);
            let _ = rt.eprintln(format_args!(
                "{program}: the lines above are of {path}; a text of fsck comes first, and one of \
                 dfsadmin by --nodes"
            ));
            Some(false)
        }
        Err(fault) => print_load_fault(console, Some(path), &fault, reader.get_ref().error()),
    }
}
