// Reads the lines of the input.
ghost use Rattle.std.specs.Prelude.{◌≡◌, ◌⊎◌, Some, IfOk, OnOk, IfSome, is_none};
ghost use Rattle.bm_base.specs.Words.{Appends};
ghost use Rattle.bm_lines.specs.Lines.{lines_of};
ghost use Rattle.cluster_report.specs.Sessions.{IsInStep};
ghost use Rattle.cluster_report.specs.LineNotes.{without_end, refusal_text, after_line, after_lines, IsAllAccepted, note_text, notes_text};

use crate::fault::Fault;
use crate::session::Session;
use std::alloc::Global;
use std::io;
use std::io::{BufRead, ErrorKind, Write};
use std::sync::Wait;
use std::thread::Threads;

/// Takes every line, and returns whether all were accepted. Each refused line gets a note with its
/// number. Holds one line at a time.
pub fn read_lines<R: BufRead, N: Write, H: Threads + Wait + Sync>(
    rt: &H,
    alloc: Global,
    session: &mut Session,
    reader: &mut R,
    notes: &mut N,
) -> Result<bool, Fault>
    requires { IsInStep session.old }
    ensures state { OnOk result (IfSome (R.remaining reader.old) (λ input.
        session.new.manager ≡ after_lines session.old.manager (lines_of input))) }
    ensures accepted { IfOk result (λ all.
        IsAllAccepted all session.old.manager (R.remaining reader.old)) }
    ensures notes { OnOk result (IfSome (R.remaining reader.old) (λ input.
        Appends (N.contents notes.old) (N.contents notes.new)
        (notes_text 1 session.old.manager (lines_of input)))) }
    ensures in_step { OnOk result (IsInStep session.new) }
{
    let mut all_accepted = true;
    let mut line = Vec::new(alloc);
    for number in 1..u64::MAX {
        line.clear();
        match reader.read_until(b'\n', &mut line) {
            Ok(0) => return Ok(all_accepted),
            Ok(_) => {}
            Err(error) => return Err(read_fault(&error)),
        }
        let text = without_end(line.as_slice());
        let is_accepted = take_line(rt, alloc, session, notes, number, text)?;
        all_accepted = all_accepted && is_accepted;
    }
    Err(Fault::Read)
}

/// Takes a line, and returns whether it was accepted. A refused line gets a note with its number.
fn take_line<N: Write, H: Threads + Wait + Sync>(
    rt: &H,
    alloc: Global,
    session: &mut Session,
    notes: &mut N,
    number: u64,
    line: &[u8],
) -> Result<bool, Fault>
    requires { IsInStep session.old }
    ensures state { OnOk result (session.new.manager
        ≡ after_line session.old.manager line.now) }
    ensures accepted { IfOk result (λ is. is ≡ is_none (refusal_text session.old.manager line.now)) }
    ensures notes { OnOk result (Appends (N.contents notes.old) (N.contents notes.new)
        (note_text number (refusal_text session.old.manager line.now))) }
    ensures in_step { OnOk result (IsInStep session.new) }
{
    match session.take_line(rt, line)? {
        Some(why) => {
            write_note(alloc, notes, number, why.as_str())?;
            Ok(false)
        }
        None => Ok(true),
    }
}

/// Writes the note on a refused line.
#[tactic(auto, unfolding(crate::specs::LineNotes::note_text))]
pub fn write_note<N: Write>(
    alloc: Global,
    notes: &mut N,
    number: u64,
    why: &str,
) -> Result<(), Fault>
    ensures { OnOk result (Appends (N.contents notes.old) (N.contents notes.new)
        (note_text number (Some why.now))) }
{
    let note = format!(in alloc; "line {number}: {why}\n")?;
    if notes.write_all(note.as_bytes()).is_err() {
        return Err(Fault::Write);
    }
    Ok(())
}

/// A line without its line end.
pub fn without_end(line: &[u8]) -> &[u8]
    ensures { result.now ≡ without_end line.now }
{
    line.strip_suffix(b"\n".as_slice()).unwrap_or(line)
}

/// The fault of a failed read: out of memory, or a read error.
pub fn read_fault(error: &io::Error) -> Fault
    ensures { (result ≡ Fault.Memory) ⊎ (result ≡ Fault.Read) }
{
    if error.kind() == ErrorKind::OutOfMemory {
        Fault::Memory
    } else {
        Fault::Read
    }
}
