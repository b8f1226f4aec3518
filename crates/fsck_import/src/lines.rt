// The lines of a text, one after another.
ghost use Rattle.std.specs.Prelude.{◌≡◌, Ok, OnOk, IfOk, IfErr, List, ℕ, ◌⊎◌, Result};
ghost use Rattle.fsck_import.specs.Causes.{IsCause};
ghost use Rattle.fsck_import.specs.Lines.{after_bytes, without_end, at_line, TextGives, IsReadFault, IsFaultOfText};
ghost use Rattle.fsck_import.specs.declared.fault.Cause.{Cause as TheCause};

use crate::fault::{Cause, Fault, LineFault, Unread};
use std::alloc::Global;
use std::io;
use std::io::{BufRead, ErrorKind};

/// A reader of the lines of a text.
pub trait TakesLines {
    /// The state after one more line, or the cause if the line is refused.
    ghost after: { Self → List ℕ → Result Self TheCause };

    /// Takes one more line.
    fn take_line(&mut self, alloc: Global, line: &str) -> Result<(), LineFault>
        ensures ok { OnOk result (after self.old line.now ≡ Ok self.new) }
        ensures refused { IfErr result (λ f. IsCause f (after self.old line.now)) };
}

/// Takes every line of a text. Returns the number that the line after the last would have.
pub fn take_lines<R: BufRead, T: TakesLines>(
    alloc: Global,
    reader: &mut R,
    taker: &mut T,
) -> Result<u64, Fault>
    ensures text { IfOk result (λ n. TextGives T.after taker.old (R.remaining reader.old) (Ok (taker.new, n))) }
    ensures refused { IfErr result (λ f. IsFaultOfText T.after taker.old f (R.remaining reader.old)) }
{
    let mut line = Vec::new(alloc);
    for number in 1..u64::MAX {
        line.clear();
        match reader.read_until(b'\n', &mut line) {
            Ok(0) => return Ok(number),
            Ok(_) => {}
            Err(error) => return Err(read_fault(error)),
        }
        let text = without_end(line.as_slice());
        if let Err(fault) = take_numbered(taker, alloc, number, text) {
            return Err(fault);
        }
    }
    Err(Fault::Read(io::Error::from(ErrorKind::FileTooLarge)))
}

/// Takes a line. A refusal has its number.
fn take_numbered<T: TakesLines>(
    taker: &mut T,
    alloc: Global,
    number: u64,
    line: &[u8],
) -> Result<(), Fault>
    ensures ok { OnOk result (at_line number (after_bytes T.after taker.old line.now) ≡ Ok taker.new) }
    ensures refused { IfErr result
        (λ f. IsReadFault f (at_line number (after_bytes T.after taker.old line.now))) }
{
    match take_bytes(taker, alloc, line) {
        Ok(()) => Ok(()),
        Err(LineFault::Memory) => Err(Fault::Memory),
        Err(LineFault::Refused(why)) => Err(Fault::Refused(Unread { line: number, why })),
    }
}

/// Takes the bytes of a line, with or without a carriage return at its end.
fn take_bytes<T: TakesLines>(taker: &mut T, alloc: Global, line: &[u8]) -> Result<(), LineFault>
    ensures ok { OnOk result (after_bytes T.after taker.old line.now ≡ Ok taker.new) }
    ensures refused { IfErr result (λ f. IsCause f (after_bytes T.after taker.old line.now)) }
{
    match str::from_utf8(line) {
        Ok(text) => taker.take_line(alloc, without_return(text)),
        Err(_) => Err(LineFault::Refused(Cause::NotText)),
    }
}

/// A line without its line end.
fn without_end(line: &[u8]) -> &[u8]
    ensures { result.now ≡ without_end 10 line.now }
{
    line.strip_suffix(b"\n".as_slice()).unwrap_or(line)
}

/// A line without the carriage return at its end.
fn without_return(line: &str) -> &str
    ensures { result.now ≡ without_end 13 line.now }
{
    line.strip_suffix('\r').unwrap_or(line)
}

/// The fault of a failed read: out of memory, or a read error.
fn read_fault(error: io::Error) -> Fault
    ensures { (result ≡ Fault.Memory) ⊎ (result ≡ Fault.Read error) }
{
    if error.kind() == ErrorKind::OutOfMemory {
        Fault::Memory
    } else {
        Fault::Read(error)
    }
}
