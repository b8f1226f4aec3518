// A whole run, from a reader to a writer whose failures are counted.
ghost use Rattle.std.specs.Prelude.{◌≡◌, ◌+◌, ◌<◌, ℕ, List, IfSome, OnOk, true, false, Option, IfOk, Bool, is_err};
ghost use Rattle.bm_base.specs.Words.{Appends};
ghost use Rattle.std.specs.Io.KnownBytes.{Consumes, Keeps, ReadConsumes};
ghost use Rattle.bm_session.specs.Text.{text};
ghost use Rattle.bm_session.specs.Outcome.{Leaves, HasCause, ChecksConfig, IsFlushedAtRead};
ghost use Rattle.std.specs.Io.{ReadsAtMost};
ghost use Rattle.bm_session.specs.Ends.{Counts};

use crate::fault::{Fault, Summary};
use crate::limits::{MAX_BYTES, PIECE};
use crate::session::Session;
use bm_base::{Config, HashSecret};
use std::alloc::Global;
use std::io;
use std::io::{Read, Write};
use std::random::RandomSource;
use std::sync::Wait;
use std::thread::Threads;

/// Answers each line of the input by a line of the output. The tables hash by a secret that is
/// drawn here, so that nobody can make slow lines by colliding numbers. No clause states that,
/// since no answer depends on it. A crew of threads, with the configured number of workers,
/// processes a call on all shards, and the calling thread waits for the others. So the clauses
/// state what holds if a run returns.
pub fn run<R: Source, W: Sink, H: Threads + Wait + RandomSource + Sync>(
    rt: &H,
    alloc: Global,
    reader: &mut R,
    writer: &mut W,
    config: &Config,
) -> Result<Summary, Fault>
    requires reads { R.faults reader.old ≡ 0 }
    requires writes { W.faults writer.old ≡ 0 }
    // The configuration is refused exactly if it is outside its ranges.
    ensures config { ChecksConfig config.now result }
    // If the reader counts its bytes, the output is their text.
    ensures text { OnOk result (IfSome (R.remaining reader.old) (λ input.
        Appends (W.contents writer.old) (W.contents writer.new) (text config.now input))) }
    // The input read, and the output for it.
    ensures leaves { (input : List ℕ)
        × Consumes (R.remaining reader.old) (R.remaining reader.new) input
        × Leaves config.now input (R.remaining reader.new) (R.last reader.new)
        (W.contents writer.old) (W.contents writer.new) result }
    ensures flushed { OnOk result (W.is_flushed writer.new ≡ true) }
    // If a read fails, all answers to earlier input are flushed.
    ensures at_reads { IsFlushedAtRead (W.is_flushed writer.old) (W.is_flushed writer.new) result }
    // A fault of the reader or the writer comes only after a failed read, or a failed write or
    // flush.
    ensures cause { HasCause (R.faults reader.old) (R.faults reader.new)
        (W.faults writer.old) (W.faults writer.new) result }
{
    let mut session = Session::new(alloc, config, HashSecret::draw(rt))?;
    let mut buffer = [0u8; PIECE];
    let mut count = 0usize;
    loop {
        let Ok(n) = reader.read(&mut buffer) else {
            return Err(Fault::Read);
        };
        if n == 0 {
            return session.finish(rt, writer);
        }
        let bytes_left = MAX_BYTES - count;
        if n > bytes_left {
            session.take_piece(rt, &buffer[..bytes_left], writer)?;
            return Err(Fault::TooMuch);
        }
        session.take_piece(rt, &buffer[..n], writer)?;
        count += n;
    }
}

/// A source of bytes. A read is allowed only if none has failed before: so a reader has to stop at
/// the first failure.
pub trait Source {
    /// The remaining bytes, if they are known.
    ghost remaining: { Self → Option (List ℕ) };

    /// The number of failed reads.
    ghost faults: { Self → ℕ };

    /// The number of bytes that the last read gave.
    ghost last: { Self → ℕ };

    fn read(&mut self, buf: &mut [u8]) -> io::Result<usize>
        requires { faults self.old ≡ 0 }
        ensures bound { ReadsAtMost result buf.new }
        ensures bytes { ReadConsumes (remaining self.old) (remaining self.new) result buf.new }
        ensures last { IfOk result (λ n. last self.new ≡ n) }
        ensures cause { Counts (faults self.old) (faults self.new) result };
}

/// A destination of bytes. A write is allowed only if no write and no flush has failed before.
pub trait Sink {
    /// The content, if it is known.
    ghost contents: { Self → Option (List ℕ) };

    /// The number of failed writes and flushes.
    ghost faults: { Self → ℕ };

    /// Whether nothing was written since the last flush.
    ghost is_flushed: { Self → Bool };

    fn write_all(&mut self, bytes: &[u8]) -> io::Result<()>
        requires { faults self.old ≡ 0 }
        ensures bytes { OnOk result (Appends (contents self.old) (contents self.new) bytes.now) }
        ensures unflushed { is_flushed self.new ≡ false }
        ensures cause { Counts (faults self.old) (faults self.new) result };

    fn flush(&mut self) -> io::Result<()>
        requires { faults self.old ≡ 0 }
        ensures bytes { Keeps (contents self.old) (contents self.new) }
        ensures flushed { OnOk result (is_flushed self.new ≡ true) }
        ensures cause { Counts (faults self.old) (faults self.new) result };
}

/// A reader or a writer of std, with a count of its failures.
#[derive(Drop)]
pub struct FaultCounting<T> {
    inner: T,
    faults: u64,
    // The number of bytes that the last read gave.
    last: usize,
    // Whether nothing was written since the last flush.
    is_flushed: bool,
}

impl<T> FaultCounting<T> {
    ghost use Rattle.bm_session.specs.FaultCounts.{inner_of, faults_of, is_flushed};

    /// Nothing failed, and nothing is written yet.
    pub fn new(inner: T) -> FaultCounting<T>
        ensures inner { inner_of result ≡ inner }
        ensures faults { faults_of result ≡ 0 }
        ensures flushed { is_flushed result ≡ true }
    {
        FaultCounting {
            inner,
            faults: 0,
            last: 0,
            is_flushed: true,
        }
    }

    /// Returns the wrapped reader or writer.
    pub fn into_inner(self) -> T
        ensures { result ≡ inner_of self }
    {
        self.inner
    }
}

impl<R: Read> Source for FaultCounting<R> {
    ghost use Rattle.bm_session.specs.FaultCounts.{inner_of, faults_of, last_of};

    ghost remaining = { λ c. R.remaining (inner_of c) };

    ghost faults = { λ c. faults_of c };

    ghost last = { λ c. last_of c };

    fn read(&mut self, buf: &mut [u8]) -> io::Result<usize> {
        let result = self.inner.read(buf);
        match &result {
            Ok(count) => self.last = *count,
            Err(_) => self.faults += 1,
        }
        result
    }
}

impl<W: Write> Sink for FaultCounting<W> {
    ghost use Rattle.bm_session.specs.FaultCounts.{inner_of, faults_of, is_flushed};

    ghost contents = { λ c. W.contents (inner_of c) };

    ghost faults = { λ c. faults_of c };

    ghost is_flushed = { λ c. is_flushed c };

    fn write_all(&mut self, bytes: &[u8]) -> io::Result<()> {
        self.is_flushed = false;
        let result = self.inner.write_all(bytes);
        if result.is_err() {
            self.faults += 1;
        }
        result
    }

    fn flush(&mut self) -> io::Result<()> {
        let result = self.inner.flush();
        self.is_flushed = result.is_ok();
        if result.is_err() {
            self.faults += 1;
        }
        result
    }
}
