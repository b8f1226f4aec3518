// The state of a run between two reads, and the answer to a line as a line of the output.
ghost use Rattle.std.specs.Prelude.{◌≡◌, true, ◌≤◌, ◌<◌, ◌+◌, ◌∷◌, [], ◌++◌, ℕ, List, Option, length, None, IfOk, OnOk, OnErr, IfErr, ◌⊎◌, string_bytes};
ghost use Rattle.bm_base.specs.Words.{State, first_state, config_refusal};
ghost use Rattle.bm_lines.specs.LineBuffer.{Holds, is_begun};
ghost use Rattle.bm_session.specs.StartFaults.{StartFault};
ghost use Rattle.bm_session.specs.declared.limits.TheConstants.{MAX_LINES};
ghost use Rattle.bm_lines.specs.Lines.{ended};
ghost use Rattle.bm_answers.specs.OneLine.{answer_to, asked_next, text_of, is_refusal};

use crate::fault::{Fault, Summary};
use crate::limits::MAX_LINES;
use crate::whole_run::Sink;
use bm_answers::{LineAnswer, Request, make_call, parse_held_line};
use bm_base::{Config, HashSecret, Refusal};
use bm_lines::{Line, line_end};
use bm_manager::Manager;
use std::alloc::{AllocError, Global};
use std::sync::Wait;
use std::thread::Threads;

/// The manager, the line that is being read, and the numbers of answered and refused lines.
#[derive(Drop)]
pub struct Session {
    pub alloc: Global,
    pub manager: Manager,
    pub line: Line,
    pub lines: u64,
    pub refused: u64,
    ghost few: { lines ≤ MAX_LINES },
    ghost counted: { refused ≤ lines },
    ghost begun: { is_begun line ≡ true → lines < MAX_LINES },
}

impl Session {
    ghost use Rattle.bm_lines.specs.Lines.{line_end, lines_of};
    ghost use Rattle.bm_session.specs.Text.{texts};
    ghost use Rattle.std.specs.Io.KnownBytes.{Appends};
    ghost use Rattle.bm_session.specs.Progress.{Progress, MayBeWorked, LineFault, PieceFault, IsSummary};

    /// Nothing is read or answered yet.
    pub fn new(alloc: Global, config: &Config, secret: HashSecret) -> Result<Session, Fault>
        ensures allowed { OnOk result (config_refusal config.now ≡ None) }
        ensures ok { IfOk result (λ s. (start : Option (List ℕ))
            → Progress (first_state config.now) start start s []) }
        ensures err { IfErr result (StartFault config.now) }
    {
        let manager = new_manager(alloc, config, secret)?;
        Ok(Session {
            alloc,
            manager,
            line: Line::new(alloc),
            lines: 0,
            refused: 0,
        })
    }

    /// Answers the line that was read, and begins the next.
    pub fn end_line<W: Sink, H: Threads + Wait + Sync>(
        &mut self,
        rt: &H,
        writer: &mut W,
    ) -> Result<(), Fault>
        requires sound { W.faults writer.old ≡ 0 }
        requires few { self.old.lines < MAX_LINES }
        ensures ok { OnOk result ((M : State) (start : Option (List ℕ)) (bytes : List ℕ)
            → Progress M start (W.contents writer.old) self.old bytes
            → Progress M start (W.contents writer.new) self.new (bytes ++ line_end ∷ [])) }
        ensures faults { OnOk result (W.faults writer.new ≡ W.faults writer.old) }
        ensures err { IfErr result (LineFault (W.contents writer.old) (W.contents writer.new)
            (W.faults writer.old) (W.faults writer.new)) }
        ensures worked { OnErr result ((rest : List ℕ) → Holds self.old.line rest
            → MayBeWorked self.old.manager rest self.new.manager) }
    {
        let asked = parse_held_line(self.alloc, &self.line)?;
        let reply = reply_to(rt, self.alloc, &mut self.manager, asked)?;
        if writer.write_all(reply.text.as_bytes()).is_err() {
            return Err(Fault::Write);
        }
        self.line.clear();
        self.lines += 1;
        self.refused += u64::from(reply.is_refused);
        Ok(())
    }

    /// Takes the bytes up to the first line end, and returns the rest.
    fn take_line<'p, W: Sink, H: Threads + Wait + Sync>(
        &mut self,
        rt: &H,
        piece: &'p [u8],
        writer: &mut W,
    ) -> Result<&'p [u8], Fault>
        requires sound { W.faults writer.old ≡ 0 }
        requires few { self.old.lines < MAX_LINES }
        requires more { 0 < length piece.now }
        ensures ok { IfOk result (λ left. (M : State) (start : Option (List ℕ)) (bytes : List ℕ)
            → Progress M start (W.contents writer.old) self.old bytes
            → (taken : List ℕ) × (piece.now ≡ taken ++ left.now)
            × Progress M start (W.contents writer.new) self.new (bytes ++ taken)) }
        ensures shorter { IfOk result (λ left. length left.now < length piece.now) }
        ensures faults { OnOk result (W.faults writer.new ≡ W.faults writer.old) }
        ensures err { IfErr result (λ f. (M : State) (start : Option (List ℕ)) (bytes : List ℕ)
            → Progress M start (W.contents writer.old) self.old bytes
            → PieceFault M start (W.contents writer.new) self.new.manager bytes piece.now
            (W.faults writer.old) (W.faults writer.new) f) }
    {
        match line_end(piece) {
            Some(at) => {
                self.line.add(&piece[..at])?;
                self.end_line(rt, writer)?;
                Ok(&piece[at + 1..])
            }
            None => {
                self.line.add(piece)?;
                Ok(&piece[piece.len()..])
            }
        }
    }

    /// Answers all lines that end in the piece, flushes, and keeps the rest.
    pub fn take_piece<W: Sink, H: Threads + Wait + Sync>(
        &mut self,
        rt: &H,
        piece: &[u8],
        writer: &mut W,
    ) -> Result<(), Fault>
        requires sound { W.faults writer.old ≡ 0 }
        ensures ok { OnOk result ((M : State) (start : Option (List ℕ)) (bytes : List ℕ)
            → Progress M start (W.contents writer.old) self.old bytes
            → Progress M start (W.contents writer.new) self.new (bytes ++ piece.now)) }
        ensures flushed { OnOk result (W.is_flushed writer.new ≡ true) }
        ensures faults { OnOk result (W.faults writer.new ≡ W.faults writer.old) }
        ensures err { IfErr result (λ f. (M : State) (start : Option (List ℕ)) (bytes : List ℕ)
            → Progress M start (W.contents writer.old) self.old bytes
            → PieceFault M start (W.contents writer.new) self.new.manager bytes piece.now
            (W.faults writer.old) (W.faults writer.new) f) }
    {
        let mut left = piece;
        while !left.is_empty() {
            if self.lines == MAX_LINES {
                return Err(Fault::TooMuch);
            }
            left = self.take_line(rt, left, writer)?;
        }
        match writer.flush() {
            Ok(()) => Ok(()),
            Err(_) => Err(Fault::Write),
        }
    }

    /// Answers the rest, if there is one, and flushes.
    pub fn finish<W: Sink, H: Threads + Wait + Sync>(
        &mut self,
        rt: &H,
        writer: &mut W,
    ) -> Result<Summary, Fault>
        requires sound { W.faults writer.old ≡ 0 }
        ensures ok { IfOk result (λ summary. (M : State) (start : Option (List ℕ)) (bytes : List ℕ)
            → Progress M start (W.contents writer.old) self.old bytes
            → Appends start (W.contents writer.new) (texts M (lines_of bytes))
            × IsSummary M (lines_of bytes) summary) }
        ensures flushed { OnOk result (W.is_flushed writer.new ≡ true) }
        ensures faults { OnOk result (W.faults writer.new ≡ W.faults writer.old) }
        ensures err { IfErr result (λ f. (M : State) (start : Option (List ℕ)) (bytes : List ℕ)
            → Progress M start (W.contents writer.old) self.old bytes
            → PieceFault M start (W.contents writer.new) self.new.manager bytes []
            (W.faults writer.old) (W.faults writer.new) f) }
    {
        if !self.line.is_empty() {
            self.end_line(rt, writer)?;
        }
        if writer.flush().is_err() {
            return Err(Fault::Write);
        }
        Ok(Summary {
            lines: self.lines,
            accepted: self.lines - self.refused,
            refused: self.refused,
        })
    }
}

/// A manager with this configuration, which is checked here and nowhere else.
fn new_manager(alloc: Global, config: &Config, secret: HashSecret) -> Result<Manager, Fault>
    ensures allowed { OnOk result (config_refusal config.now ≡ None) }
    ensures ok { IfOk result (λ m. m ≡ first_state config.now) }
    ensures err { IfErr result (StartFault config.now) }
{
    match Manager::with_secret(alloc, *config, secret) {
        Ok(manager) => Ok(manager),
        Err(Refusal::BadConfig) => Err(Fault::Config),
        Err(_) => Err(Fault::Memory),
    }
}

/// A line of the output, with its line end.
#[derive(Drop)]
struct Reply {
    pub text: String,
    pub is_refused: bool,
}

/// Makes the call, if there is one. When out of memory, the manager may or may not have made it.
fn reply_to<H: Threads + Wait + Sync>(
    rt: &H,
    alloc: Global,
    manager: &mut Manager,
    asked: Request,
) -> Result<Reply, AllocError>
    ensures text { IfOk result
        (λ r. string_bytes r.text ≡ ended (text_of (answer_to manager.old asked))) }
    ensures refused { IfOk result (λ r. r.is_refused ≡ is_refusal (answer_to manager.old asked)) }
    ensures next { OnOk result (manager.new ≡ asked_next manager.old asked) }
    ensures worked { OnErr result ((manager.new ≡ manager.old)
        ⊎ (manager.new ≡ asked_next manager.old asked)) }
{
    let answer = make_call(rt, manager, asked)?;
    reply_of(alloc, &answer)
}

fn reply_of(alloc: Global, answer: &LineAnswer) -> Result<Reply, AllocError>
    ensures text { IfOk result (λ r. string_bytes r.text ≡ ended (text_of answer.now)) }
    ensures refused { IfOk result (λ r. r.is_refused ≡ is_refusal answer.now) }
{
    let mut text = answer.text(alloc)?;
    text.push_str("\n")?;
    let is_refused = answer.is_refusal();
    Ok(Reply { text, is_refused })
}
