// The request of a line, the call that it asks for, and the answer as text.
ghost use Rattle.std.specs.Prelude.{◌≡◌, IfOk, OnOk, OnErr, IsTrue, string_bytes, true, false, List, ℕ};
ghost use Rattle.bm_base.specs.Words.{is_out_of_memory};
ghost use Rattle.bm_answers.specs.declared.line_answer.LineAnswer.TheVariants.{Answered};
ghost use Rattle.bm_answers.specs.OneLine.{answer_to, asked_next, asked_may_lack, text_of, is_refusal, number_of, asked};
ghost use Rattle.bm_lines.specs.LineBuffer.{Holds};
ghost use Rattle.bm_answers.specs.declared.line_answer.Request.TheVariants.{Long};

use bm_base::{Answer, Call};
use bm_crew::NoGate;
use bm_lines::{Line, MAX_LINE, answer_line, call_of};
use bm_manager::Manager;
use std::alloc::{AllocError, Global};
use std::sync::Wait;
use std::thread::Threads;

/// The answer to a line, before it is text.
#[derive(Drop)]
pub enum LineAnswer {
    /// The line is too long to be read.
    Long,
    /// The line asks for no call.
    Bad,
    /// The call that the line asks for, and its answer.
    Answered(Call, Answer),
}

impl LineAnswer {
    /// The text, without a line end.
    pub fn text(&self, alloc: Global) -> Result<String, AllocError>
        ensures { IfOk result (λ t. string_bytes t ≡ text_of self.now) }
    {
        match self {
            LineAnswer::Long => Ok(String::from_str(alloc, "refused 21 LongLine")?),
            LineAnswer::Bad => Ok(String::from_str(alloc, "refused 20 BadLine")?),
            LineAnswer::Answered(call, answer) => answer_line(alloc, call, answer),
        }
    }

    /// Whether the text begins with `refused`.
    pub fn is_refusal(&self) -> bool
        ensures { result ≡ is_refusal self.now }
    {
        match self {
            LineAnswer::Long | LineAnswer::Bad => true,
            LineAnswer::Answered(_, answer) => matches!(answer, Answer::Refused(_)),
        }
    }

    /// The number of the refusal, as in the text; 0 if nothing was refused.
    pub fn number(&self) -> u32
        ensures { result ≡ number_of self.now }
    {
        match self {
            LineAnswer::Long => 21,
            LineAnswer::Bad => 20,
            LineAnswer::Answered(_, answer) => number(answer),
        }
    }
}

fn number(answer: &Answer) -> u32
    ensures { (call : Call) → result ≡ number_of (Answered call answer.now) }
{
    match answer {
        Answer::Refused(refusal) => refusal.number(),
        _ => 0,
    }
}

/// Makes the call that a line asks for, if there is one, by threads. `Err` if memory was refused:
/// then the call takes memory, nothing else refuses it, and it has changed nothing.
pub fn make_call<H: Threads + Wait + Sync>(
    rt: &H,
    manager: &mut Manager,
    asked: Request,
) -> Result<LineAnswer, AllocError>
    ensures answer { IfOk result (λ a. a ≡ answer_to manager.old asked) }
    ensures memory { IfOk result (λ a. number_of a ≡ 14 → ⊥) }
    ensures next { OnOk result (manager.new ≡ asked_next manager.old asked) }
    ensures unchanged { OnErr result (manager.new ≡ manager.old) }
    ensures lacked { OnErr result (IsTrue (asked_may_lack manager.old asked)) }
{
    match asked {
        Request::Long => Ok(LineAnswer::Long),
        Request::Bad => Ok(LineAnswer::Bad),
        Request::Asks(call) => {
            let answer = manager.answer(rt, &NoGate, &call);
            answered(call, answer)
        }
    }
}

/// As [`make_call`], on the calling thread alone.
pub fn make_call_alone(manager: &mut Manager, asked: Request) -> Result<LineAnswer, AllocError>
    ensures answer { IfOk result (λ a. a ≡ answer_to manager.old asked) }
    ensures memory { IfOk result (λ a. number_of a ≡ 14 → ⊥) }
    ensures next { OnOk result (manager.new ≡ asked_next manager.old asked) }
    ensures unchanged { OnErr result (manager.new ≡ manager.old) }
    ensures lacked { OnErr result (IsTrue (asked_may_lack manager.old asked)) }
{
    match asked {
        Request::Long => Ok(LineAnswer::Long),
        Request::Bad => Ok(LineAnswer::Bad),
        Request::Asks(call) => {
            let answer = manager.answer_alone(&call);
            answered(call, answer)
        }
    }
}

fn answered(call: Call, answer: Answer) -> Result<LineAnswer, AllocError>
    ensures answer { IfOk result (λ a. a ≡ Answered call answer) }
    ensures number { IfOk result (λ a. number_of a ≡ 14 → ⊥) }
    ensures taken { OnOk result (is_out_of_memory answer ≡ false) }
    ensures refused { OnErr result (is_out_of_memory answer ≡ true) }
{
    if answer.is_out_of_memory() {
        return Err(AllocError);
    }
    Ok(LineAnswer::Answered(call, answer))
}

/// The request of a line.
#[derive(Drop)]
pub enum Request {
    /// The line is too long to be read.
    Long,
    /// The line asks for no call.
    Bad,
    Asks(Call),
}

/// The request of the line that is held.
pub fn parse_held_line(alloc: Global, line: &Line) -> Result<Request, AllocError>
    ensures { IfOk result (λ a. (rest : List ℕ) → Holds line.now rest → a ≡ asked rest) }
{
    if line.is_long {
        return Ok(Request::Long);
    }
    parse_request(alloc, line.bytes.as_slice())
}

/// The call that the bytes of a line ask for. `Err` if out of memory; the line is then not too
/// long.
pub fn parse_request(alloc: Global, line: &[u8]) -> Result<Request, AllocError>
    ensures asked { IfOk result (λ a. a ≡ asked line.now) }
    ensures not_long { OnErr result (asked line.now ≡ Long → ⊥) }
{
    if line.len() > MAX_LINE {
        return Ok(Request::Long);
    }
    match call_of(alloc, line)? {
        Some(call) => Ok(Request::Asks(call)),
        None => Ok(Request::Bad),
    }
}
