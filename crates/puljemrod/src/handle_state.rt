// The state of an open handle.
ghost use Rattle.std.specs.Prelude.{◌≡◌, [], true, map, None, IfOk, IfErr, OnOk, OnErr, IsTrue};
ghost use Rattle.bm_base.specs.Words.{Refuses};
ghost use Rattle.bm_answers.specs.declared.line_answer.Request.TheVariants.{Long};
ghost use Rattle.bm_answers.specs.OneLine.{asked, asked_may_lack};
ghost use Rattle.puljemrod.specs.Calls.{last_text, IsFirst, IsAsked, IsAnswered, IsLine, IsCall, IsBeat, IsText};
ghost use Rattle.puljemrod.specs.GivenOptions.{cluster_limits_of, config_of, options_refusal};
ghost use Rattle.puljemrod.specs.Rows.{remaining_of};

use crate::codes::{MEMORY, NO_TEXT};
use crate::options::Options;
use crate::rows::RemainingRow;
use crate::spare_lists::Spare;
use bm_answers::{LineAnswer, Request, make_call_alone, parse_request};
use bm_base::{Call, Event, HashSecret, NodeId, Refusal};
use bm_manager::Manager;
use std::alloc::{AllocError, Global};
use std::mem;

/// A manager, and its last answer.
#[derive(Drop)]
pub struct HandleState {
    pub manager: Manager,
    /// 0, or the number of the refusal.
    pub number: u32,
    /// The answer, until its text is made.
    pub answer: Option<LineAnswer>,
    /// The text of the answer, if it is made.
    pub text: Vec<u8>,
    /// Memory for the list of the next heartbeat.
    pub spare: Spare,
}

pub fn open(alloc: Global, options: &Options) -> Result<Box<HandleState>, Refusal>
    ensures allowed { OnOk result (options_refusal options.now ≡ None) }
    ensures first { IfOk result
        (λ b. IsFirst (cluster_limits_of options.now) (config_of options.now) b.value) }
    ensures refused { IfErr result (Refuses (options_refusal options.now) true) }
{
    let secret = HashSecret::of(options.secret);
    let manager = Manager::with_limits(alloc, options.config(), options.limits(), secret)?;
    let kept = HandleState {
        manager,
        number: 0,
        answer: None,
        text: Vec::new(alloc),
        spare: Spare::new(alloc),
    };
    Ok(Box::new(alloc, kept)?)
}

/// Answers a line, and returns the code and the length of the answer.
pub fn take_line(alloc: Global, kept: &mut HandleState, line: &[u8], answer_len: &mut usize) -> u32
    ensures { IsLine kept.old line.now kept.new result answer_len.new }
{
    match answer_line(alloc, kept, line) {
        Ok(()) => make_text(alloc, kept, answer_len),
        Err(_) => {
            *answer_len = 0;
            MEMORY
        }
    }
}

fn answer_line(alloc: Global, kept: &mut HandleState, line: &[u8]) -> Result<(), AllocError>
    ensures answered { OnOk result (IsAnswered kept.old.manager line.now kept.new) }
    ensures no_text { OnOk result (kept.new.text.items ≡ []) }
    ensures unchanged { OnErr result (kept.new ≡ kept.old) }
    ensures not_long { OnErr result (asked line.now ≡ Long → ⊥) }
{
    let asked = parse_request(alloc, line)?;
    answer_asked(alloc, kept, asked)?;
    Ok(())
}

/// Makes a call, and returns the code; the text of the answer is not made.
pub fn take_call(alloc: Global, kept: &mut HandleState, call: Call) -> u32
    ensures { IsCall kept.old call kept.new result }
{
    match answer_asked(alloc, kept, Request::Asks(call)) {
        Ok(()) => kept.number,
        Err(_) => MEMORY,
    }
}

/// Makes a heartbeat. Its list is copied into memory of an earlier one, if that suffices.
pub fn take_heartbeat(
    alloc: Global,
    kept: &mut HandleState,
    node: u32,
    rows: &[RemainingRow],
) -> u32
    ensures { IsBeat kept.old node (map remaining_of rows.now) kept.new result }
{
    match kept.spare.copy(alloc, rows) {
        Ok(remaining) => {
            let node = NodeId(node);
            take_call(
                alloc,
                kept,
                Call::Apply(Event::Heartbeat { node, remaining }),
            )
        }
        Err(_refused) => MEMORY,
    }
}

/// Makes the requested call, and keeps the answer.
fn answer_asked(alloc: Global, kept: &mut HandleState, asked: Request) -> Result<(), AllocError>
    ensures answered { OnOk result (IsAsked kept.old.manager asked kept.new) }
    ensures unchanged { OnErr result (kept.new ≡ kept.old) }
    ensures lacked { OnErr result (IsTrue (asked_may_lack kept.old.manager asked)) }
{
    let answer = make_call_alone(&mut kept.manager, asked)?;
    kept.number = answer.number();
    let before = mem::replace(&mut kept.answer, Some(answer));
    kept.spare.take_back(before);
    kept.text = Vec::new(alloc);
    Ok(())
}

/// Makes the text of the last answer, unless it is made already, and returns the number of the
/// answer and the length of the text.
pub fn make_text(alloc: Global, kept: &mut HandleState, answer_len: &mut usize) -> u32
    ensures { IsText kept.old kept.new result answer_len.new }
{
    match try_text(alloc, kept) {
        Ok(()) => {
            *answer_len = kept.text.len();
            kept.number
        }
        Err(_) => {
            *answer_len = 0;
            NO_TEXT
        }
    }
}

fn try_text(alloc: Global, kept: &mut HandleState) -> Result<(), AllocError>
    ensures state { kept.new.manager ≡ kept.old.manager }
    ensures number { kept.new.number ≡ kept.old.number }
    ensures text { last_text kept.new ≡ last_text kept.old }
    ensures made { OnOk result (kept.new.answer ≡ None) }
    ensures unchanged { OnErr result (kept.new ≡ kept.old) }
    ensures not_made { OnErr result (kept.old.answer ≡ None → ⊥) }
{
    if let Some(answer) = &kept.answer {
        let text = answer.text(alloc)?;
        kept.text = text.into_bytes();
        kept.answer = None;
    }
    Ok(())
}
