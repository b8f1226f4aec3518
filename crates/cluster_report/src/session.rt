// A manager and its book, which take one line after another.
ghost use Rattle.std.specs.Prelude.{◌≡◌, Some, IfOk, OnOk, option_map, string_bytes};
ghost use Rattle.bm_base.specs.Words.{step};
ghost use Rattle.cluster_report.specs.Sessions.{IsInStep, new_state};
ghost use Rattle.cluster_report.specs.LineNotes.{refusal_text, refusal_text_of, after_line};

use crate::book::Book;
use bm_base::{Answer, Call, Config, HashSecret, Limits, MOST_NODES, MOST_STORAGES, Refusal};
use bm_crew::NoGate;
use bm_lines::{MAX_LINE, answer_line, call_of};
use bm_manager::Manager;
use std::alloc::{AllocError, Global};
use std::sync::Wait;
use std::thread::Threads;

/// A manager, and the book that follows it.
#[derive(Drop)]
pub struct Session {
    pub alloc: Global,
    /// The secret of its tables, and of those that are made for it.
    pub secret: HashSecret,
    pub manager: Manager,
    pub book: Book,
}

impl Session {
    /// The session before the first line, within the greatest limits that a manager takes, since
    /// no limit costs memory. Its tables hash by this secret.
    #[tactic(auto, unfolding(bm_base::specs::Machine::State::empty_holdings))]
    pub fn new(alloc: Global, config: &Config, secret: HashSecret) -> Result<Session, Refusal>
        ensures state { IfOk result (λ s. s.manager ≡ new_state config.now) }
        ensures in_step { IfOk result IsInStep }
    {
        let limits = Limits {
            nodes: MOST_NODES,
            storages: MOST_STORAGES,
        };
        let manager = Manager::with_limits(alloc, *config, limits, secret)?;
        match Book::new(alloc, config, limits, secret) {
            Ok(book) => Ok(Session {
                alloc,
                secret,
                manager,
                book,
            }),
            Err(why) => {
                drop(manager);
                Err(why)
            }
        }
    }

    /// Makes the call that a line asks for. Returns the text of its refusal, as the line tool
    /// prints it; `None` if it is accepted.
    #[tactic(auto, unfolding(crate::specs::LineNotes::refusal_text, crate::specs::LineNotes::after_line))]
    pub fn take_line<H: Threads + Wait + Sync>(
        &mut self,
        rt: &H,
        line: &[u8],
    ) -> Result<Option<String>, AllocError>
        requires { IsInStep self.old }
        ensures refusal_text { IfOk result (λ o. option_map string_bytes o
            ≡ refusal_text self.old.manager line.now) }
        ensures state { OnOk result (self.new.manager ≡ after_line self.old.manager line.now) }
        ensures in_step { OnOk result (IsInStep self.new) }
    {
        if line.len() > MAX_LINE {
            return text_of(self.alloc, "refused 21 LongLine");
        }
        match call_of(self.alloc, line)? {
            Some(call) => self.take_call(rt, &call),
            None => text_of(self.alloc, "refused 20 BadLine"),
        }
    }

    /// Makes a call and notes it in the book. Returns the text of its refusal; `None` if it is
    /// accepted.
    pub fn take_call<H: Threads + Wait + Sync>(
        &mut self,
        rt: &H,
        call: &Call,
    ) -> Result<Option<String>, AllocError>
        requires { IsInStep self.old }
        ensures refusal_text { IfOk result (λ o. option_map string_bytes o
            ≡ refusal_text_of call.now (step self.old.manager call.now).0) }
        ensures state { OnOk result (self.new.manager ≡ (step self.old.manager call.now).1) }
        ensures in_step { OnOk result (IsInStep self.new) }
    {
        self.manager.show_invariant();
        let answer = self.manager.answer(rt, &NoGate, call);
        if answer.is_out_of_memory() {
            return Err(AllocError);
        }
        self.book.take(call, &answer)?;
        refusal_text_of(self.alloc, call, &answer)
    }
}

/// The text of a refusal; `None` for another answer.
fn refusal_text_of(
    alloc: Global,
    call: &Call,
    answer: &Answer,
) -> Result<Option<String>, AllocError>
    ensures { IfOk result (λ o. option_map string_bytes o ≡ refusal_text_of call.now answer.now) }
{
    match answer {
        Answer::Refused(_) => {
            let text = answer_line(alloc, call, answer)?;
            Ok(Some(text))
        }
        _ => Ok(None),
    }
}

/// Copies a text. Refused only if out of memory.
pub fn text_of(alloc: Global, text: &str) -> Result<Option<String>, AllocError>
    ensures { IfOk result (λ o. option_map string_bytes o ≡ Some text.now) }
{
    let text = String::from_str(alloc, text)?;
    Ok(Some(text))
}
