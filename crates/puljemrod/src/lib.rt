//! The static library for C: a manager behind a handle, by lines of the tool, and by functions for
//! events, rounds and questions. `bindings/c/puljemrod.h` declares it, and states the caller's
//! duties.
//!
//! Each call returns a code: 0, the number of a refusal, or one of `codes`. No call starts a thread
//! or waits. `specs/Calls` defines the result of a call, and the other files of `specs` the
//! answers.
#![tactic(auto)]

ghost use Rattle.std.specs.Prelude.{◌≡◌, ◌++◌, None, Some, length, take, drop, min};
ghost use Rattle.puljemrod.specs.declared.handle_state.HandleState.{HandleState};
ghost use Rattle.puljemrod.specs.declared.codes.TheConstants.{CLOSED, OPEN};
ghost use Rattle.puljemrod.specs.Calls.{IsOpened, AfterLine, AfterText, text_in};

mod calls;
mod codes;
mod commands;
mod copies;
mod event_answer;
mod events;
mod handle;
mod handle_state;
mod lists;
mod locate;
mod options;
mod parts;
mod questions;
mod rows;
mod spare_lists;
mod stored_number;
mod version;

use codes::{CLOSED, OPEN};
use handle::Slot;
use handle_state::{make_text, open, take_line};
use options::Options;
use std::alloc::Global;

/// Opens a closed handle: an empty manager.
#[unsafe(no_mangle)]
pub extern "C" fn puljemrod_open(alloc: Global, slot: &mut Slot, options: &Options) -> u32
    ensures opened { slot.old.handle.kept ≡ None
        → IsOpened options.now result slot.new.handle.kept }
    ensures open { (k : HandleState) → slot.old.handle.kept ≡ Some k
        → (result ≡ OPEN) × (slot.new.handle.kept ≡ slot.old.handle.kept) }
{
    if let Some(kept) = slot.take(alloc) {
        slot.put(kept);
        return OPEN;
    }
    match open(alloc, options) {
        Ok(kept) => {
            slot.put(kept);
            0
        }
        Err(refusal) => refusal.number(),
    }
}

/// Answers a line, which has no line end, and keeps the answer.
#[unsafe(no_mangle)]
pub extern "C" fn puljemrod_line(
    alloc: Global,
    slot: &mut Slot,
    line: &[u8],
    answer_len: &mut usize,
) -> u32
    ensures { AfterLine slot.old.handle.kept line.now slot.new.handle.kept result answer_len.old answer_len.new }
{
    let Some(mut kept) = slot.take(alloc) else {
        return CLOSED;
    };
    let code = take_line(alloc, &mut kept, line, answer_len);
    slot.put(kept);
    code
}

/// Makes the text of the last answer, unless it is made already; returns the code of the answered
/// call.
#[unsafe(no_mangle)]
pub extern "C" fn puljemrod_text(alloc: Global, slot: &mut Slot, answer_len: &mut usize) -> u32
    ensures { AfterText slot.old.handle.kept slot.new.handle.kept result answer_len.old answer_len.new }
{
    let Some(mut kept) = slot.take(alloc) else {
        return CLOSED;
    };
    let code = make_text(alloc, &mut kept, answer_len);
    slot.put(kept);
    code
}

/// Copies the text of the last answer from a byte on, up to the end of the text or of the buffer,
/// and returns how many bytes it copied.
#[unsafe(no_mangle)]
pub extern "C" fn puljemrod_answer(
    alloc: Global,
    slot: &mut Slot,
    from: usize,
    out: &mut [u8],
) -> usize
    ensures count { result
        ≡ min (length out.old) (length (drop from (text_in slot.old.handle.kept))) }
    ensures copied { out.new
        ≡ take result (drop from (text_in slot.old.handle.kept)) ++ drop result out.old }
    ensures unchanged { slot.new.handle.kept ≡ slot.old.handle.kept }
{
    let Some(kept) = slot.take(alloc) else {
        return 0;
    };
    let count = copy_from(kept.text.as_slice(), from, out);
    slot.put(kept);
    count
}

fn copy_from(text: &[u8], from: usize, out: &mut [u8]) -> usize
    ensures count { result ≡ min (length out.old) (length (drop from text.now)) }
    ensures copied { out.new ≡ take result (drop from text.now) ++ drop result out.old }
{
    if from >= text.len() {
        return 0;
    }
    let rest = &text[from..];
    let count = out.len().min(rest.len());
    out[..count].copy_from_slice(&rest[..count]);
    count
}

/// Closes an open handle, and returns its memory.
#[unsafe(no_mangle)]
pub extern "C" fn puljemrod_close(alloc: Global, slot: &mut Slot) -> u32
    ensures closed { slot.new.handle.kept ≡ None }
    ensures was_open { (k : HandleState) → slot.old.handle.kept ≡ Some k → result ≡ 0 }
    ensures was_closed { slot.old.handle.kept ≡ None → result ≡ CLOSED }
{
    match slot.take(alloc) {
        Some(_) => 0,
        None => CLOSED,
    }
}
