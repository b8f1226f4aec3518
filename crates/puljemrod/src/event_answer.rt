// The stored answer to an event.
ghost use Rattle.std.specs.Prelude.{◌≡◌, ◌^◌, ◌/◌, ◌%◌, None, Some};
ghost use Rattle.puljemrod.specs.declared.codes.TheConstants.{CLOSED};
ghost use Rattle.puljemrod.specs.declared.handle_state.HandleState.{HandleState};
ghost use Rattle.puljemrod.specs.DoneRows.{done_by_answer};

use crate::codes::CLOSED;
use crate::handle::Slot;
use bm_answers::LineAnswer;
use bm_base::Answer;
use std::alloc::Global;

/// How many replicas came and went, each number in two halves.
#[repr(C)]
#[derive(Clone, Copy)]
pub struct DoneRow {
    pub added: u64,
    pub added_high: u64,
    pub removed: u64,
    pub removed_high: u64,
}

/// The effect of the last event.
#[unsafe(no_mangle)]
pub extern "C" fn puljemrod_done(alloc: Global, slot: &mut Slot, done: &mut DoneRow) -> u32
    ensures open { (k : HandleState) → slot.old.handle.kept ≡ Some k
        → (result ≡ 0) × (done.new ≡ done_by_answer k.answer) }
    ensures closed { slot.old.handle.kept ≡ None → (result ≡ CLOSED) × (done.new ≡ done.old) }
    ensures unchanged { slot.new.handle.kept ≡ slot.old.handle.kept }
{
    let Some(kept) = slot.take(alloc) else {
        return CLOSED;
    };
    *done = done_by_answer(&kept.answer);
    slot.put(kept);
    0
}

fn done_by_answer(answer: &Option<LineAnswer>) -> DoneRow
    ensures { result ≡ done_by_answer answer.now }
{
    match answer {
        Some(LineAnswer::Answered(_, Answer::Done(done))) => DoneRow {
            added: low(done.added),
            added_high: high(done.added),
            removed: low(done.removed),
            removed_high: high(done.removed),
        },
        _ => DoneRow {
            added: 0,
            added_high: 0,
            removed: 0,
            removed_high: 0,
        },
    }
}

fn low(number: u128) -> u64
    ensures { result ≡ number % 2 ^ 64 }
{
    (number % (1u128 << 64)) as u64
}

fn high(number: u128) -> u64
    ensures { result ≡ number / 2 ^ 64 }
{
    (number / (1u128 << 64)) as u64
}
