// Answers that are a number.
ghost use Rattle.std.specs.Prelude.{◌≡◌};
ghost use Rattle.puljemrod.specs.StoredNumbers.{level_or_none, number_in, number_of_answer, number_of_state};

use crate::codes::NO_LEVEL;
use crate::handle::Slot;
use bm_answers::LineAnswer;
use bm_base::{Answer, Level};
use std::alloc::Global;

/// The number in the last answer, or the length of its list; 0 if it has neither. The handle is
/// unchanged.
pub fn stored_number(alloc: Global, slot: &mut Slot) -> u64
    ensures number { result ≡ number_of_state slot.old.handle.kept }
    ensures unchanged { slot.new.handle.kept ≡ slot.old.handle.kept }
{
    let Some(kept) = slot.take(alloc) else {
        return 0;
    };
    let number = number_of_answer(&kept.answer);
    slot.put(kept);
    number
}

fn number_of_answer(answer: &Option<LineAnswer>) -> u64
    ensures { result ≡ number_of_answer answer.now }
{
    match answer {
        Some(LineAnswer::Answered(_, answer)) => number_in(answer),
        _ => 0,
    }
}

fn number_in(answer: &Answer) -> u64
    ensures { result ≡ number_in answer.now }
{
    match answer {
        Answer::LevelIs(level) => level_or_none(*level),
        Answer::IsRetired(true) => 1,
        Answer::Number(number) => *number,
        Answer::Replicas(replicas) => replicas.len() as u64,
        Answer::ReplicaIds(replicas) => replicas.len() as u64,
        Answer::Blocks(blocks) => blocks.len() as u64,
        Answer::Storages(storages) => storages.len() as u64,
        _ => 0,
    }
}

fn level_or_none(level: Option<Level>) -> u64
    ensures { result ≡ level_or_none level }
{
    match level {
        Some(level) => level.number() as u64,
        None => NO_LEVEL,
    }
}
