// The answers of shards that the workers processed one by one. Nothing here takes memory.
ghost use Rattle.std.specs.Prelude.{◌≡◌, ◌≤◌, ◌<◌, ◌+◌, ◌++◌, ℕ, [], List, map, length, vec_len, vec_capacity, All, filter_map};
ghost use Rattle.std.specs.Result.{result_and, result_ok};
ghost use Rattle.std.specs.List.{cons_option};
ghost use Rattle.bm_shard.specs.ShardView.{Seen};
ghost use Rattle.bm_shards.specs.Answers.{EachBecame, HasAnswered, HasGathered, shard_answered, fault_in, first_fault, done_of, IsFew};

use bm_base::{Done, Refusal};
use bm_shard::Shard;

/// A shard that was processed, and its answer.
#[derive(Drop)]
pub struct Answered<A> {
    pub shard: Shard,
    pub answer: A,
}

/// A shard that answered, or refused.
pub type ShardResult<A> = Answered<Result<A, Refusal>>;

/// Moves the unchanged shards into `back`, and their answers into `answers`, or returns the first
/// refusal. Both lists have the capacity.
pub(crate) fn gather_answers<A: Drop>(
    asked: Vec<(u32, ShardResult<A>)>,
    back: &mut Vec<(u32, Shard)>,
    mut answers: Vec<A>,
) -> Result<Vec<A>, Refusal>
    requires back { (back.old.items ≡ []) × (vec_len asked ≤ vec_capacity back.old) }
    requires answers { (answers.items ≡ []) × (vec_len asked ≤ vec_capacity answers) }
    ensures { (f : Seen → A) → (ss : List (ℕ × Seen)) → EachBecame (HasAnswered f) ss asked.items
        → HasGathered f ss back.new.items result }
{
    match split_answers(asked, back, &mut answers) {
        Ok(()) => Ok(answers),
        Err(refusal) => Err(refusal),
    }
}

/// Moves the shards into `back` and their answers into `answers`, and returns the first refusal.
fn split_answers<A: Drop>(
    asked: Vec<(u32, ShardResult<A>)>,
    back: &mut Vec<(u32, Shard)>,
    answers: &mut Vec<A>,
) -> Result<(), Refusal>
    requires back { (back.old.items ≡ []) × (vec_len asked ≤ vec_capacity back.old) }
    requires answers { (answers.old.items ≡ []) × (vec_len asked ≤ vec_capacity answers.old) }
    ensures shards { back.new.items ≡ map shard_answered asked.items }
    ensures answers { answers.new.items ≡ filter_map (λ f. result_ok f.1.answer) asked.items }
    ensures outcome { result ≡ first_fault asked.items }
{
    let mut outcome = Ok(());
    for (index, one) in asked {
        back.push_reserved((index, one.shard));
        outcome = first_refusal(outcome, put_answer(answers, one.answer));
    }
    outcome
}

/// Moves an answer into `answers`, or returns the refusal.
fn put_answer<A: Drop>(answers: &mut Vec<A>, answer: Result<A, Refusal>) -> Result<(), Refusal>
    requires capacity { vec_len answers.old < vec_capacity answers.old }
    ensures answers { answers.new.items
        ≡ answers.old.items ++ cons_option (result_ok answer) [] }
    ensures len { vec_len answers.new ≤ vec_len answers.old + 1 }
    ensures capacity { vec_capacity answers.new ≡ vec_capacity answers.old }
    ensures outcome { result ≡ fault_in answer }
{
    match answer {
        Ok(answer) => {
            answers.push_reserved(answer);
            Ok(())
        }
        Err(refusal) => Err(refusal),
    }
}

/// Moves the prepared shards into `back`, which has capacity for them, and returns the first
/// refusal. It needs no list of answers: one of `()` would take memory too.
pub(crate) fn gather_prepared(
    prepared: Vec<(u32, ShardResult<()>)>,
    back: &mut Vec<(u32, Shard)>,
) -> Result<(), Refusal>
    requires capacity { (back.old.items ≡ []) × (vec_len prepared ≤ vec_capacity back.old) }
    ensures shards { back.new.items ≡ map shard_answered prepared.items }
    ensures outcome { result ≡ first_fault prepared.items }
{
    let mut outcome = Ok(());
    for (index, one) in prepared {
        back.push_reserved((index, one.shard));
        outcome = first_refusal(outcome, one.answer);
    }
    outcome
}

/// The first of two outcomes that is a refusal.
fn first_refusal(first: Result<(), Refusal>, next: Result<(), Refusal>) -> Result<(), Refusal>
    ensures { result ≡ result_and first next }
{
    match first {
        Ok(()) => next,
        Err(refusal) => Err(refusal),
    }
}

/// Moves the changed shards into `back`, which has capacity for them, and adds up what they
/// answered.
pub(crate) fn gather_done(changed: Vec<(u32, Answered<Done>)>, back: &mut Vec<(u32, Shard)>) -> Done
    requires capacity { (back.old.items ≡ []) × (vec_len changed ≤ vec_capacity back.old) }
    requires shards { length changed.items ≤ 64 }
    requires few { All IsFew changed.items }
    ensures shards { back.new.items ≡ map shard_answered changed.items }
    ensures done { result ≡ done_of changed.items }
{
    let mut added = 0;
    let mut removed = 0;
    for (index, one) in changed {
        back.push_reserved((index, one.shard));
        added += one.answer.added;
        removed += one.answer.removed;
    }
    Done { added, removed }
}
