// The same calls on two managers of different shards and workers, or one of them without threads.
ghost use Rattle.std.specs.Prelude.{◌≡◌, ◌⊎◌, true, None, IfOk, IfErr, OnOk};
ghost use Rattle.bm_base.specs.Words.{first_state_within, ◌before◌, config_refusal, limits_refusal, Refuses, MayAnswerAll};
ghost use Rattle.bm_manager.specs.SameAnswers.{HaveSameAnswers};

use crate::manager::Manager;
use bm_base::{Answer, Call, Config, HashSecret, Items, Limits, Refusal};
use bm_crew::Gate;
use bm_shards::CallingThread;
use std::alloc::Global;
use std::sync::Wait;
use std::thread::Threads;

/// Makes the calls on a manager of this configuration within these limits, and on a second one with
/// other shards and workers. Returns the answers of both, which are equal up to the first call that
/// ran out of memory.
///
/// Both are a run of the definition from the same state. The refusals are those of
/// [`Manager::with_limits`] for either configuration, and `Memory`.
pub fn answers_alike<R: Threads + Wait + Sync>(
    alloc: Global,
    rt: &R,
    gate: &(dyn Gate + Sync),
    config: Config,
    limits: Limits,
    shards: u32,
    workers: u32,
    calls: &[Call],
) -> Result<(Items<Answer>, Items<Answer>), Refusal>
    ensures alike { IfOk result (λ r. HaveSameAnswers r.0 r.1) }
    ensures these { IfOk result
        (λ r. MayAnswerAll (first_state_within limits config) calls.now r.0) }
    ensures others { IfOk result
        (λ r. MayAnswerAll (first_state_within limits config) calls.now r.1) }
    ensures allowed { OnOk result (config_refusal config ≡ None) }
    ensures allowed_limits { OnOk result (limits_refusal limits ≡ None) }
    ensures allowed_too { OnOk result
        (config_refusal (record config { shards = shards; workers = workers }) ≡ None) }
    ensures refused { IfErr result (λ e.
        Refuses (config_refusal config before limits_refusal limits) true e
        ⊎ Refuses (config_refusal (record config { shards = shards; workers = workers })
        before limits_refusal limits) true e) }
{
    let other = Config {
        shards,
        workers,
        ..config
    };
    let answers = run_calls(alloc, rt, gate, config, limits, calls)?;
    let other_answers = run_calls(alloc, rt, gate, other, limits, calls)?;
    Ok((answers, other_answers))
}

/// [`answers_alike`], where the second manager has `shards` shards, and the calling thread alone
/// processes its calls.
pub fn answers_alike_alone<R: Threads + Wait + Sync>(
    alloc: Global,
    rt: &R,
    gate: &(dyn Gate + Sync),
    config: Config,
    limits: Limits,
    shards: u32,
    calls: &[Call],
) -> Result<(Items<Answer>, Items<Answer>), Refusal>
    ensures alike { IfOk result (λ r. HaveSameAnswers r.0 r.1) }
    ensures these { IfOk result
        (λ r. MayAnswerAll (first_state_within limits config) calls.now r.0) }
    ensures others { IfOk result
        (λ r. MayAnswerAll (first_state_within limits config) calls.now r.1) }
    ensures allowed { OnOk result (config_refusal config ≡ None) }
    ensures allowed_limits { OnOk result (limits_refusal limits ≡ None) }
    ensures allowed_too { OnOk result (config_refusal (record config { shards = shards }) ≡ None) }
    ensures refused { IfErr result (λ e.
        Refuses (config_refusal config before limits_refusal limits) true e
        ⊎ Refuses (config_refusal (record config { shards = shards }) before limits_refusal limits)
        true e) }
{
    let answers = run_calls(alloc, rt, gate, config, limits, calls)?;
    let other_answers = answers_alone(alloc, Config { shards, ..config }, limits, calls)?;
    Ok((answers, other_answers))
}

/// Makes the calls on a new manager of this configuration within these limits, and returns their
/// answers.
fn run_calls<R: Threads + Wait + Sync>(
    alloc: Global,
    rt: &R,
    gate: &(dyn Gate + Sync),
    config: Config,
    limits: Limits,
    calls: &[Call],
) -> Result<Items<Answer>, Refusal>
    ensures answers { IfOk result
        (λ r. MayAnswerAll (first_state_within limits config) calls.now r) }
    ensures allowed { OnOk result (config_refusal config ≡ None) }
    ensures allowed_limits { OnOk result (limits_refusal limits ≡ None) }
    ensures refused { IfErr result
        (Refuses (config_refusal config before limits_refusal limits) true) }
{
    let mut manager = Manager::with_limits(alloc, config, limits, HashSecret::none())?;
    let answers = manager.answer_all(rt, gate, calls);
    drop(manager);
    Ok(answers?)
}

/// As `run_calls`, by the calling thread alone.
fn answers_alone(
    alloc: Global,
    config: Config,
    limits: Limits,
    calls: &[Call],
) -> Result<Items<Answer>, Refusal>
    ensures answers { IfOk result
        (λ r. MayAnswerAll (first_state_within limits config) calls.now r) }
    ensures allowed { OnOk result (config_refusal config ≡ None) }
    ensures allowed_limits { OnOk result (limits_refusal limits ≡ None) }
    ensures refused { IfErr result
        (Refuses (config_refusal config before limits_refusal limits) true) }
{
    let mut manager = Manager::with_limits(alloc, config, limits, HashSecret::none())?;
    let answers = manager.answer_all_with(&CallingThread, calls);
    drop(manager);
    Ok(answers?)
}
