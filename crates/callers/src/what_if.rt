// What happens if a node dies: a second manager makes the same calls, and then applies the death.
ghost use Rattle.std.specs.Prelude.{◌≡◌, ◌⊎◌, None, Some, IfOk, IfErr, OnOk};
ghost use Rattle.bm_base.specs.Words.{first_state_within, step, state_after, after_event, ◌before◌, config_refusal, limits_refusal, missing_blocks, refusal_of};
ghost use Rattle.bm_base.specs.declared.refusal.Refusal.TheVariants.{Memory};

use bm_base::{Answer, BlockId, Call, Config, Event, HashSecret, Items, Limits, NodeId, Refusal};
use bm_crew::NoGate;
use bm_manager::Manager;
use std::alloc::Global;
use std::sync::Wait;
use std::thread::Threads;

/// The missing blocks, those without a usable replica, in ascending order.
#[derive(Debug, Drop)]
pub struct WhatIf {
    /// Before the death.
    pub as_is: Items<BlockId>,
    /// After the death.
    pub if_dead: Items<BlockId>,
}

/// A manager within these limits that has made these calls. A call that the definition refuses has
/// changed nothing. `Memory` if a call ran out of memory.
pub fn replay<R: Threads + Wait + Sync>(
    rt: &R,
    alloc: Global,
    config: Config,
    limits: Limits,
    calls: &[Call],
) -> Result<Manager, Refusal>
    ensures allowed { OnOk result (config_refusal config ≡ None) }
    ensures allowed_limits { OnOk result (limits_refusal limits ≡ None) }
    ensures state { IfOk result
        (λ m. m ≡ state_after (first_state_within limits config) calls.now) }
    ensures refused { IfErr result (λ e.
        (e ≡ Memory) ⊎ ((config_refusal config before limits_refusal limits) ≡ Some e)) }
{
    let mut manager = Manager::with_limits(alloc, config, limits, HashSecret::none())?;
    for call in calls {
        make(rt, &mut manager, call)?;
    }
    Ok(manager)
}

/// Makes a call, unless the definition refuses it.
fn make<R: Threads + Wait + Sync>(rt: &R, manager: &mut Manager, call: &Call) -> Result<(), Refusal>
    ensures state { OnOk result (manager.new ≡ (step manager.old call.now).1) }
    ensures refused { IfErr result (λ e. e ≡ Memory) }
{
    match manager.answer(rt, &NoGate, call) {
        Answer::Refused(Refusal::Memory) => Err(Refusal::Memory),
        _ => Ok(()),
    }
}

/// The blocks that are missing after these calls, and those that would be if the node died then.
/// Refused as [`replay`] is, and as the death is: `UnknownNode`, `CallsSpent`.
pub fn missing_if_dead<R: Threads + Wait + Sync>(
    rt: &R,
    alloc: Global,
    config: Config,
    limits: Limits,
    calls: &[Call],
    node: NodeId,
) -> Result<WhatIf, Refusal>
    ensures as_is { IfOk result (λ found.
        let state = state_after (first_state_within limits config) calls.now in
        found.as_is ≡ missing_blocks state.cluster state.holdings) }
    ensures if_dead { IfOk result (λ found.
        let replayed = state_after (first_state_within limits config) calls.now in
        let state = after_event replayed (Event.Dead node) in
        found.if_dead ≡ missing_blocks state.cluster state.holdings) }
    ensures alive { OnOk result
        (refusal_of (state_after (first_state_within limits config) calls.now) (Event.Dead node)
        ≡ None) }
    ensures refused { IfErr result (λ e.
        let start = config_refusal config before limits_refusal limits in
        let state = state_after (first_state_within limits config) calls.now in
        let death = refusal_of state (Event.Dead node) in
        (e ≡ Memory) ⊎ ((start ≡ Some e) ⊎ (death ≡ Some e))) }
{
    let mut manager = replay(rt, alloc, config, limits, calls)?;
    before_and_behind(rt, &mut manager, node)
}

/// The blocks that are missing before and after the death of a node.
fn before_and_behind<R: Threads + Wait + Sync>(
    rt: &R,
    manager: &mut Manager,
    node: NodeId,
) -> Result<WhatIf, Refusal>
    ensures as_is { IfOk result (λ found.
        found.as_is ≡ missing_blocks manager.old.cluster manager.old.holdings) }
    ensures if_dead { IfOk result (λ found.
        let state = after_event manager.old (Event.Dead node) in
        found.if_dead ≡ missing_blocks state.cluster state.holdings) }
    ensures alive { OnOk result (refusal_of manager.old (Event.Dead node) ≡ None) }
    ensures refused { IfErr result (λ e.
        (e ≡ Memory) ⊎ (refusal_of manager.old (Event.Dead node) ≡ Some e)) }
{
    let as_is = manager.missing()?;
    manager.apply(rt, &NoGate, &Event::Dead { node })?;
    Ok(WhatIf {
        as_is,
        if_dead: manager.missing()?,
    })
}
