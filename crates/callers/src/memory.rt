// Out of memory: the refused call has changed nothing, so the caller frees what it can spare and
// makes the call again.
ghost use Rattle.std.specs.Prelude.{◌≡◌, ◌⊎◌, None, IfOk, IfErr, OnOk, OnErr};
ghost use Rattle.bm_base.specs.Words.{Refuses, takes_memory, after_event, done_by, refusal_of};
ghost use Rattle.bm_base.specs.declared.refusal.Refusal.TheVariants.{Memory};

use bm_base::{Done, Event, Refusal};
use bm_crew::NoGate;
use bm_manager::Manager;
use std::sync::Wait;
use std::thread::Threads;

/// Applies one event. When out of memory, frees what the caller can spare and tries once more. The
/// promises are those of [`Manager::apply`], as if there had been no first try.
pub fn apply_or_free<R: Threads + Wait + Sync, S: Drop>(
    rt: &R,
    manager: &mut Manager,
    spare: &mut Option<S>,
    event: &Event,
) -> Result<Done, Refusal>
    ensures accepted { OnOk result (refusal_of manager.old event.now ≡ None) }
    ensures done { IfOk result (λ d. d ≡ done_by manager.old event.now) }
    ensures state { OnOk result (manager.new ≡ after_event manager.old event.now) }
    ensures refused { IfErr result
        (Refuses (refusal_of manager.old event.now) (takes_memory event.now)) }
    ensures unchanged { OnErr result (manager.new ≡ manager.old) }
    ensures spare { (spare.new ≡ spare.old) ⊎ (spare.new ≡ None) }
    ensures freed_first { IfErr result (λ e. e ≡ Memory → spare.new ≡ None) }
{
    match manager.apply(rt, &NoGate, event) {
        Err(Refusal::Memory) => {
            *spare = None;
            manager.apply(rt, &NoGate, event)
        }
        answer => answer,
    }
}
