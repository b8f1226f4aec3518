// Calls by functions of their own, made on the manager of a handle.
ghost use Rattle.std.specs.Prelude.{◌≡◌, IfOk};
ghost use Rattle.bm_base.specs.declared.event.Event.{Event};
ghost use Rattle.puljemrod.specs.Calls.{AfterCall, AfterEvent, AfterListed};

use crate::codes::{CLOSED, MEMORY};
use crate::handle::Slot;
use crate::handle_state::take_call;
use bm_base::{Call, Event};
use std::alloc::{AllocError, Global};

pub fn make_call(alloc: Global, slot: &mut Slot, call: Call) -> u32
    ensures { AfterCall slot.old.handle.kept call slot.new.handle.kept result }
{
    let Some(mut kept) = slot.take(alloc) else {
        return CLOSED;
    };
    let code = take_call(alloc, &mut kept, call);
    slot.put(kept);
    code
}

pub fn apply(alloc: Global, slot: &mut Slot, event: Event) -> u32
    ensures { AfterEvent slot.old.handle.kept event slot.new.handle.kept result }
{
    make_call(alloc, slot, Call::Apply(event))
}

/// An event with a list, for whose copy memory may have been refused.
pub fn apply_made(alloc: Global, slot: &mut Slot, event: Result<Event, AllocError>) -> u32
    ensures { (e : Event) → IfOk event (λ x. x ≡ e)
        → AfterListed slot.old.handle.kept e slot.new.handle.kept result }
{
    match event {
        Ok(event) => apply(alloc, slot, event),
        Err(_) if slot.is_open => MEMORY,
        Err(_) => CLOSED,
    }
}
