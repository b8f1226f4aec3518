// Applies events to a loaded cluster.
ghost use Rattle.std.specs.Prelude.{◌≡◌, None, OnOk, fold};
ghost use Rattle.bm_base.specs.Words.{after_event, refusal_of};
ghost use Rattle.cluster_report.specs.Sessions.{IsInStep};

use bm_base::{Event, Refusal};
use bm_crew::NoGate;
use cluster_report::session::Session;
use std::sync::Wait;
use std::thread::Threads;

/// Applies an event; a refused one changes nothing.
#[tactic(auto, using(crate::proofs::Steps::accepted_by_cluster))]
pub fn apply<H: Threads + Wait + Sync>(
    rt: &H,
    session: &mut Session,
    event: &Event,
) -> Result<(), Refusal>
    requires { IsInStep session.old }
    ensures accepted { OnOk result (refusal_of session.old.manager event.now ≡ None) }
    ensures state { OnOk result (session.new.manager
        ≡ after_event session.old.manager event.now) }
    ensures in_step { OnOk result (IsInStep session.new) }
{
    let _ = session.manager.apply(rt, &NoGate, event)?;
    session.book.take_event(event)?;
    Ok(())
}

/// Applies these events, one after another.
pub fn apply_all<H: Threads + Wait + Sync>(
    rt: &H,
    session: &mut Session,
    events: &[Event],
) -> Result<(), Refusal>
    requires { IsInStep session.old }
    ensures state { OnOk result (session.new.manager
        ≡ fold after_event session.old.manager events.now) }
    ensures in_step { OnOk result (IsInStep session.new) }
{
    for event in events {
        apply(rt, session, event)?;
    }
    Ok(())
}
