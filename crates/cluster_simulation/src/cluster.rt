// The manager of a made-up cluster with its book, and the calls that it refuses.
ghost use Rattle.std.specs.Prelude.{◌≡◌, ◌+◌, ◌-◌, ◌^◌, min, is_some, IfOk, OnOk, if◌then◌else◌};
ghost use Rattle.bm_base.specs.Words.{step, state_after, is_refused, whole_round, count_call};
ghost use Rattle.cluster_report.specs.Sessions.{IsInStep};
ghost use Rattle.laws_of_repairs.specs.Repairs.{Covers};

use bm_base::{Call, Commands, Refusal};
use bm_crew::NoGate;
use cluster_report::session::Session;
use std::alloc::AllocError;
use std::sync::Wait;
use std::thread::Threads;

#[derive(Drop)]
pub struct Cluster {
    pub session: Session,
    /// The number of calls that were refused since the last count.
    pub refused: u64,
}

impl Cluster {
    /// Makes a call, and counts it if it is refused.
    pub fn make<R: Threads + Wait + Sync>(&mut self, rt: &R, call: &Call) -> Result<(), AllocError>
        requires { IsInStep self.old.session }
        ensures state { OnOk result (self.new.session.manager
            ≡ (step self.old.session.manager call.now).1) }
        ensures refused { OnOk result (self.new.refused
            ≡ (if is_refused (step self.old.session.manager call.now).0
            then min (self.old.refused + 1) (2 ^ 64 - 1) else self.old.refused)) }
        ensures in_step { OnOk result (IsInStep self.new.session) }
    {
        let message = self.session.take_call(rt, call)?;
        let refused = add_if_refused(self.refused, &message);
        self.refused = refused;
        Ok(())
    }

    /// Makes these calls, one after another.
    pub fn make_all<R: Threads + Wait + Sync>(
        &mut self,
        rt: &R,
        calls: &[Call],
    ) -> Result<(), AllocError>
        requires { IsInStep self.old.session }
        ensures state { OnOk result (self.new.session.manager
            ≡ state_after self.old.session.manager calls.now) }
        ensures in_step { OnOk result (IsInStep self.new.session) }
    {
        for call in calls {
            self.make(rt, call)?;
        }
        Ok(())
    }

    /// Takes the manager's round. It gives no block a level that had none.
    pub fn take_round<R: Threads + Wait + Sync>(&mut self, rt: &R) -> Result<Commands, Refusal>
        ensures commands { IfOk result (λ k. k ≡ (whole_round self.old.session.manager).0) }
        ensures state { OnOk result (self.new.session.manager
            ≡ count_call (whole_round self.old.session.manager).1) }
        ensures covers { OnOk result ((bs : _) → Covers self.old.session.manager bs
            → Covers self.new.session.manager bs) }
        ensures in_step { OnOk result (IsInStep self.old.session → IsInStep self.new.session) }
    {
        let session = &mut self.session;
        session.manager.show_invariant();
        let commands = session.manager.round(rt, &NoGate)?;
        session.book.transfers.take_round(&commands)?;
        Ok(commands)
    }
}

/// The number of refused calls, with one more if there is a message; it stops at 2^64 - 1.
fn add_if_refused(refused: u64, message: &Option<String>) -> u64
    ensures { result ≡ (if is_some message.now then min (refused + 1) (2 ^ 64 - 1) else refused) }
{
    if message.is_some() {
        refused.saturating_add(1)
    } else {
        refused
    }
}
