// A gate that counts the pieces of work of a call.
ghost use Rattle.std.specs.Prelude.{◌≡◌, None, IfOk, IfErr, OnOk, OnErr};
ghost use Rattle.bm_base.specs.Words.{Refuses, takes_memory, after_event, done_by, refusal_of};

use bm_base::{Done, Event, Refusal};
use bm_crew::Gate;
use bm_manager::Manager;
use std::sync::Wait;
use std::sync::atomic::{AtomicU64, Ordering};
use std::thread::Threads;

/// Counts the pieces of work that pass, on any thread.
#[derive(Drop)]
pub struct Pieces {
    count: AtomicU64,
}

impl Pieces {
    pub fn new() -> Pieces {
        Pieces {
            count: AtomicU64::new(0),
        }
    }

    pub fn count(&self) -> u64 {
        self.count.load(Ordering::SeqCst)
    }
}

impl Gate for Pieces {
    fn at(&self, _shard: u32) {
        let _ = self.count.fetch_add(1, Ordering::SeqCst);
    }
}

/// Applies one event and counts the pieces of its work. The gate changes nothing of what
/// [`Manager::apply`] promises.
pub fn apply_counted<R: Threads + Wait + Sync>(
    rt: &R,
    manager: &mut Manager,
    pieces: &Pieces,
    event: &Event,
) -> Result<Done, Refusal>
    ensures accepted { OnOk result (refusal_of manager.old event.now ≡ None) }
    ensures done { IfOk result (λ d. d ≡ done_by manager.old event.now) }
    ensures state { OnOk result (manager.new ≡ after_event manager.old event.now) }
    ensures refused { IfErr result
        (Refuses (refusal_of manager.old event.now) (takes_memory event.now)) }
    ensures unchanged { OnErr result (manager.new ≡ manager.old) }
{
    manager.apply(rt, pieces, event)
}
