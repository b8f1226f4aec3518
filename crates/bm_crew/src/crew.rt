// A crew whose workers share a bag.
ghost use Rattle.std.specs.Prelude.{◌≡◌, ◌<◌, ◌≤◌, ◌+◌, [], IfSome, IfOk, IfErr, vec_len, vec_capacity, All};
ghost use Rattle.bm_base.specs.Words.{AllZip};
ghost use Rattle.bm_base.specs.declared.refusal.Refusal.TheVariants.{Memory};
ghost use Rattle.bm_crew.specs.Work.{IsResultOf};
ghost use Rattle.bm_crew.specs.Readiness.{Readiness};
ghost use Rattle.bm_crew.specs.Teams.{IsTeamFor, helpers_in};

use crate::gate::Gate;
use crate::slots::results_from_slots;
use crate::team::Team;
use bm_base::Refusal;
use std::alloc::Global;
use std::marker::Model;
use std::sync::Wait;
use std::thread::Threads;

/// Makes crews ready, each for one run.
#[derive(Clone, Copy, Debug)]
pub struct Crew;

/// A crew that is ready for one run of pieces `T` to results `U`, and has all memory that the run
/// needs.
///
/// Contracts see it as its capacity in items, and the number of workers next to the calling thread.
/// Each worker has capacity for that number of results.
#[derive(Drop)]
pub struct Ready<T, U> {
    capacity: usize,
    /// `None` if the calling thread is the only worker.
    team: Option<Team<T, U>>,
    /// The capacity is for a team: without one, no slot is needed.
    slots: Vec<Option<(u32, U)>>,
    results: Vec<(u32, U)>,
}

impl<T, U> Model for Ready<T, U> {
    ghost Value = { Readiness };

    ghost view = { λ r. record { capacity = r.capacity; helpers = helpers_in r.team } };

    ghost invariant = { λ r.
        IfSome r.team (λ team. IsTeamFor r.capacity team × (r.capacity ≤ vec_capacity r.slots))
        × (r.slots.items ≡ [])
        × (r.results.items ≡ [])
        × (r.capacity ≤ vec_capacity r.results) };
}

impl Crew {
    /// Takes all memory that a run of at most `n` items needs, with capacity for `n` results at
    /// each worker. `workers`, at least 1, counts the calling thread, so there is one helper less;
    /// a run of no items has none. Refuses with `Memory` alone.
    pub fn ready<T: Drop, U: Drop>(
        alloc: Global,
        n: usize,
        workers: usize,
    ) -> Result<Ready<T, U>, Refusal>
        requires { 0 < workers }
        ensures capacity { IfOk result (λ r. r.capacity ≡ n) }
        ensures helpers { IfOk result (λ r. 0 < n → r.helpers + 1 ≡ workers) }
        ensures none { IfOk result (λ r. n ≡ 0 → r.helpers ≡ 0) }
        ensures refused { IfErr result (λ e. e ≡ Memory) }
    {
        let results = Vec::with_capacity(alloc, n)?;
        if n == 0 || workers == 1 {
            return Ok(Ready {
                capacity: n,
                team: None,
                slots: Vec::new(alloc),
                results,
            });
        }
        let slots = Vec::with_capacity(alloc, n)?;
        let team = Team::open(alloc, n, workers)?;
        Ok(Ready {
            capacity: n,
            team: Some(team),
            slots,
            results,
        })
    }
}

impl<T: Send + Drop, U: Send + Drop> Ready<T, U> {
    /// Processes each item, a shard with its piece. Returns the results in the order of items, each
    /// with its shard and with what `work` promises for that shard and that piece.
    ///
    /// Refuses nothing: there are no more items than the crew is ready for, and `work` may be
    /// called on each. Asks the allocator for nothing; starting a thread takes memory of the
    /// system. If a worker cannot be started, the others process its pieces. `gate.at(shard)` is
    /// called before the work of each piece.
    pub fn run<R: Threads + Wait + Sync, F: Fn(u32, T) -> U + Sync, G: Gate + Sync>(
        self,
        rt: &R,
        items: Vec<(u32, T)>,
        work: &F,
        gate: &G,
    ) -> Vec<(u32, U)>
        requires capacity { vec_len items ≤ self.capacity }
        requires accepts { All (λ item. F.pre work.now item.0 item.1) items.items }
        ensures len { vec_len result ≡ vec_len items }
        ensures each { AllZip (IsResultOf (F.post work.now)) items.items result.items }
    {
        let Ready {
            capacity: _,
            team,
            mut slots,
            results,
        } = self;
        let job = move |shard: u32, piece: T| -> U
            requires { F.pre work.now shard piece }
            ensures { F.post work.entry.now shard piece result }
        {
            gate.at(shard);
            work(shard, piece)
        };
        if items.len() < 2 {
            return work_in_turn(items, results, &job);
        }
        let Some(team) = team else {
            return work_in_turn(items, results, &job);
        };
        for _ in 0..items.len() {
            slots.push_reserved(None);
        }
        results_from_slots(team.work(rt, items, slots, &job), results)
    }
}

impl<T: Drop, U: Drop> Ready<T, U> {
    /// Returns what [`Ready::run`] returns, by the calling thread alone: needs no runtime, passes
    /// no gate, and terminates.
    pub fn run_alone<F: Fn(u32, T) -> U>(self, items: Vec<(u32, T)>, work: &F) -> Vec<(u32, U)>
        requires capacity { vec_len items ≤ self.capacity }
        requires accepts { All (λ item. F.pre work.now item.0 item.1) items.items }
        ensures len { vec_len result ≡ vec_len items }
        ensures each { AllZip (IsResultOf (F.post work.now)) items.items result.items }
    {
        work_in_turn(items, self.results, work)
    }
}

/// Processes each item in turn, and moves the results into the capacity of `results`.
fn work_in_turn<T: Drop, U: Drop, J: Fn(u32, T) -> U>(
    items: Vec<(u32, T)>,
    mut results: Vec<(u32, U)>,
    job: &J,
) -> Vec<(u32, U)>
    requires capacity { (results.items ≡ []) × (vec_len items ≤ vec_capacity results) }
    requires accepts { All (λ item. J.pre job.now item.0 item.1) items.items }
    ensures len { vec_len result ≡ vec_len items }
    ensures each { AllZip (IsResultOf (J.post job.now)) items.items result.items }
{
    for (shard, piece) in items {
        results.push_reserved((shard, job(shard, piece)));
    }
    results
}
