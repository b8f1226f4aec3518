// A crew of threads.
ghost use Rattle.std.specs.Prelude.{◌≡◌, None};
ghost use Rattle.bm_base.specs.Words.{is_multi_rack, change_cluster, first_of, cluster_checks};
ghost use Rattle.bm_parts.specs.BoundedWishes.{part_before};
ghost use Rattle.bm_parts.specs.Parts.{block_of};
ghost use Rattle.bm_shard.specs.ShardView.{IsReadyFor, IsReadyForRound};
ghost use Rattle.bm_shard.specs.UpToDate.{next_part};
ghost use Rattle.bm_shards.specs.Answers.{HasAnswered};
ghost use Rattle.bm_shards.specs.Rows.{rows_of};
ghost use Rattle.bm_shards.specs.ShardWork.{IsPrepared, CanCommit, IsCommitted};
ghost use Rattle.bm_shards.specs.RoundWork.{CanFind, HasPart, CanCommitRound, HasTakenRound};

use crate::answers::{Answered, ShardResult};
use crate::shard_work::{
    commit_round_one, commit_shard, find_in_shard, prepare_round_one, prepare_shard, rows_of_one,
};
use crate::table::Rows;
use crate::workers::Workers;
use bm_base::{Chosen, Done, Event, RoundPart};
use bm_crew::{Gate, Ready};
use bm_parts::sort_key::Key;
use bm_shard::Shard;
use bm_topo::Topology;
use std::marker::PhantomData;
use std::sync::Wait;
use std::thread::Threads;

/// The right to start threads and to wait for them, as a runtime `R` gives it. It holds nothing of
/// the runtime, so it is `Sync` whatever `R` is; a method of a trait cannot share an `R` with
/// threads.
#[derive(Clone, Copy)]
struct RuntimeToken<R: Threads + Wait> {
    marker: PhantomData<R>,
}

impl<R: Threads + Wait> RuntimeToken<R> {
    fn of(_rt: &R) -> RuntimeToken<R> {
        RuntimeToken {
            marker: PhantomData,
        }
    }
}

impl<R: Threads + Wait> Threads for RuntimeToken<R> {}

impl<R: Threads + Wait> Wait for RuntimeToken<R> {}

unsafe impl<R: Threads + Wait> Sync for RuntimeToken<R> {}

/// A crew of threads. Each piece of work passes a gate: `G` is `&(dyn Gate + Sync)`, since a method
/// of a trait cannot call a gate of a type parameter on other threads.
#[derive(Clone, Copy)]
pub struct Threaded<R: Threads + Wait, G> {
    rt: RuntimeToken<R>,
    gate: G,
    count: usize,
}

impl<'a, R: Threads + Wait> Threaded<R, &'a (dyn Gate + Sync)> {
    /// `count` workers, the calling thread among them; one if `count` is 0.
    pub fn new(rt: &R, gate: &'a (dyn Gate + Sync), count: usize) -> Self {
        Threaded {
            rt: RuntimeToken::of(rt),
            gate,
            count,
        }
    }
}

impl<R: Threads + Wait> Workers for Threaded<R, &(dyn Gate + Sync)> {
    fn count(&self) -> usize {
        self.count.max(1)
    }

    fn prepare_all(
        &self,
        ready: Ready<Shard, ShardResult<()>>,
        shards: Vec<(u32, Shard)>,
        event: &Event,
        topology: &Topology,
    ) -> Vec<(u32, ShardResult<()>)> {
        let work = |_: u32, shard: Shard| -> ShardResult<()>
            ensures { IsPrepared (IsReadyFor event.entry.now) shard result }
        { prepare_shard(shard, event, topology) };
        ready.run(&self.rt, shards, &work, &self.gate)
    }

    fn commit_all(
        &self,
        ready: Ready<Shard, Answered<Done>>,
        shards: Vec<(u32, Shard)>,
        event: &Event,
        topology: &Topology,
        multi: bool,
    ) -> Vec<(u32, Answered<Done>)> {
        let work = |_: u32, shard: Shard| -> Answered<Done>
            requires cluster { first_of (cluster_checks topology.now.cluster event.now) ≡ None }
            requires every { block_of event.now ≡ None }
            requires multi { multi ≡ is_multi_rack (change_cluster topology.now.cluster event.now) }
            requires shard { CanCommit topology.now.cluster event.now shard }
            ensures { IsCommitted topology.entry.now.cluster event.entry.now shard result }
        { commit_shard(shard, event, topology, multi) };
        ready.run(&self.rt, shards, &work, &self.gate)
    }

    fn find_all(
        &self,
        ready: Ready<Shard, ShardResult<RoundPart>>,
        shards: Vec<(u32, Shard)>,
        round: u64,
        topology: &Topology,
        bound: Option<Key>,
    ) -> Vec<(u32, ShardResult<RoundPart>)> {
        let work = |_: u32, shard: Shard| -> ShardResult<RoundPart>
            requires { CanFind topology.now.cluster round shard }
            ensures { HasAnswered
                (λ S. part_before bound (next_part topology.entry.now.cluster S)) shard result }
        { find_in_shard(shard, round, topology, bound) };
        ready.run(&self.rt, shards, &work, &self.gate)
    }

    fn prepare_round_all(
        &self,
        ready: Ready<Shard, ShardResult<()>>,
        shards: Vec<(u32, Shard)>,
        parts: &[RoundPart],
        chosen: &Chosen,
        topology: &Topology,
    ) -> Vec<(u32, ShardResult<()>)> {
        let work = |index: u32, shard: Shard| -> ShardResult<()>
            requires { HasPart topology.now.cluster parts.now (index, shard) }
            ensures { IsPrepared (IsReadyForRound chosen.entry.now) shard result }
        { prepare_round_one(index, shard, parts, chosen, topology) };
        ready.run(&self.rt, shards, &work, &self.gate)
    }

    fn commit_round_all(
        &self,
        ready: Ready<Shard, Shard>,
        shards: Vec<(u32, Shard)>,
        parts: &[RoundPart],
        chosen: &Chosen,
        topology: &Topology,
    ) -> Vec<(u32, Shard)> {
        let work = |index: u32, shard: Shard| -> Shard
            requires { CanCommitRound topology.now.cluster parts.now chosen.now (index, shard) }
            ensures { HasTakenRound topology.entry.now.cluster chosen.entry.now shard result }
        { commit_round_one(index, shard, parts, chosen, topology) };
        ready.run(&self.rt, shards, &work, &self.gate)
    }

    fn rows_of_all(
        &self,
        ready: Ready<Shard, ShardResult<Rows>>,
        shards: Vec<(u32, Shard)>,
    ) -> Vec<(u32, ShardResult<Rows>)> {
        let work = |_: u32, shard: Shard| -> ShardResult<Rows>
            ensures { HasAnswered rows_of shard result }
        { rows_of_one(shard) };
        ready.run(&self.rt, shards, &work, &self.gate)
    }
}
