// The calling thread alone.
ghost use Rattle.std.specs.Prelude.{◌≡◌, None};
ghost use Rattle.bm_base.specs.Words.{is_multi_rack, change_cluster, first_of, cluster_checks};
ghost use Rattle.bm_parts.specs.BoundedWishes.{part_before};
ghost use Rattle.bm_parts.specs.Parts.{block_of};
ghost use Rattle.bm_shard.specs.ShardView.{IsReadyFor, IsReadyForRound};
ghost use Rattle.bm_shard.specs.UpToDate.{next_part};
ghost use Rattle.bm_shards.specs.Answers.{HasAnswered};
ghost use Rattle.bm_shards.specs.Rows.{rows_of};
ghost use Rattle.bm_shards.specs.ShardWork.{IsPrepared, CanCommit, IsCommitted};
ghost use Rattle.bm_shards.specs.RoundWork.{CanFind, HasPart, CanCommitRound, HasTakenRound};

use crate::answers::{Answered, ShardResult};
use crate::shard_work::{
    commit_round_one, commit_shard, find_in_shard, prepare_round_one, prepare_shard, rows_of_one,
};
use crate::table::Rows;
use crate::workers::Workers;
use bm_base::{Chosen, Done, Event, RoundPart};
use bm_crew::Ready;
use bm_parts::sort_key::Key;
use bm_shard::Shard;
use bm_topo::Topology;

/// The calling thread alone. It needs no runtime, and its work returns.
#[derive(Clone, Copy, Debug)]
pub struct CallingThread;

impl Workers for CallingThread {
    fn count(&self) -> usize {
        1
    }

    fn prepare_all(
        &self,
        ready: Ready<Shard, ShardResult<()>>,
        shards: Vec<(u32, Shard)>,
        event: &Event,
        topology: &Topology,
    ) -> Vec<(u32, ShardResult<()>)> {
        let work = |_: u32, shard: Shard| -> ShardResult<()>
            ensures { IsPrepared (IsReadyFor event.entry.now) shard result }
        { prepare_shard(shard, event, topology) };
        ready.run_alone(shards, &work)
    }

    fn commit_all(
        &self,
        ready: Ready<Shard, Answered<Done>>,
        shards: Vec<(u32, Shard)>,
        event: &Event,
        topology: &Topology,
        multi: bool,
    ) -> Vec<(u32, Answered<Done>)> {
        let work = |_: u32, shard: Shard| -> Answered<Done>
            requires cluster { first_of (cluster_checks topology.now.cluster event.now) ≡ None }
            requires every { block_of event.now ≡ None }
            requires multi { multi ≡ is_multi_rack (change_cluster topology.now.cluster event.now) }
            requires shard { CanCommit topology.now.cluster event.now shard }
            ensures { IsCommitted topology.entry.now.cluster event.entry.now shard result }
        { commit_shard(shard, event, topology, multi) };
        ready.run_alone(shards, &work)
    }

    fn find_all(
        &self,
        ready: Ready<Shard, ShardResult<RoundPart>>,
        shards: Vec<(u32, Shard)>,
        round: u64,
        topology: &Topology,
        bound: Option<Key>,
    ) -> Vec<(u32, ShardResult<RoundPart>)> {
        let work = |_: u32, shard: Shard| -> ShardResult<RoundPart>
            requires { CanFind topology.now.cluster round shard }
            ensures { HasAnswered
                (λ S. part_before bound (next_part topology.entry.now.cluster S)) shard result }
        { find_in_shard(shard, round, topology, bound) };
        ready.run_alone(shards, &work)
    }

    fn prepare_round_all(
        &self,
        ready: Ready<Shard, ShardResult<()>>,
        shards: Vec<(u32, Shard)>,
        parts: &[RoundPart],
        chosen: &Chosen,
        topology: &Topology,
    ) -> Vec<(u32, ShardResult<()>)> {
        let work = |index: u32, shard: Shard| -> ShardResult<()>
            requires { HasPart topology.now.cluster parts.now (index, shard) }
            ensures { IsPrepared (IsReadyForRound chosen.entry.now) shard result }
        { prepare_round_one(index, shard, parts, chosen, topology) };
        ready.run_alone(shards, &work)
    }

    fn commit_round_all(
        &self,
        ready: Ready<Shard, Shard>,
        shards: Vec<(u32, Shard)>,
        parts: &[RoundPart],
        chosen: &Chosen,
        topology: &Topology,
    ) -> Vec<(u32, Shard)> {
        let work = |index: u32, shard: Shard| -> Shard
            requires { CanCommitRound topology.now.cluster parts.now chosen.now (index, shard) }
            ensures { HasTakenRound topology.entry.now.cluster chosen.entry.now shard result }
        { commit_round_one(index, shard, parts, chosen, topology) };
        ready.run_alone(shards, &work)
    }

    fn rows_of_all(
        &self,
        ready: Ready<Shard, ShardResult<Rows>>,
        shards: Vec<(u32, Shard)>,
    ) -> Vec<(u32, ShardResult<Rows>)> {
        let work = |_: u32, shard: Shard| -> ShardResult<Rows>
            ensures { HasAnswered rows_of shard result }
        { rows_of_one(shard) };
        ready.run_alone(shards, &work)
    }
}
