// What the workers do with one shard.
ghost use Rattle.std.specs.Prelude.{◌≡◌, None};
ghost use Rattle.bm_base.specs.Words.{is_multi_rack, change_cluster, first_of, cluster_checks};
ghost use Rattle.bm_parts.specs.BoundedWishes.{part_before};
ghost use Rattle.bm_parts.specs.Parts.{block_of};
ghost use Rattle.bm_shard.specs.ShardView.{IsReadyFor, IsReadyForRound};
ghost use Rattle.bm_shard.specs.UpToDate.{next_part};
ghost use Rattle.bm_shards.specs.Answers.{HasAnswered};
ghost use Rattle.bm_shards.specs.Rows.{rows_of};
ghost use Rattle.bm_shards.specs.ShardWork.{IsPrepared, CanCommit, IsCommitted};
ghost use Rattle.bm_shards.specs.RoundWork.{CanFind, HasPart, CanCommitRound, HasTakenRound};

use crate::answers::{Answered, ShardResult};
use crate::table::Rows;
use bm_base::{Chosen, Done, Event, RoundPart};
use bm_parts::sort_key::Key;
use bm_shard::Shard;
use bm_topo::Topology;

/// Takes the memory of an event in one shard.
pub(crate) fn prepare_shard(mut shard: Shard, event: &Event, topology: &Topology) -> ShardResult<()>
    ensures { IsPrepared (IsReadyFor event.now) shard result }
{
    let answer = shard.prepare(event, topology);
    Answered { shard, answer }
}

/// Changes one shard by an event on no block for which it is ready.
pub(crate) fn commit_shard(
    mut shard: Shard,
    event: &Event,
    topology: &Topology,
    multi: bool,
) -> Answered<Done>
    requires cluster { first_of (cluster_checks topology.now.cluster event.now) ≡ None }
    requires every { block_of event.now ≡ None }
    requires multi { multi ≡ is_multi_rack (change_cluster topology.now.cluster event.now) }
    requires shard { CanCommit topology.now.cluster event.now shard }
    ensures { IsCommitted topology.now.cluster event.now shard result }
{
    let answer = shard.commit(event, topology, multi);
    Answered { shard, answer }
}

/// Finds the part of one shard in its next round, with the wishes before a bound.
pub(crate) fn find_in_shard(
    shard: Shard,
    round: u64,
    topology: &Topology,
    bound: Option<Key>,
) -> ShardResult<RoundPart>
    requires { CanFind topology.now.cluster round shard }
    ensures { HasAnswered (λ S. part_before bound (next_part topology.now.cluster S)) shard result }
{
    let answer = shard.round_part_before(round, topology, bound);
    Answered { shard, answer }
}

/// Takes the memory of a round in the shard of an index, where its part is among the parts.
pub(crate) fn prepare_round_one(
    index: u32,
    mut shard: Shard,
    parts: &[RoundPart],
    chosen: &Chosen,
    topology: &Topology,
) -> ShardResult<()>
    requires { HasPart topology.now.cluster parts.now (index, shard) }
    ensures { IsPrepared (IsReadyForRound chosen.now) shard result }
{
    match parts.get(index as usize) {
        Some(part) => {
            let answer = shard.round_ready(part, chosen, topology);
            Answered { shard, answer }
        }
        None => unreachable!(),
    }
}

/// Takes the next round in the shard with this index, which is ready for it.
pub(crate) fn commit_round_one(
    index: u32,
    mut shard: Shard,
    parts: &[RoundPart],
    chosen: &Chosen,
    topology: &Topology,
) -> Shard
    requires { CanCommitRound topology.now.cluster parts.now chosen.now (index, shard) }
    ensures { HasTakenRound topology.now.cluster chosen.now shard result }
{
    match parts.get(index as usize) {
        Some(part) => {
            shard.round_commit(part, chosen, topology);
            shard
        }
        None => unreachable!(),
    }
}

/// Asks one shard for its rows.
pub(crate) fn rows_of_one(shard: Shard) -> ShardResult<Rows>
    ensures { HasAnswered rows_of shard result }
{
    let answer = shard.table_rows();
    Answered { shard, answer }
}
