// The workers of the shards.
ghost use Rattle.std.specs.Prelude.{◌≡◌, ◌<◌, ◌≤◌, None, vec_len, All};
ghost use Rattle.bm_base.specs.Words.{is_multi_rack, change_cluster, first_of, cluster_checks};
ghost use Rattle.bm_parts.specs.BoundedWishes.{part_before};
ghost use Rattle.bm_parts.specs.Parts.{block_of};
ghost use Rattle.bm_shard.specs.ShardView.{IsReadyFor, IsReadyForRound};
ghost use Rattle.bm_shard.specs.UpToDate.{next_part};
ghost use Rattle.bm_shards.specs.Answers.{EachBecame, HasAnswered};
ghost use Rattle.bm_shards.specs.Rows.{rows_of};
ghost use Rattle.bm_shards.specs.ShardWork.{IsPrepared, CanCommit, IsCommitted};
ghost use Rattle.bm_shards.specs.RoundWork.{CanFind, HasPart, CanCommitRound, HasTakenRound};

use crate::answers::{Answered, ShardResult};
use crate::table::Rows;
use bm_base::{Chosen, Done, Event, RoundPart};
use bm_crew::Ready;
use bm_parts::sort_key::Key;
use bm_shard::Shard;
use bm_topo::Topology;

/// Processes all shards, by a crew of threads or by the calling thread alone. No answer depends on
/// which.
///
/// Each kind of work has a method of its own: the checker takes no method of a trait that is
/// generic over the work and sends it to other threads.
pub trait Workers {
    /// The number of workers, the calling thread among them.
    fn count(&self) -> usize
        ensures { 0 < result };

    /// Prepares all shards. Each changes only its capacity; it is ready for the event, or it was
    /// refused.
    fn prepare_all(
        &self,
        ready: Ready<Shard, ShardResult<()>>,
        shards: Vec<(u32, Shard)>,
        event: &Event,
        topology: &Topology,
    ) -> Vec<(u32, ShardResult<()>)>
        requires capacity { vec_len shards ≤ ready.capacity }
        ensures len { vec_len result ≡ vec_len shards }
        ensures each { EachBecame (IsPrepared (IsReadyFor event.now)) shards.items
            result.items };

    /// Changes all shards by an event on no block for which each is ready. Refuses nothing.
    fn commit_all(
        &self,
        ready: Ready<Shard, Answered<Done>>,
        shards: Vec<(u32, Shard)>,
        event: &Event,
        topology: &Topology,
        multi: bool,
    ) -> Vec<(u32, Answered<Done>)>
        requires capacity { vec_len shards ≤ ready.capacity }
        requires cluster { first_of (cluster_checks topology.now.cluster event.now) ≡ None }
        requires every { block_of event.now ≡ None }
        requires multi { multi ≡ is_multi_rack (change_cluster topology.now.cluster event.now) }
        requires shards { All (λ s. CanCommit topology.now.cluster event.now s.1) shards.items }
        ensures len { vec_len result ≡ vec_len shards }
        ensures each { EachBecame (IsCommitted topology.now.cluster event.now) shards.items
            result.items };

    /// Finds the part of each shard for its next round, with the wishes before a bound. No shard
    /// changes.
    fn find_all(
        &self,
        ready: Ready<Shard, ShardResult<RoundPart>>,
        shards: Vec<(u32, Shard)>,
        round: u64,
        topology: &Topology,
        bound: Option<Key>,
    ) -> Vec<(u32, ShardResult<RoundPart>)>
        requires capacity { vec_len shards ≤ ready.capacity }
        requires shards { All (λ s. CanFind topology.now.cluster round s.1) shards.items }
        ensures len { vec_len result ≡ vec_len shards }
        ensures each { EachBecame
            (HasAnswered (λ S. part_before bound (next_part topology.now.cluster S)))
            shards.items result.items };

    /// Prepares all shards for a round. Each changes only its capacity; it is ready for the round,
    /// or it was refused.
    fn prepare_round_all(
        &self,
        ready: Ready<Shard, ShardResult<()>>,
        shards: Vec<(u32, Shard)>,
        parts: &[RoundPart],
        chosen: &Chosen,
        topology: &Topology,
    ) -> Vec<(u32, ShardResult<()>)>
        requires capacity { vec_len shards ≤ ready.capacity }
        requires shards { All (HasPart topology.now.cluster parts.now) shards.items }
        ensures len { vec_len result ≡ vec_len shards }
        ensures each { EachBecame (IsPrepared (IsReadyForRound chosen.now)) shards.items
            result.items };

    /// Takes the next round in each shard, each of which is ready for it. Refuses nothing.
    fn commit_round_all(
        &self,
        ready: Ready<Shard, Shard>,
        shards: Vec<(u32, Shard)>,
        parts: &[RoundPart],
        chosen: &Chosen,
        topology: &Topology,
    ) -> Vec<(u32, Shard)>
        requires capacity { vec_len shards ≤ ready.capacity }
        requires shards { All (CanCommitRound topology.now.cluster parts.now chosen.now) shards.items }
        ensures len { vec_len result ≡ vec_len shards }
        ensures each { EachBecame (HasTakenRound topology.now.cluster chosen.now) shards.items
            result.items };

    /// Asks each shard for its rows. No shard changes.
    fn rows_of_all(
        &self,
        ready: Ready<Shard, ShardResult<Rows>>,
        shards: Vec<(u32, Shard)>,
    ) -> Vec<(u32, ShardResult<Rows>)>
        requires capacity { vec_len shards ≤ ready.capacity }
        ensures len { vec_len result ≡ vec_len shards }
        ensures each { EachBecame (HasAnswered rows_of) shards.items result.items };
}
