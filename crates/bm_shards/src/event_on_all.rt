// An event on all shards: made on all of them, or on none.
ghost use Rattle.std.specs.Prelude.{◌≡◌, ◌≤◌, ℕ, [], None, IfOk, IfErr, OnOk, OnErr, length, vec_len, vec_capacity, All};
ghost use Rattle.bm_base.specs.Words.{AllZip, is_multi_rack, change_cluster, change_holdings, first_of, cluster_checks, done};
ghost use Rattle.bm_base.specs.declared.refusal.Refusal.TheVariants.{Memory};
ghost use Rattle.bm_parts.specs.Parts.{block_of};
ghost use Rattle.bm_shards.specs.ShardWork.{CanCommit, IsSame, HasGivenUp};
ghost use Rattle.bm_shards.specs.Whole.{AreShards, AreUpToDate, HaveTaken, held_by};

use crate::abort::abort_all;
use crate::answers::{Answered, ShardResult, gather_done, gather_prepared};
use crate::pass_buffers::{PassBuffers, reserve_pass};
use crate::workers::Workers;
use bm_base::{Done, Event, Refusal};
use bm_shard::Shard;
use bm_topo::Topology;
use std::alloc::Global;
use std::mem;

/// Changes all shards by an event on no block, or none of them: the workers take the memory of the
/// event in each shard, and then change each. `Memory`, and then a contract sees no change but of
/// capacity.
pub(crate) fn change_all<W: Workers>(
    alloc: Global,
    workers: &W,
    shards: &mut Vec<(u32, Shard)>,
    event: &Event,
    topology: &Topology,
    multi: bool,
) -> Result<Done, Refusal>
    requires cluster { first_of (cluster_checks topology.now.cluster event.now) ≡ None }
    requires every { block_of event.now ≡ None }
    requires multi { multi ≡ is_multi_rack (change_cluster topology.now.cluster event.now) }
    requires shards { AreShards (length shards.old.items) shards.old.items }
    requires up_to_date { AreUpToDate topology.now.cluster shards.old.items }
    ensures done { IfOk result
        (λ d. d ≡ done (held_by shards.old.items) (held_by shards.new.items)) }
    ensures changed { OnOk result (held_by shards.new.items
        ≡ change_holdings topology.now.cluster (held_by shards.old.items) event.now) }
    ensures up_to_date { OnOk result
        (AreUpToDate (change_cluster topology.now.cluster event.now) shards.new.items) }
    ensures shards { AreShards (length shards.new.items) shards.new.items }
    ensures rounds { (round pend : ℕ) → HaveTaken round pend shards.old.items
        → HaveTaken round pend shards.new.items }
    ensures unchanged { OnErr result (held_by shards.new.items ≡ held_by shards.old.items) }
    ensures after_refusal { OnErr result (AreUpToDate topology.now.cluster shards.new.items) }
    ensures given_up { OnErr result (All (λ s. HasGivenUp s.1) shards.new.items) }
    ensures refused { IfErr result (λ e. e ≡ Memory) }
{
    match prepare_for_event(alloc, workers, shards, event, topology) {
        Ok(buffers) => Ok(commit_and_gather(workers, buffers, shards, event, topology, multi)),
        Err(refusal) => {
            abort_all(shards);
            Err(refusal)
        }
    }
}

/// Prepares all shards, and takes the memory of the pass that changes them. After a refusal, those
/// that were prepared stay prepared.
fn prepare_for_event<W: Workers>(
    alloc: Global,
    workers: &W,
    shards: &mut Vec<(u32, Shard)>,
    event: &Event,
    topology: &Topology,
) -> Result<PassBuffers<Answered<Done>>, Refusal>
    requires up_to_date { AreUpToDate topology.now.cluster shards.old.items }
    ensures same { AllZip IsSame shards.old.items shards.new.items }
    ensures ready { OnOk result
        (All (λ s. CanCommit topology.now.cluster event.now s.1) shards.new.items) }
    ensures capacity { IfOk result (λ r. r.0.capacity ≡ vec_len shards.new) }
    ensures back { IfOk result
        (λ r. (r.1.items ≡ []) × (vec_len shards.new ≤ vec_capacity r.1)) }
    ensures refused { IfErr result (λ e. e ≡ Memory) }
{
    let (preparing, back) = reserve_pass::<ShardResult<()>>(alloc, shards.len(), workers.count())?;
    let items = mem::replace(shards, back);
    let made = workers.prepare_all(preparing, items, event, topology);
    match gather_prepared(made, shards) {
        Ok(()) => reserve_pass::<Answered<Done>>(alloc, shards.len(), workers.count()),
        Err(refusal) => Err(refusal),
    }
}

/// Changes all shards, each of which is ready, and adds up what they answer.
fn commit_and_gather<W: Workers>(
    workers: &W,
    buffers: PassBuffers<Answered<Done>>,
    shards: &mut Vec<(u32, Shard)>,
    event: &Event,
    topology: &Topology,
    multi: bool,
) -> Done
    requires capacity { vec_len shards.old ≤ buffers.0.capacity }
    requires back { (buffers.1.items ≡ []) × (vec_len shards.old ≤ vec_capacity buffers.1) }
    requires cluster { first_of (cluster_checks topology.now.cluster event.now) ≡ None }
    requires every { block_of event.now ≡ None }
    requires multi { multi ≡ is_multi_rack (change_cluster topology.now.cluster event.now) }
    requires ready { All (λ s. CanCommit topology.now.cluster event.now s.1) shards.old.items }
    requires shards { AreShards (length shards.old.items) shards.old.items }
    ensures done { result ≡ done (held_by shards.old.items) (held_by shards.new.items) }
    ensures changed { held_by shards.new.items
        ≡ change_holdings topology.now.cluster (held_by shards.old.items) event.now }
    ensures up_to_date { AreUpToDate (change_cluster topology.now.cluster event.now) shards.new.items }
    ensures shards { AreShards (length shards.new.items) shards.new.items }
    ensures rounds { (round pend : ℕ) → HaveTaken round pend shards.old.items
        → HaveTaken round pend shards.new.items }
{
    let (committing, back) = buffers;
    let items = mem::replace(shards, back);
    let made = workers.commit_all(committing, items, event, topology, multi);
    gather_done(made, shards)
}
