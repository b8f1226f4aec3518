// An event on the cluster and on one shard: on both, or on neither.
ghost use Rattle.std.specs.Prelude.{◌≡◌, ◌||◌, None, IfOk, IfErr, OnOk, OnErr};
ghost use Rattle.bm_base.specs.Words.{Refuses, done, change_cluster, first_of, block_checks, cluster_checks, ◌before◌};
ghost use Rattle.bm_parts.specs.Parts.{change_part};
ghost use Rattle.bm_shard.specs.ShardView.{needs_reservation};
ghost use Rattle.bm_shard.specs.UpToDate.{IsUpToDate, IsSameButCapacity};
ghost use Rattle.bm_topo.specs.TopologyView.{grows_cluster};

use bm_base::{Done, Event, Refusal};
use bm_shard::Shard;
use bm_topo::Topology;

/// Applies an event: first the checks, then all memory, then the change, which nothing refuses. A
/// refused event has changed nothing but capacity.
pub fn take_event(
    topology: &mut Topology,
    shard: &mut Shard,
    event: &Event,
) -> Result<Done, Refusal>
    requires { IsUpToDate topology.old.cluster shard.old }
    ensures accepted { OnOk result ((first_of (cluster_checks topology.old.cluster event.now)
        before first_of (block_checks shard.old.holdings event.now)) ≡ None) }
    ensures cluster { OnOk result
        (topology.new.cluster ≡ change_cluster topology.old.cluster event.now) }
    ensures holdings { OnOk result
        (shard.new.holdings ≡ change_part topology.old.cluster shard.old.holdings
        shard.old.part.index shard.old.part.shards event.now) }
    ensures done { IfOk result (λ d. d ≡ done shard.old.holdings shard.new.holdings) }
    ensures up_to_date { IsUpToDate topology.new.cluster shard.new }
    ensures refused { IfErr result
        (Refuses (first_of (cluster_checks topology.old.cluster event.now)
        before first_of (block_checks shard.old.holdings event.now))
        (grows_cluster event.now || needs_reservation event.now)) }
    ensures unchanged { OnErr result (topology.new.cluster ≡ topology.old.cluster) }
    ensures same { OnErr result (IsSameButCapacity shard.old shard.new) }
{
    topology.check(event)?;
    shard.check(event)?;
    let multi = topology.multi_after(event);
    topology.prepare(event)?;
    if let Err(refusal) = shard.prepare(event, topology) {
        shard.abort();
        topology.abort();
        return Err(refusal);
    }
    let done = shard.commit(event, topology, multi);
    topology.commit(event);
    Ok(done)
}
