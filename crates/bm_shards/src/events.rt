// An event, checked by its block's shard, and made on all shards, on one of them, or on none.
ghost use Rattle.std.specs.Prelude.{◌≡◌, ℕ, None, IfOk, IfErr, OnOk, OnErr, ◌<◌, ◌≤◌, Some, length, slice_get};
ghost use Rattle.bm_base.specs.Words.{Cluster, block_checks, checked, is_multi_rack, change_cluster, change_holdings, done, first_of, cluster_checks, Refuses, takes_memory, shard_of};
ghost use Rattle.bm_shards.specs.Whole.{IsUpToDate, HasTaken, AreShards, AreUpToDate, HaveTaken, held_by};
ghost use Rattle.bm_base.specs.Shards.{cut};
ghost use Rattle.bm_parts.specs.Parts.{block_of};
ghost use Rattle.bm_shard.specs.ShardView.{Seen};
ghost use Rattle.bm_shard.specs.UnusedEntries.{HasNoUnused};
ghost use Rattle.bm_shard.specs.UpToDate.{IsSameButCapacity};
ghost use Rattle.bm_shards.specs.OneShard.{IsChanged, IsChangedAt, IsMadeAt};
ghost use Rattle.bm_shard.specs.UpToDate as one_shard;

use crate::all_shards::AllShards;
use crate::event_on_all::change_all;
use crate::workers::Workers;
use bm_base::{BlockId, Done, Event, Refusal, shard_of};
use bm_parts::events::block_of;
use bm_shard::Shard;
use bm_topo::Topology;

impl AllShards {
    /// The first refusal of an event by its block. Asks the block's shard alone. Takes no memory.
    pub fn check(&self, event: &Event) -> Result<(), Refusal>
        ensures { result ≡ checked (first_of (block_checks self.now.holdings event.now)) }
    {
        match block_of(event) {
            Some(id) => own_shard(self.shards.as_slice(), id).check(event),
            None => Ok(()),
        }
    }

    /// Changes the shards by an event that no check on the cluster refuses. A heartbeat changes
    /// none; an event on a block changes the block's shard alone; any other is made by the workers,
    /// on all shards or on none. `topology` is the cluster before the event, `multi` is whether the
    /// alive nodes are on two racks or more after it. Returns how many replicas came and went.
    /// `Memory`, but for an event that takes no memory, and then a contract sees no change but of
    /// capacity.
    #[tactic(auto, unfolding(crate::specs::Whole::IsUpToDate, crate::specs::Whole::HasTaken))]
    pub fn change<W: Workers>(
        &mut self,
        workers: &W,
        event: &Event,
        topology: &Topology,
        multi: bool,
    ) -> Result<Done, Refusal>
        requires cluster { first_of (cluster_checks topology.now.cluster event.now) ≡ None }
        requires multi { multi ≡ is_multi_rack (change_cluster topology.now.cluster event.now) }
        requires up_to_date { IsUpToDate topology.now.cluster self.old }
        ensures done { IfOk result (λ d. d ≡ done self.old.holdings self.new.holdings) }
        ensures changed { OnOk result (self.new.holdings
            ≡ change_holdings topology.now.cluster self.old.holdings event.now) }
        ensures up_to_date { OnOk result
            (IsUpToDate (change_cluster topology.now.cluster event.now) self.new) }
        ensures rounds { (round pend : ℕ) → HasTaken round pend self.old
            → HasTaken round pend self.new }
        ensures unchanged { OnErr result (self.new.holdings ≡ self.old.holdings) }
        ensures after_refusal { OnErr result (IsUpToDate topology.now.cluster self.new) }
        ensures refused { IfErr result (Refuses None (takes_memory event.now)) }
    {
        topology.show_invariant();
        if let Event::Heartbeat { .. } = event {
            return Ok(Done {
                added: 0,
                removed: 0,
            });
        }
        match block_of(event) {
            Some(id) => change_own(&mut self.shards, id, event, topology, multi),
            None => change_all(
                self.alloc,
                workers,
                &mut self.shards,
                event,
                topology,
                multi,
            ),
        }
    }
}

/// Changes the shard of a block by an event on the block; no other shard is read. `Memory`, but for
/// an event that takes no memory, and then a contract sees no change but of capacity.
fn change_own(
    shards: &mut Vec<(u32, Shard)>,
    id: BlockId,
    event: &Event,
    topology: &Topology,
    multi: bool,
) -> Result<Done, Refusal>
    requires one { block_of event.now ≡ Some id }
    requires cluster { first_of (cluster_checks topology.now.cluster event.now) ≡ None }
    requires multi { multi ≡ is_multi_rack (change_cluster topology.now.cluster event.now) }
    requires shards { AreShards (length shards.old.items) shards.old.items }
    requires up_to_date { AreUpToDate topology.now.cluster shards.old.items }
    ensures done { IfOk result
        (λ d. d ≡ done (held_by shards.old.items) (held_by shards.new.items)) }
    ensures changed { OnOk result (held_by shards.new.items
        ≡ change_holdings topology.now.cluster (held_by shards.old.items) event.now) }
    ensures up_to_date { OnOk result
        (AreUpToDate (change_cluster topology.now.cluster event.now) shards.new.items) }
    ensures shards { AreShards (length shards.new.items) shards.new.items }
    ensures rounds { (round pend : ℕ) → HaveTaken round pend shards.old.items
        → HaveTaken round pend shards.new.items }
    ensures unchanged { OnErr result (held_by shards.new.items ≡ held_by shards.old.items) }
    ensures after_refusal { OnErr result (AreUpToDate topology.now.cluster shards.new.items) }
    ensures refused { IfErr result (Refuses None (takes_memory event.now)) }
{
    let index = index_of_shard(id, shards.len());
    change_at(shards, index, event, topology, multi)
}

/// The shard of a block.
pub(crate) fn own_shard(shards: &[(u32, Shard)], id: BlockId) -> &Shard
    requires { AreShards (length shards.now) shards.now }
    ensures own { result.now.holdings
        ≡ cut (held_by shards.now) (shard_of id (length shards.now)) (length shards.now) }
    ensures up_to_date { (C : Cluster) → AreUpToDate C shards.now → one_shard.IsUpToDate C result.now }
{
    match shards.get(index_of_shard(id, shards.len())) {
        Some(one) => &one.1,
        None => unreachable!(),
    }
}

/// The index of a block's shard among `count` shards.
fn index_of_shard(id: BlockId, count: usize) -> usize
    requires some { 0 < count }
    requires few { count ≤ 64 }
    ensures { result ≡ shard_of id count }
{
    shard_of(id, count as u32) as usize
}

/// Changes the shard at an index by an event, or changes only its capacity.
fn change_at(
    shards: &mut Vec<(u32, Shard)>,
    index: usize,
    event: &Event,
    topology: &Topology,
    multi: bool,
) -> Result<Done, Refusal>
    requires index { index < length shards.old.items }
    requires cluster { first_of (cluster_checks topology.now.cluster event.now) ≡ None }
    requires multi { multi ≡ is_multi_rack (change_cluster topology.now.cluster event.now) }
    requires up_to_date { (s : ℕ × Seen) → slice_get shards.old.items index ≡ Some s
        → one_shard.IsUpToDate topology.now.cluster s.1 }
    ensures changed { IfOk result
        (IsChangedAt topology.now.cluster event.now index shards.old.items shards.new.items) }
    ensures same { OnErr result (IsMadeAt IsSameButCapacity index shards.old.items shards.new.items) }
    ensures refused { IfErr result (Refuses None (takes_memory event.now)) }
{
    match shards.get_mut(index) {
        Some(one) => change_shard(&mut one.1, event, topology, multi),
        None => unreachable!(),
    }
}

/// Changes a shard by an event, or changes only its capacity.
fn change_shard(
    shard: &mut Shard,
    event: &Event,
    topology: &Topology,
    multi: bool,
) -> Result<Done, Refusal>
    requires cluster { first_of (cluster_checks topology.now.cluster event.now) ≡ None }
    requires multi { multi ≡ is_multi_rack (change_cluster topology.now.cluster event.now) }
    requires up_to_date { one_shard.IsUpToDate topology.now.cluster shard.old }
    ensures changed { IfOk result (IsChanged topology.now.cluster event.now shard.old shard.new) }
    ensures same { OnErr result (IsSameButCapacity shard.old shard.new) }
    ensures unused { OnErr result (HasNoUnused shard.new) }
    ensures refused { IfErr result (Refuses None (takes_memory event.now)) }
{
    match shard.prepare(event, topology) {
        Ok(()) => Ok(shard.commit(event, topology, multi)),
        Err(refusal) => {
            shard.abort();
            Err(refusal)
        }
    }
}
