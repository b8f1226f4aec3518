// Events on the cluster, as they change a shard. None takes memory.
ghost use Rattle.std.specs.Prelude.{◌≡◌, ◌<◌, ◌^◌, ◌==◌, ◌&&◌, ℕ, List, not, None, if◌then◌else◌};
ghost use Rattle.bm_base.specs.Words.{keep, Cluster, first_of, cluster_checks};
ghost use Rattle.bm_base.specs.declared.event.Remaining.{Remaining};
ghost use Rattle.bm_parts.specs.PlacedLaws.{IsPlaced};
ghost use Rattle.bm_shard.specs.UnusedEntries.{HasNoUnused};
ghost use Rattle.bm_shard.specs.LeavingStorages.{HasNoLists};
ghost use Rattle.bm_shard.specs.EventEffects.{HasChanged};
ghost use Rattle.bm_base.specs.Machine.Replicas as replicas;
ghost use Rattle.bm_base.specs.Machine.Events as events;
ghost use Rattle.bm_base.specs.declared.event.Event.TheVariants as event_of;

use crate::block_events::NO_CHANGE;
use crate::shard::{PreparedEvent, Shard};
use bm_base::{Done, NodeId, StorageId};
use bm_pending::PendingTransfers;
use bm_topo::Topology;

impl Shard {
    /// A node leaves with its storages: their replicas and the transfers to them leave. `multi` is
    /// whether the alive nodes are on two racks or more without it. Costs one step for each
    /// of the replicas, and one pass over the transfers.
    pub(crate) fn forget_node(&mut self, topology: &Topology, node: NodeId, multi: bool) -> Done
        requires multi { multi
            ≡ replicas.is_multi_rack (events.without_node topology.now.cluster node) }
        requires none { HasNoUnused self.old }
        ensures changed { HasChanged topology.now.cluster
            (events.without_node topology.now.cluster node) self.old self.new
            (events.without_storages self.old.holdings
            (replicas.has_storage topology.now.cluster node)) result }
        ensures few { (result.added < 2 ^ 100) × (result.removed < 2 ^ 100) }
        ensures lists { HasNoLists (replicas.has_storage topology.now.cluster node) self.new }
        ensures unused { HasNoUnused self.new }
    {
        self.prepared = PreparedEvent::Nothing;
        self.blocks.show_invariant();
        self.blocks.arena().show_invariant();
        let removed = self.blocks.forget_node(topology, node, multi);
        self.blocks.arena().show_invariant();
        drop_transfers_to(&mut self.pending, topology, node);
        Done { added: 0, removed }
    }

    /// A storage fails: its replicas and the transfers to it leave. Costs one step for each of the
    /// replicas, and one pass over the transfers.
    pub(crate) fn forget_storage(&mut self, topology: &Topology, storage: StorageId) -> Done
        requires none { HasNoUnused self.old }
        ensures changed { HasChanged topology.now.cluster
            (events.without_storage topology.now.cluster storage) self.old self.new
            (events.without_storages self.old.holdings (λ t. t == storage)) result }
        ensures few { (result.added < 2 ^ 100) × (result.removed < 2 ^ 100) }
        ensures lists { HasNoLists (λ s. s == storage) self.new }
        ensures unused { HasNoUnused self.new }
    {
        self.prepared = PreparedEvent::Nothing;
        self.blocks.show_invariant();
        self.blocks.arena().show_invariant();
        let removed = self.blocks.forget_storage(topology, storage);
        self.blocks.arena().show_invariant();
        drop_transfers_on(&mut self.pending, storage);
        Done { added: 0, removed }
    }

    /// A node begins or ceases to drain. If it begins, the transfers to its storages leave.
    pub(crate) fn set_draining(&mut self, topology: &Topology, node: NodeId, drains: bool) -> Done
        requires none { HasNoUnused self.old }
        ensures changed { HasChanged topology.now.cluster
            (if drains then events.drain topology.now.cluster node
            else events.undrain topology.now.cluster node) self.old self.new
            (if drains then events.begin_drain topology.now.cluster self.old.holdings node
            else self.old.holdings) result }
        ensures nothing { (result.added ≡ 0) × (result.removed ≡ 0) }
        ensures unused { HasNoUnused self.new }
    {
        self.prepared = PreparedEvent::Nothing;
        self.blocks.show_invariant();
        self.blocks.arena().show_invariant();
        self.blocks.set_draining(topology, node, drains);
        self.blocks.arena().show_invariant();
        drop_drained_transfers(&mut self.pending, topology, node, drains);
        NO_CHANGE
    }

    /// A node comes with its storages, which are empty. `multi` is whether the alive nodes are
    /// on two racks or more with it.
    pub(crate) fn register(&mut self, topology: &Topology, multi: bool) -> Done
        requires placed { IsPlaced topology.now.cluster self.old.holdings }
        requires none { HasNoUnused self.old }
        ensures changed { (node rack : ℕ) (storages : List ℕ)
            → first_of (cluster_checks topology.now.cluster (event_of.Register node rack storages))
            ≡ None
            → multi
            ≡ replicas.is_multi_rack (events.register topology.now.cluster node rack storages)
            → HasChanged topology.now.cluster
            (events.register topology.now.cluster node rack storages) self.old self.new
            self.old.holdings result }
        ensures unused { HasNoUnused self.new }
    {
        self.prepared = PreparedEvent::Nothing;
        topology.show_invariant();
        self.blocks.show_invariant();
        self.blocks.arena().show_invariant();
        self.blocks.reclassify_for_racks(topology, multi);
        self.blocks.arena().show_invariant();
        NO_CHANGE
    }

    /// A node reports the remaining bytes of its storages: nothing changes.
    pub(crate) fn note_heartbeat(&mut self) -> Done
        requires none { HasNoUnused self.old }
        ensures changed { (C : Cluster) (remaining : List Remaining) → HasChanged C
            (events.heartbeat C remaining) self.old self.new self.old.holdings result }
        ensures unused { HasNoUnused self.new }
    {
        self.prepared = PreparedEvent::Nothing;
        self.blocks.show_invariant();
        self.blocks.arena().show_invariant();
        NO_CHANGE
    }
}

/// If a node begins to drain that did not drain yet, the transfers to its storages leave.
fn drop_drained_transfers(
    pending: &mut PendingTransfers,
    topology: &Topology,
    node: NodeId,
    drains: bool,
)
    ensures { pending.new.map
        ≡ (if drains && not (replicas.drains topology.now.cluster node) then keep pending.old.map
        (λ q _. not (replicas.has_storage topology.now.cluster node q.storage))
        else pending.old.map) }
{
    if drains && !drains_now(topology, node) {
        drop_transfers_to(pending, topology, node);
    }
}

/// Whether a node drains.
fn drains_now(topology: &Topology, node: NodeId) -> bool
    ensures { result ≡ replicas.drains topology.now.cluster node }
{
    topology.show_invariant();
    topology.node_drains(node).unwrap_or(false)
}

/// The transfers to a node's storages leave.
fn drop_transfers_to(pending: &mut PendingTransfers, topology: &Topology, node: NodeId)
    ensures { pending.new.map
        ≡ keep pending.old.map
        (λ q _. not (replicas.has_storage topology.now.cluster node q.storage)) }
{
    pending.drop_storages(topology.storages_of(node));
}

/// The transfers to a storage leave.
fn drop_transfers_on(pending: &mut PendingTransfers, storage: StorageId)
    ensures { pending.new.map ≡ keep pending.old.map (λ q _. not (q.storage == storage)) }
{
    let storages = [storage];
    pending.drop_storages(storages.as_slice());
}
