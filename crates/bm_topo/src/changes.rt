// How events change the cluster: capacity is reserved first, so that the change itself takes no
// memory.
ghost use Rattle.std.specs.Prelude.{◌≡◌, ◌≢◌, ℕ, ◌≤◌, ◌+◌, true, false, Some, None, IfErr, IsOk, OnOk};
ghost use Rattle.bm_base.specs.Words.{first_of, cluster_checks, Refuses};
ghost use Rattle.bm_base.specs.declared.storage.StorageInfo.{StorageInfo};
ghost use Rattle.bm_topo.specs.TopologyView.{IsReadyFor, HasNoLessCapacity, IsSameCapacity, grows_cluster};
ghost use Rattle.bm_base.specs.Maps.Map as map;
ghost use Rattle.bm_base.specs.Machine.Events as events;
ghost use Rattle.bm_base.specs.declared.event.Event.TheVariants as event_of;

use crate::by_node::sort_by_node;
use crate::spots::grow_spots;
use crate::tables::{add_storages, drop_storages, leave_rack, set_remaining};
use crate::topology::Topology;
use bm_base::{Event, NodeId, Rack, Refusal, Remaining, StorageId};
use std::alloc::AllocError;

/// The least number of nodes for which capacity is reserved.
const LEAST_GROWTH: usize = 4;

impl Topology {
    /// Reserves the capacity that the event's [`Topology::commit`] needs, after [`Topology::check`]
    /// passed. Only a registration and a node that drains need capacity in the cluster, so only
    /// they can answer `Memory`, and not if the capacity is there already: then nothing changes.
    /// The cluster stays as it is, and so does capacity that was reserved before.
    pub fn prepare(&mut self, event: &Event) -> Result<(), Refusal>
        requires { first_of (cluster_checks self.old.cluster event.now) ≡ None }
        ensures ready { OnOk result (IsReadyFor event.now self.new.spare) }
        ensures refused { IfErr result (Refuses None (grows_cluster event.now)) }
        ensures enough { IsReadyFor event.now self.old.spare → IsOk result }
        ensures nothing_taken { IsReadyFor event.now self.old.spare → self.new ≡ self.old }
        ensures nothing_needed { grows_cluster event.now ≡ false → self.new ≡ self.old }
        ensures kept { HasNoLessCapacity self.old.spare self.new.spare }
        ensures same { self.new.cluster ≡ self.old.cluster }
    {
        match event {
            Event::Register { storages, .. } => Ok(self.reserve(storages.as_slice().len())?),
            Event::Drain { .. } => Ok(self.draining.reserve(1)?),
            _ => Ok(()),
        }
    }

    /// Reserves capacity for one node, on any rack, with `storages` storages.
    fn reserve(&mut self, storages: usize) -> Result<(), AllocError>
        ensures nodes { OnOk result (1 ≤ self.new.spare.nodes) }
        ensures racks { OnOk result (1 ≤ self.new.spare.racks) }
        ensures storages { OnOk result (storages ≤ self.new.spare.storages) }
        ensures enough { 1 ≤ self.old.spare.nodes → 1 ≤ self.old.spare.racks
            → storages ≤ self.old.spare.storages → IsOk result }
        ensures nothing_taken { 1 ≤ self.old.spare.nodes → 1 ≤ self.old.spare.racks
            → storages ≤ self.old.spare.storages →
            self.new ≡ self.old }
        ensures kept { HasNoLessCapacity self.old.spare self.new.spare }
        ensures same { self.new.cluster ≡ self.old.cluster }
    {
        self.reserve_node()?;
        self.reserve_storages(storages)
    }

    /// Reserves capacity for one node, on any rack. Without any, the capacity for nodes is doubled.
    fn reserve_node(&mut self) -> Result<(), AllocError>
        ensures nodes { OnOk result (1 ≤ self.new.spare.nodes) }
        ensures racks { OnOk result (1 ≤ self.new.spare.racks) }
        ensures enough { 1 ≤ self.old.spare.nodes → 1 ≤ self.old.spare.racks → IsOk result }
        ensures nothing_taken { 1 ≤ self.old.spare.nodes → 1 ≤ self.old.spare.racks
            → self.new ≡ self.old }
        ensures kept { HasNoLessCapacity self.old.spare self.new.spare }
        ensures same { self.new.cluster ≡ self.old.cluster }
        ensures storages { self.new.spare.storages ≡ self.old.spare.storages }
    {
        let count = self.nodes.len();
        if count == self.nodes.capacity() {
            let additional = count.max(LEAST_GROWTH);
            self.hints.grow_nodes(count + additional)?;
            self.nodes.reserve_exact(additional)?;
        }
        self.racks.reserve(1)
    }

    /// Reserves capacity for storages. Without enough, the lists next to their table grow first, so
    /// that none of them needs memory later. An `Err` changes nothing that a contract sees.
    fn reserve_storages(&mut self, additional: usize) -> Result<(), AllocError>
        ensures storages { OnOk result (additional ≤ self.new.spare.storages) }
        ensures enough { additional ≤ self.old.spare.storages → IsOk result }
        ensures nothing_taken { additional ≤ self.old.spare.storages → self.new ≡ self.old }
        ensures kept { HasNoLessCapacity self.old.spare self.new.spare }
        ensures same { self.new.cluster ≡ self.old.cluster }
        ensures nodes { self.new.spare.nodes ≡ self.old.spare.nodes }
        ensures racks { self.new.spare.racks ≡ self.old.spare.racks }
    {
        let count = self.storages.len();
        if additional <= self.storages.capacity() - count {
            return Ok(());
        }
        self.by_node.reserve(additional)?;
        let room = self.by_node.capacity();
        grow_spots(&mut self.spots, room)?;
        self.hints.grow_storages(room)?;
        self.storages.reserve_exact(room - count)
    }

    /// Changes the cluster by an event that no check on the cluster refuses, in the capacity that
    /// [`Topology::prepare`] of this event reserved. Takes no memory, and releases none: the
    /// capacity of what leaves the cluster stays reserved.
    #[tactic(auto, unfolding(bm_base::specs::Machine::Events::change_cluster))]
    pub fn commit(&mut self, event: &Event)
        requires accepted { first_of (cluster_checks self.old.cluster event.now) ≡ None }
        requires ready { IsReadyFor event.now self.old.spare }
        ensures after { self.new.cluster ≡ events.change_cluster self.old.cluster event.now }
        ensures no_growth { IsSameCapacity self.old self.new }
        ensures kept { grows_cluster event.now ≡ false
            → HasNoLessCapacity self.old.spare self.new.spare }
    {
        match event {
            Event::Register {
                node,
                rack,
                storages,
            } => {
                self.add_node(*node, *rack, storages.as_slice());
                self.record_indices();
            }
            Event::Dead { node } => {
                self.drop_node(*node);
                self.record_indices();
            }
            Event::StorageFailed { storage } => {
                self.drop_storage(*storage);
                self.record_indices();
            }
            Event::Heartbeat { remaining, .. } => self.set_remaining(remaining.as_slice()),
            Event::Drain { node } => {
                self.drain(*node);
                self.record_indices();
            }
            Event::Undrain { node } => {
                self.undrain(*node);
                self.record_indices();
            }
            Event::AddBlock { .. }
            | Event::DeleteBlock { .. }
            | Event::SetReplication { .. }
            | Event::Restamp { .. }
            | Event::Received { .. }
            | Event::Deleted { .. }
            | Event::Corrupt { .. }
            | Event::FullReport { .. } => {}
        }
    }

    /// Aborts a prepared event. Nothing changes: reserved capacity is kept for later events. The
    /// call may be left out.
    pub fn abort(&mut self)
        ensures { self.new ≡ self.old }
    {}

    fn add_node(&mut self, node: NodeId, rack: Rack, storages: &[StorageId])
        requires accepted { first_of
            (cluster_checks self.old.cluster (event_of.Register node rack storages.now)) ≡ None }
        requires ready { IsReadyFor (event_of.Register node rack storages.now) self.old.spare }
        ensures after { self.new.cluster ≡ events.register self.old.cluster node rack storages.now }
        ensures no_growth { IsSameCapacity self.old self.new }
    {
        let count = self.count_on(rack);
        self.spot_count = 0;
        self.racks.insert_reserved(u64::from(rack.0), count + 1);
        self.nodes.insert_reserved(u64::from(node.0), rack);
        self.draining.remove(u64::from(node.0));
        add_storages(&mut self.storages, node, storages);
        sort_by_node(&mut self.by_node, &self.storages, &self.hints);
    }

    fn drop_node(&mut self, node: NodeId)
        ensures after { self.new.cluster ≡ events.without_node self.old.cluster node }
        ensures no_growth { IsSameCapacity self.old self.new }
        ensures kept { HasNoLessCapacity self.old.spare self.new.spare }
    {
        self.spot_count = 0;
        drop_storages(&mut self.storages, node);
        sort_by_node(&mut self.by_node, &self.storages, &self.hints);
        self.draining.remove(u64::from(node.0));
        self.forget_node(node);
    }

    /// Removes a node that has no storage and does not drain, and counts one node less on its rack.
    fn forget_node(&mut self, node: NodeId)
        requires storages { (storage : ℕ) (info : StorageInfo)
            → map.get self.old.cluster.storages storage ≡ Some info → info.node ≢ node }
        requires draining { map.contains_key self.old.cluster.draining node ≡ false }
        ensures after { self.new.cluster
            ≡ record self.old.cluster { nodes = map.remove self.old.cluster.nodes node } }
        ensures no_growth { IsSameCapacity self.old self.new }
        ensures kept { HasNoLessCapacity self.old.spare self.new.spare }
    {
        let Some(rack) = self.rack_of_node(node) else {
            return;
        };
        let count = self.count_on(rack);
        self.spot_count = 0;
        leave_rack(&mut self.racks, rack, count);
        self.nodes.remove(u64::from(node.0));
    }

    fn drain(&mut self, node: NodeId)
        requires spare { 1 ≤ self.old.spare.draining }
        requires alive { map.contains_key self.old.cluster.nodes node ≡ true }
        ensures after { self.new.cluster ≡ events.drain self.old.cluster node }
        ensures no_growth { IsSameCapacity self.old self.new }
    {
        self.spot_count = 0;
        self.draining.insert_reserved(u64::from(node.0), ());
    }

    fn undrain(&mut self, node: NodeId)
        ensures after { self.new.cluster ≡ events.undrain self.old.cluster node }
        ensures no_growth { IsSameCapacity self.old self.new }
        ensures kept { HasNoLessCapacity self.old.spare self.new.spare }
    {
        self.spot_count = 0;
        self.draining.remove(u64::from(node.0));
    }

    fn drop_storage(&mut self, storage: StorageId)
        ensures after { self.new.cluster ≡ events.without_storage self.old.cluster storage }
        ensures no_growth { IsSameCapacity self.old self.new }
        ensures kept { HasNoLessCapacity self.old.spare self.new.spare }
    {
        self.spot_count = 0;
        self.storages.remove(u64::from(storage.0));
        sort_by_node(&mut self.by_node, &self.storages, &self.hints);
    }

    /// Sets the remaining bytes of known storages, one after another.
    fn set_remaining(&mut self, remaining: &[Remaining])
        ensures after { self.new.cluster ≡ events.heartbeat self.old.cluster remaining.now }
        ensures no_growth { IsSameCapacity self.old self.new }
        ensures kept { HasNoLessCapacity self.old.spare self.new.spare }
    {
        set_remaining(&mut self.storages, &self.hints, remaining);
    }
}
