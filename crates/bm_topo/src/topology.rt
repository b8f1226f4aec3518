// The tables of the cluster, and look-ups in them.
ghost use Rattle.std.specs.Prelude.{◌≡◌, ◌≤◌, ℕ, IfOk, IsOk, IsTrue, Some, None, false, length, filter, option_map, slice_get, if◌then◌else◌};
ghost use Rattle.bm_base.specs.Words.{option_map_or, knows_node, knows_storage, IsLawfulCluster};
ghost use Rattle.bm_base.specs.declared.limits.TheConstants.{MOST_NODES, MOST_STORAGES};
ghost use Rattle.bm_base.specs.Machine.Configuration.{are_allowed};
ghost use Rattle.bm_topo.specs.TopologyView.{no_capacity};
ghost use Rattle.bm_base.specs.Maps.Map as map;
ghost use Rattle.bm_base.specs.Machine.State as state;
ghost use Rattle.bm_base.specs.Maps.Lists as lists;
ghost use Rattle.bm_base.specs.Machine.Replicas as replicas;

use crate::by_node::storages_of;
use crate::index_hints::IndexHints;
use crate::spots::{Spot, set_spots, spot_on};
use bm_base::{Limits, NodeId, Rack, Refusal, StorageId, StorageInfo};
use bm_maps::NumberMap;
use std::alloc::Global;
use std::marker::Model;

/// Where a storage is.
#[derive(Clone, Copy)]
pub struct Location {
    /// Its node; `None` where the storage is not known.
    pub node: Option<NodeId>,
    /// The rack of its node.
    pub rack: Option<Rack>,
    /// Whether its node drains.
    pub drains: bool,
    /// The bytes that remain on it; 0 where it is not known.
    pub remaining: u64,
}

/// The alive DataNodes with their racks, those of them that drain, and their storages with their
/// free bytes.
///
/// A contract sees the cluster of the definitions with its limits, and the spare capacity for
/// nodes, racks, storages and nodes that drain. The node and the rack of a storage mostly take one
/// read, of its spot, and else binary searches among the nodes and the storages. No look-up takes
/// memory. Memory is in proportion to the most nodes and storages that were registered at a time,
/// whatever the limits are.
#[derive(Drop)]
pub struct Topology {
    pub(crate) limits: Limits,
    pub(crate) nodes: NumberMap<Rack>,
    /// The alive nodes that drain.
    pub(crate) draining: NumberMap<()>,
    /// For each rack with nodes, their number.
    pub(crate) racks: NumberMap<u32>,
    pub(crate) storages: NumberMap<StorageInfo>,
    // Hints for the indices in these tables.
    pub(crate) hints: IndexHints,
    // Where the storages are, each at its index in their table. The table has no more capacity
    // than there are spots here.
    pub(crate) spots: Vec<Spot>,
    // How many spots are set: 0 while the cluster changes.
    pub(crate) spot_count: usize,
    // The storages, sorted by node. Their table has no more capacity than this list.
    pub(crate) by_node: Vec<StorageId>,
}

impl Model for Topology {
    ghost use Rattle.std.specs.Prelude.{length, vec_capacity};
    ghost use Rattle.bm_maps.specs.Table.{capacity};
    ghost use Rattle.bm_topo.specs.TopologyView.{Seen, coded_seen};
    ghost use Rattle.bm_topo.specs.Sound.{IsSound, cluster_of};
    ghost use Rattle.bm_topo.specs.Room.{HasRoomFor};
    ghost use Rattle.bm_topo.specs.Spots.{HasSpots};
    ghost use Rattle.bm_topo.specs.ByNode.{AreAllByNode};

    ghost Value = { Seen };

    ghost coded = { coded_seen };

    ghost view = { λ t. record {
      cluster = record {
        limits = t.limits;
        nodes = t.nodes.map;
        draining = t.draining.map;
        storages = t.storages.map;
      };
      spare = record {
        nodes = t.nodes.spare;
        draining = t.draining.spare;
        racks = t.racks.spare;
        storages = t.storages.spare;
      };
    } };

    ghost invariant = { λ t. (IsSound t.limits t.nodes.map t.racks.map t.draining.map t.storages.map)
        × (HasSpots (cluster_of t.limits t.nodes.map t.draining.map t.storages.map) t.spots.items
        t.spot_count)
        × (AreAllByNode t.storages.map t.by_node.items)
        × (HasRoomFor (capacity t.storages) (length t.spots.items) (vec_capacity t.by_node)) };
}

impl Topology {
    /// An empty cluster within these limits, with no capacity. Takes no memory yet, so it succeeds.
    #[tactic(auto, unfolding(bm_base::specs::Machine::State::empty_cluster))]
    pub fn new(alloc: Global, limits: Limits) -> Result<Topology, Refusal>
        requires { IsTrue (are_allowed limits) }
        ensures empty { IfOk result (λ t. t.cluster ≡ state.empty_cluster limits) }
        ensures spare { IfOk result (λ t. t.spare ≡ no_capacity) }
        ensures succeeds { IsOk result }
    {
        Ok(Topology {
            limits,
            nodes: NumberMap::new(alloc),
            draining: NumberMap::new(alloc),
            racks: NumberMap::new(alloc),
            storages: NumberMap::new(alloc),
            hints: IndexHints::new(alloc),
            spots: Vec::new(alloc),
            spot_count: 0,
            by_node: Vec::new(alloc),
        })
    }

    /// How many nodes may be alive, and how many storages there may be.
    pub fn limits(&self) -> Limits
        ensures is { result ≡ self.now.cluster.limits }
        ensures allowed { IsTrue (are_allowed result) }
    {
        self.limits
    }

    /// For proofs alone: each storage is on an alive node, only alive nodes drain, and the limits
    /// are kept. Does nothing when it runs.
    pub fn show_invariant(&self)
        ensures { IsLawfulCluster self.now.cluster }
    {
        let _ = &self.nodes;
    }

    /// The node and the free bytes of a storage: one read at the hint, and else a look-up.
    fn info_of(&self, storage: StorageId) -> Option<StorageInfo>
        ensures { result ≡ map.get self.now.cluster.storages storage }
    {
        let number = u64::from(storage.0);
        let entries = self.storages.entries();
        if let Some((found, info)) = entries.get(self.hints.of_storage(number)) {
            if *found == number {
                return Some(*info);
            }
        }
        self.storages.get(number)
    }

    /// Fills the hints for storages and nodes, and sets the spots. Takes no memory.
    pub(crate) fn record_indices(&mut self)
        ensures { self.new ≡ self.old }
    {
        self.hints.fill(
            self.storages.entries(),
            self.nodes.entries(),
            self.draining.entries(),
        );
        set_spots(
            &mut self.spots,
            &self.storages,
            &self.nodes,
            &self.draining,
            &self.hints,
        );
        self.spot_count = self.storages.len();
    }

    /// The rack of a node, if it is alive: two reads at the hint, and else a look-up.
    pub(crate) fn rack_of_node(&self, node: NodeId) -> Option<Rack>
        ensures { result ≡ map.get self.now.cluster.nodes node }
    {
        let number = u64::from(node.0);
        self.nodes.get_near(number, self.hints.of_node(number))
    }

    /// Whether a node drains: two reads at the hint, and else a look-up.
    #[tactic(auto, unfolding(bm_base::specs::Machine::Replicas::drains))]
    fn drains(&self, node: NodeId) -> bool
        ensures { result ≡ replicas.drains self.now.cluster node }
    {
        let number = u64::from(node.0);
        let index = self.hints.of_draining(number);
        self.draining.get_near(number, index).is_some()
    }

    /// Where a storage is; `None` where it is not known.
    #[inline]
    #[tactic(auto, unfolding(bm_base::specs::Machine::Replicas::node_of))]
    pub fn spot_of(&self, storage: StorageId) -> Option<Spot>
        ensures node { option_map (λ p. p.node) result ≡ replicas.node_of self.now.cluster storage }
        ensures rack { option_map (λ p. p.rack) result ≡ replicas.rack_of self.now.cluster storage }
        ensures drains { option_map_or (λ p. p.drains) result false
            ≡ replicas.is_draining self.now.cluster storage }
    {
        let index = self.hints.of_storage(u64::from(storage.0));
        if index < self.spot_count {
            let spot = self.spots[index];
            if spot.storage == storage {
                return Some(spot);
            }
        }
        self.find_spot(storage)
    }

    /// As `spot_of`, by look-ups: for a wrong hint.
    #[inline(never)]
    fn find_spot(&self, storage: StorageId) -> Option<Spot>
        ensures node { option_map (λ p. p.node) result ≡ replicas.node_of self.now.cluster storage }
        ensures rack { option_map (λ p. p.rack) result ≡ replicas.rack_of self.now.cluster storage }
        ensures drains { option_map_or (λ p. p.drains) result false
            ≡ replicas.is_draining self.now.cluster storage }
    {
        match self.storages.get(u64::from(storage.0)) {
            Some(info) => Some(spot_on(
                storage,
                info.node,
                &self.nodes,
                &self.draining,
                &self.hints,
            )),
            None => None,
        }
    }

    /// The node of a storage; `None` where the storage is not known.
    pub fn node_of(&self, storage: StorageId) -> Option<NodeId>
        ensures { result ≡ replicas.node_of self.now.cluster storage }
    {
        match self.spot_of(storage) {
            Some(spot) => Some(spot.node),
            None => None,
        }
    }

    /// Whether a storage is known.
    #[tactic(auto, unfolding(bm_base::specs::Machine::Refusals::knows_storage, bm_base::specs::Machine::Replicas::node_of))]
    pub fn knows_storage(&self, storage: StorageId) -> bool
        ensures { result ≡ knows_storage self.now.cluster storage }
    {
        self.spot_of(storage).is_some()
    }

    /// Whether a storage is known and on this node.
    #[tactic(auto, unfolding(bm_base::specs::Machine::Replicas::has_storage))]
    pub fn has_storage(&self, node: NodeId, storage: StorageId) -> bool
        ensures { result ≡ replicas.has_storage self.now.cluster node storage }
    {
        match self.node_of(storage) {
            Some(its_node) => its_node == node,
            None => false,
        }
    }

    /// The storages of a node, by ascending number; none where the node is not alive. Two binary
    /// searches.
    pub fn storages_of(&self, node: NodeId) -> &[StorageId]
        ensures storages { result.now ≡ filter (replicas.has_storage self.now.cluster node)
            (map.keys self.now.cluster.storages) }
        ensures each { (s : ℕ)
            → lists.has result.now s ≡ replicas.has_storage self.now.cluster node s }
        ensures few { length result.now ≤ self.now.cluster.limits.storages }
        ensures fits { length result.now ≤ MOST_STORAGES }
    {
        storages_of(self.by_node.as_slice(), node, &self.storages, &self.hints)
    }

    /// The rack of a storage's node; `None` for an unknown storage.
    pub fn rack_of(&self, storage: StorageId) -> Option<Rack>
        ensures { result ≡ replicas.rack_of self.now.cluster storage }
    {
        match self.spot_of(storage) {
            Some(spot) => Some(spot.rack),
            None => None,
        }
    }

    /// Whether a storage is on a node that drains; not for an unknown storage.
    pub fn is_draining(&self, storage: StorageId) -> bool
        ensures { result ≡ replicas.is_draining self.now.cluster storage }
    {
        match self.spot_of(storage) {
            Some(spot) => spot.drains,
            None => false,
        }
    }

    /// Where a storage is and what remains on it.
    #[tactic(auto, unfolding(bm_base::specs::Machine::Replicas::remaining))]
    pub fn location_of(&self, storage: StorageId) -> Location
        ensures node { result.node ≡ replicas.node_of self.now.cluster storage }
        ensures rack { result.rack ≡ replicas.rack_of self.now.cluster storage }
        ensures drains { result.drains ≡ replicas.is_draining self.now.cluster storage }
        ensures remaining { result.remaining ≡ replicas.remaining self.now.cluster storage }
    {
        let remaining = self.remaining(storage).unwrap_or(0);
        match self.spot_of(storage) {
            Some(spot) => Location {
                node: Some(spot.node),
                rack: Some(spot.rack),
                drains: spot.drains,
                remaining,
            },
            None => Location {
                node: None,
                rack: None,
                drains: false,
                remaining,
            },
        }
    }

    /// Whether a node drains; `None` where it is not alive.
    #[tactic(auto, unfolding(bm_base::specs::Machine::Replicas::drains, bm_base::specs::Machine::Refusals::knows_node))]
    pub fn node_drains(&self, node: NodeId) -> Option<bool>
        ensures { result ≡ (if knows_node self.now.cluster node then Some
            (replicas.drains self.now.cluster node) else None) }
    {
        match self.rack_of_node(node) {
            Some(_) => Some(self.drains(node)),
            None => None,
        }
    }

    /// The free bytes of a storage by the last heartbeat, 0 before the first; `None` for an unknown
    /// storage.
    pub fn remaining(&self, storage: StorageId) -> Option<u64>
        ensures { result ≡ option_map
            (λ i. i.remaining) (map.get self.now.cluster.storages storage) }
    {
        match self.info_of(storage) {
            Some(info) => Some(info.remaining),
            None => None,
        }
    }

    /// How many nodes are alive, within the limits.
    pub fn alive_nodes(&self) -> u32
        ensures count { result ≡ map.len self.now.cluster.nodes }
        ensures few { result ≤ self.now.cluster.limits.nodes }
        ensures fits { result ≤ MOST_NODES }
    {
        self.nodes.len() as u32
    }

    /// How many storages there are, within the limits.
    pub fn storage_count(&self) -> u32
        ensures count { result ≡ map.len self.now.cluster.storages }
        ensures few { result ≤ self.now.cluster.limits.storages }
        ensures fits { result ≤ MOST_STORAGES }
    {
        self.storages.len() as u32
    }

    /// The storage at an index, in ascending order of numbers, from 0 on; `None` past the last.
    #[tactic(auto, unfolding(bm_base::specs::Maps::Map::keys))]
    pub fn storage_at(&self, index: u32) -> Option<StorageId>
        ensures { result ≡ slice_get (map.keys self.now.cluster.storages) index }
    {
        match self.storages.entries().get(index as usize) {
            Some((number, _)) => Some(StorageId(*number as u32)),
            None => None,
        }
    }

    /// The node at an index, in ascending order of numbers, from 0 on; `None` past the last.
    #[tactic(auto, unfolding(bm_base::specs::Maps::Map::keys))]
    pub fn node_at(&self, index: u32) -> Option<NodeId>
        ensures { result ≡ slice_get (map.keys self.now.cluster.nodes) index }
    {
        match self.nodes.entries().get(index as usize) {
            Some((number, _)) => Some(NodeId(*number as u32)),
            None => None,
        }
    }
}
