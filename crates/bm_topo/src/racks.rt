// The racks of the nodes. Racks are counted as nodes come and go, so nothing here iterates over the
// nodes.
ghost use Rattle.std.specs.Prelude.{◌≡◌};
ghost use Rattle.bm_base.specs.Words.{change_cluster};
ghost use Rattle.bm_topo.specs.Racks.{on_rack, first_other_rack, is_multi};
ghost use Rattle.bm_base.specs.Maps.Map as map;
ghost use Rattle.bm_base.specs.Machine.Replicas as replicas;

use crate::topology::Topology;
use bm_base::{Event, NodeId, Rack};

impl Topology {
    /// Whether the alive nodes are on two racks or more. Takes no memory.
    #[tactic(auto, unfolding(bm_base::specs::Machine::Replicas::is_multi_rack))]
    pub fn multi_rack(&self) -> bool
        ensures { result ≡ replicas.is_multi_rack self.now.cluster }
    {
        self.racks.len() > 1
    }

    /// Whether the alive nodes will be on two racks or more once the event is committed. Takes no
    /// memory.
    #[tactic(auto, unfolding(bm_base::specs::Machine::Events::change_cluster, bm_base::specs::Machine::Events::register, bm_base::specs::Machine::Events::without_node, bm_base::specs::Machine::Events::without_storage, bm_base::specs::Machine::Events::heartbeat, bm_base::specs::Machine::Events::drain, bm_base::specs::Machine::Events::undrain, bm_base::specs::Machine::Replicas::is_multi_rack, crate::specs::Racks::is_multi))]
    pub fn multi_after(&self, event: &Event) -> bool
        ensures { result ≡ replicas.is_multi_rack (change_cluster self.now.cluster event.now) }
    {
        match event {
            Event::Register { node, rack, .. } => self.spans_racks_with(*node, *rack),
            Event::Dead { node } => self.spans_racks_without(*node),
            Event::StorageFailed { .. }
            | Event::Heartbeat { .. }
            | Event::Drain { .. }
            | Event::Undrain { .. }
            | Event::AddBlock { .. }
            | Event::DeleteBlock { .. }
            | Event::SetReplication { .. }
            | Event::Restamp { .. }
            | Event::Received { .. }
            | Event::Deleted { .. }
            | Event::Corrupt { .. }
            | Event::FullReport { .. } => self.multi_rack(),
        }
    }

    /// Whether the other nodes and this one, on this rack, are on two racks or more.
    fn spans_racks_with(&self, node: NodeId, rack: Rack) -> bool
        ensures { result ≡ is_multi (map.insert self.now.cluster.nodes node rack) }
    {
        self.others_on(node, rack) < self.others(node)
    }

    /// Whether the other nodes, without this one, are on two racks or more.
    fn spans_racks_without(&self, node: NodeId) -> bool
        ensures { result ≡ is_multi (map.remove self.now.cluster.nodes node) }
    {
        match self.other_rack(node) {
            Some(rack) => self.others_on(node, rack) < self.others(node),
            None => false,
        }
    }

    /// The number of nodes on a rack.
    pub(crate) fn count_on(&self, rack: Rack) -> u32
        ensures { result ≡ on_rack self.now.cluster.nodes rack }
    {
        match self.racks.get(u64::from(rack.0)) {
            Some(count) => count,
            None => 0,
        }
    }

    /// The number of nodes on a rack, this one not counted.
    fn others_on(&self, node: NodeId, rack: Rack) -> u32
        ensures { result ≡ on_rack (map.remove self.now.cluster.nodes node) rack }
    {
        let count = self.count_on(rack);
        match self.rack_of_node(node) {
            Some(its_rack) => { if its_rack == rack { count - 1 } else { count } }
            None => count,
        }
    }

    /// How many other nodes there are.
    fn others(&self, node: NodeId) -> u32
        ensures { result ≡ map.len (map.remove self.now.cluster.nodes node) }
    {
        let nodes = self.alive_nodes();
        match self.rack_of_node(node) {
            Some(_) => nodes - 1,
            None => nodes,
        }
    }

    /// The rack of the first other node: that of the first node, or of the second.
    fn other_rack(&self, node: NodeId) -> Option<Rack>
        ensures { result ≡ first_other_rack node (map.entries self.now.cluster.nodes) }
    {
        for (number, rack) in self.nodes.entries() {
            if *number != u64::from(node.0) {
                return Some(*rack);
            }
        }
        None
    }
}
