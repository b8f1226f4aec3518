// Incidents: what a cluster can lose.
ghost use Rattle.std.specs.Prelude.{◌≡◌};
ghost use Rattle.cluster_simulation.specs.Incidents.{kills_node, kills, drains, any_kills_node, any_kills, any_drains};

use crate::shape::Shape;
use std::fmt;

/// An incident, by the number of the rack, node or disk.
#[derive(Clone, Copy)]
pub enum Incident {
    NodeDies(u32),
    RackDies(u32),
    NodeDrains(u32),
    DiskFails(u32),
}

impl Incident {
    /// Whether the node is lost, alone or with its rack.
    #[tactic(auto, unfolding(crate::specs::Incidents::kills_node))]
    fn kills_node(&self, shape: Shape, node: u32) -> bool
        ensures { result ≡ kills_node self.now shape node }
    {
        match self {
            Incident::NodeDies(dead) => node == *dead,
            Incident::RackDies(dead) => shape.rack_of(node) == *dead,
            Incident::DiskFails(_) | Incident::NodeDrains(_) => false,
        }
    }

    /// Whether the disk is lost, alone or with its node.
    #[tactic(auto, unfolding(crate::specs::Incidents::kills))]
    fn kills(&self, shape: Shape, storage: u32) -> bool
        ensures { result ≡ kills self.now shape storage }
    {
        match self {
            Incident::DiskFails(failed) => storage == *failed,
            _ => self.kills_node(shape, shape.node_of(storage)),
        }
    }

    /// Whether the node begins to drain.
    #[tactic(auto, unfolding(crate::specs::Incidents::drains))]
    fn drains(&self, node: u32) -> bool
        ensures { result ≡ drains self.now node }
    {
        matches!(self, Incident::NodeDrains(drained) if node == *drained)
    }
}

/// Whether the node is lost by one of the incidents.
pub fn any_kills_node(incidents: &[Incident], shape: Shape, node: u32) -> bool
    ensures { result ≡ any_kills_node incidents.now shape node }
{
    incidents
        .iter()
        .any(|incident| incident.kills_node(shape, node))
}

/// Whether the disk is lost by one of the incidents.
pub fn any_kills(incidents: &[Incident], shape: Shape, storage: u32) -> bool
    ensures { result ≡ any_kills incidents.now shape storage }
{
    incidents
        .iter()
        .any(|incident| incident.kills(shape, storage))
}

/// Whether the node begins to drain by one of the incidents.
pub fn any_drains(incidents: &[Incident], node: u32) -> bool
    ensures { result ≡ any_drains incidents.now node }
{
    incidents.iter().any(|incident| incident.drains(node))
}

impl fmt::Display for Incident {
    fn fmt<W: fmt::Write>(&self, f: &mut fmt::Formatter<W>) -> fmt::Result {
        match *self {
            Incident::NodeDies(node) => write!(f, "node {node} dies"),
            Incident::RackDies(rack) => write!(f, "all nodes of rack {rack} die"),
            Incident::NodeDrains(node) => write!(f, "node {node} drains"),
            Incident::DiskFails(storage) => write!(f, "disk {storage} fails"),
        }
    }
}
