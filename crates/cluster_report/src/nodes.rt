// The nodes with their storages, as a report lists them.
ghost use Rattle.std.specs.Prelude.{◌≡◌, IfOk, map};
ghost use Rattle.cluster_report.specs.Nodes.{storage_row, storage_rows, state_of, node_row};
ghost use Rattle.cluster_report.specs.Sessions.{Follows};
ghost use Rattle.bm_base.specs.Maps.Map as map_of;

use crate::book::Book;
use bm_base::{Items, NodeId, Rack, Refusal, StorageId};
use bm_manager::Manager;
use bm_topo::Topology;
use std::alloc::{AllocError, Global};

/// The state of a node.
#[derive(Clone, Copy)]
pub enum NodeState {
    Live,
    /// The node drains, and some block still needs it.
    Draining,
    /// The node drains, and can be removed.
    Retired,
}

#[derive(Clone, Copy)]
pub struct StorageRow {
    pub storage: StorageId,
    /// The number of its replicas, of any tag.
    pub replicas: usize,
    /// The bytes of their blocks; a stray replica counts for 0.
    pub bytes: u128,
    /// Its free bytes, from the last heartbeat.
    pub remaining: u64,
}

/// A node with its storages, in ascending order.
#[derive(Drop)]
pub struct NodeRow {
    pub node: NodeId,
    pub rack: Rack,
    pub state: NodeState,
    pub storages: Items<StorageRow>,
}

/// The rows of these nodes. For each of them the blocks on its storages are scanned twice: for what
/// they are, and for whether one of them holds the node back.
pub fn node_rows(
    alloc: Global,
    manager: &Manager,
    book: &Book,
    nodes: &[NodeId],
) -> Result<Items<NodeRow>, Refusal>
    requires { Follows book.now manager.now }
    ensures { IfOk result (λ rows. rows ≡ map (node_row manager.now) nodes.now) }
{
    let mut rows = Vec::new(alloc);
    for node in nodes {
        let row = node_row(alloc, manager, book, *node)?;
        rows.push(row)?;
    }
    Ok(Items::from_vec(rows))
}

/// All nodes, in ascending order.
pub fn all_nodes(alloc: Global, topology: &Topology) -> Result<Vec<NodeId>, AllocError>
    ensures { IfOk result (λ v. v.items ≡ map_of.keys topology.now.cluster.nodes) }
{
    let mut nodes = Vec::new(alloc);
    for place in 0..topology.alive_nodes() {
        let Some(node) = topology.node_at(place) else {
            return Ok(nodes);
        };
        nodes.push(node)?;
    }
    Ok(nodes)
}

/// All storages, in ascending order.
pub fn all_storages(alloc: Global, topology: &Topology) -> Result<Vec<StorageId>, AllocError>
    ensures { IfOk result (λ v. v.items ≡ map_of.keys topology.now.cluster.storages) }
{
    let mut storages = Vec::new(alloc);
    for place in 0..topology.storage_count() {
        let Some(storage) = topology.storage_at(place) else {
            return Ok(storages);
        };
        storages.push(storage)?;
    }
    Ok(storages)
}

fn node_row(alloc: Global, manager: &Manager, book: &Book, node: NodeId) -> Result<NodeRow, Refusal>
    requires { Follows book.now manager.now }
    ensures { IfOk result (λ row. row ≡ node_row manager.now node) }
{
    Ok(NodeRow {
        node,
        rack: book.rack_of(node),
        state: state_of(manager, &book.topology, node)?,
        storages: storage_rows(alloc, manager, book, node)?,
    })
}

fn state_of(manager: &Manager, topology: &Topology, node: NodeId) -> Result<NodeState, Refusal>
    requires { topology.now.cluster ≡ manager.now.cluster }
    ensures { IfOk result (λ s. s ≡ state_of manager.now node) }
{
    if manager.retired(node)? {
        return Ok(NodeState::Retired);
    }
    match topology.node_drains(node) {
        Some(true) => Ok(NodeState::Draining),
        Some(false) => Ok(NodeState::Live),
        None => Err(Refusal::UnknownNode),
    }
}

/// The rows of the node's storages.
fn storage_rows(
    alloc: Global,
    manager: &Manager,
    book: &Book,
    node: NodeId,
) -> Result<Items<StorageRow>, Refusal>
    requires { Follows book.now manager.now }
    ensures { IfOk result (λ rows. rows ≡ storage_rows manager.now node) }
{
    let mut rows = Vec::new(alloc);
    for storage in book.topology.storages_of(node) {
        let row = storage_row(manager, book, *storage)?;
        rows.push(row)?;
    }
    Ok(Items::from_vec(rows))
}

#[tactic(auto, unfolding(bm_base::specs::Machine::Replicas::remaining), using(crate::proofs::LengthLemmas::bytes_are))]
fn storage_row(manager: &Manager, book: &Book, storage: StorageId) -> Result<StorageRow, Refusal>
    requires { Follows book.now manager.now }
    ensures { IfOk result (λ row. row ≡ storage_row manager.now storage) }
{
    let blocks = manager.blocks_on(storage)?;
    Ok(StorageRow {
        storage,
        replicas: blocks.as_slice().len(),
        bytes: book.blocks.bytes_of(blocks.as_slice()),
        remaining: book.topology.remaining(storage).unwrap_or(0),
    })
}
