// Failure domains: the racks or nodes of which each is lost alone.
ghost use Rattle.std.specs.Prelude.{◌≡◌, ◌==◌, map, IfOk};
ghost use Rattle.cluster_losses.specs.FailureDomains.{AreRacks, AreRackNumbers, rack_number, rack_domain, node_domain, nodes_on};
ghost use Rattle.cluster_losses.specs.RowIndex.{AreApart};
ghost use Rattle.bm_base.specs.Maps.Map as map_of;

use bm_base::{Items, NodeId, Rack};
use cluster_report::book::Book;
use cluster_report::nodes::all_nodes;
use std::alloc::{AllocError, Global};

/// A rack or a node that is lost alone: its number, and its nodes.
#[derive(Drop)]
pub struct FailureDomain {
    pub number: u32,
    pub nodes: Items<NodeId>,
}

/// Each rack with its alive nodes, ascending.
pub fn racks_of(alloc: Global, book: &Book) -> Result<Vec<FailureDomain>, AllocError>
    ensures racks { IfOk result (λ v. AreRacks book.now.topology.cluster v.items) }
    ensures apart { IfOk result (λ v. AreApart v.items) }
{
    let numbers = rack_numbers(alloc, book)?;
    let domains = domains_for(alloc, book, numbers.as_slice())?;
    Ok(domains)
}

/// These racks with their nodes.
fn domains_for(alloc: Global, book: &Book, racks: &[u32]) -> Result<Vec<FailureDomain>, AllocError>
    ensures { IfOk result (λ v. v.items ≡ map (rack_domain book.now.topology.cluster) racks.now) }
{
    let mut domains = Vec::new(alloc);
    for rack in racks {
        let number = *rack;
        let nodes = nodes_on(alloc, book, Rack(number))?;
        domains.push(FailureDomain {
            number,
            nodes: Items::from_vec(nodes),
        })?;
    }
    Ok(domains)
}

/// The racks that have alive nodes, ascending.
fn rack_numbers(alloc: Global, book: &Book) -> Result<Vec<u32>, AllocError>
    ensures { IfOk result (λ v. AreRackNumbers book.now.topology.cluster v.items) }
{
    let mut numbers = rack_of_each(alloc, book)?;
    numbers.sort()?;
    numbers.dedup();
    Ok(numbers)
}

/// The rack of each alive node.
fn rack_of_each(alloc: Global, book: &Book) -> Result<Vec<u32>, AllocError>
    ensures { IfOk result (λ v. let C = book.now.topology.cluster in
        v.items ≡ map (rack_number C) (map_of.keys C.nodes)) }
{
    let nodes = all_nodes(alloc, &book.topology)?;
    let mut numbers = Vec::new(alloc);
    for node in &nodes {
        numbers.push(book.rack_of(*node).0)?;
    }
    Ok(numbers)
}

/// Each alive node, ascending.
pub fn nodes_of(alloc: Global, book: &Book) -> Result<Vec<FailureDomain>, AllocError>
    ensures nodes { IfOk result (λ v. v.items
        ≡ map node_domain (map_of.keys book.now.topology.cluster.nodes)) }
    ensures apart { IfOk result (λ v. AreApart v.items) }
{
    let all = all_nodes(alloc, &book.topology)?;
    let mut domains = Vec::new(alloc);
    for node in &all {
        let mut nodes = Vec::new(alloc);
        nodes.push(*node)?;
        domains.push(FailureDomain {
            number: node.0,
            nodes: Items::from_vec(nodes),
        })?;
    }
    Ok(domains)
}

/// The alive nodes of a rack, ascending.
pub(crate) fn nodes_on(alloc: Global, book: &Book, rack: Rack) -> Result<Vec<NodeId>, AllocError>
    ensures { IfOk result (λ v. v.items ≡ nodes_on book.now.topology.cluster rack) }
{
    let nodes = all_nodes(alloc, &book.topology)?;
    nodes
        .iter()
        .filter(|node| is_on(book, **node, rack))
        .copied()
        .collect(alloc)
}

fn is_on(book: &Book, node: NodeId, rack: Rack) -> bool
    ensures { result ≡ (rack_number book.now.topology.cluster node == rack) }
{
    book.rack_of(node) == rack
}
