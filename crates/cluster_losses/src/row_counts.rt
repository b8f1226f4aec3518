// The counts of a cluster without the nodes of one row.
ghost use Rattle.std.specs.Prelude.{◌≡◌, ◌≤◌, ◌||◌, ◌==◌, ℕ, nat_lt, not, map, filter, sum_by, IfOk, if◌then◌else◌};
ghost use Rattle.bm_base.specs.Words.{has, keys, is_multi_rack};
ghost use Rattle.bm_base.specs.Spread.{spread};
ghost use Rattle.cluster_lost.specs.Deaths.{is_among};
ghost use Rattle.cluster_losses.specs.FailureDomains.{rack_number};
ghost use Rattle.cluster_losses.specs.LackingBytes.{free_on};
ghost use Rattle.cluster_losses.specs.Outcomes.{left_of, CanLeave};
ghost use Rattle.cluster_losses.specs.RowCounts.{IsMerged, is_on_any, racks_without};

use crate::cluster_counts::free_on;
use bm_base::{BlockId, Items, NodeId, StorageId};
use bm_topo::Topology;
use cluster_lost::block_pass::RowTally;
use cluster_lost::tally::Tally;
use cluster_report::book::Book;
use cluster_report::nodes::{all_nodes, all_storages};
use std::alloc::{AllocError, Global};

/// All blocks without what a row loses.
pub(crate) fn left_of(all: &Tally, row: &RowTally) -> Tally
    requires { CanLeave all.now row.now }
    ensures { result ≡ left_of all.now row.now }
{
    let before = &row.before;
    let after = &row.after;
    Tally {
        highest: all.highest + after.highest - before.highest,
        very_under_replicated: all.very_under_replicated + after.very_under_replicated
            - before.very_under_replicated,
        under_replicated: all.under_replicated + after.under_replicated - before.under_replicated,
        badly_distributed: all.badly_distributed + after.badly_distributed
            - before.badly_distributed,
        none: all.none + after.none - before.none,
        lacking: all.lacking + after.lacking - before.lacking,
    }
}

/// Whether the alive nodes without these are on two racks or more.
pub(crate) fn is_multi_without(
    alloc: Global,
    book: &Book,
    nodes: &[NodeId],
) -> Result<bool, AllocError>
    ensures { IfOk result (λ b.
        b ≡ nat_lt 1 (spread (racks_without book.now.topology.cluster nodes.now))) }
{
    let left = nodes_without(alloc, &book.topology, nodes)?;
    let racks = racks_of_each(alloc, book, left.as_slice())?;
    Ok(spread_of(racks.as_slice()) > 1)
}

/// The alive nodes without these.
fn nodes_without(
    alloc: Global,
    topology: &Topology,
    nodes: &[NodeId],
) -> Result<Vec<NodeId>, AllocError>
    ensures { IfOk result (λ v. v.items
        ≡ filter (λ n. not (is_among nodes.now n)) (keys topology.now.cluster.nodes)) }
{
    let all = all_nodes(alloc, topology)?;
    all.iter()
        .filter(|node| !is_among(nodes, **node))
        .copied()
        .collect(alloc)
}

fn racks_of_each(alloc: Global, book: &Book, nodes: &[NodeId]) -> Result<Vec<u32>, AllocError>
    ensures { IfOk result (λ v. v.items
        ≡ map (rack_number book.now.topology.cluster) nodes.now) }
{
    nodes
        .iter()
        .map(|node| rack_number(book, *node))
        .collect(alloc)
}

fn rack_number(book: &Book, node: NodeId) -> u32
    ensures { result ≡ rack_number book.now.topology.cluster node }
{
    book.rack_of(node).0
}

/// The number of different racks, 2 for more.
fn spread_of(racks: &[u32]) -> usize
    ensures { result ≡ spread racks.now }
{
    let mut first: Option<u32> = None;
    for rack in racks {
        match first {
            None => first = Some(*rack),
            Some(seen) => {
                if *rack != seen {
                    return 2;
                }
            }
        }
    }
    usize::from(first.is_some())
}

fn is_among(nodes: &[NodeId], node: NodeId) -> bool
    ensures { result ≡ is_among nodes.now node }
{
    nodes.iter().any(|other| node == *other)
}

/// The free bytes on all nodes that do not drain, without these nodes.
pub(crate) fn free_without(
    alloc: Global,
    topology: &Topology,
    nodes: &[NodeId],
) -> Result<u128, AllocError>
    ensures { IfOk result (λ n. let C = topology.now.cluster in
        n ≡ sum_by (λ s. if is_on_any C nodes.now s then 0 else free_on C s) (keys C.storages)) }
{
    let storages = all_storages(alloc, topology)?;
    let mut free = 0u128;
    for storage in &storages {
        free += u128::from(free_unless_on(topology, *storage, nodes));
    }
    Ok(free)
}

/// The free bytes of a storage; 0 if it is on one of these nodes.
fn free_unless_on(topology: &Topology, storage: StorageId, nodes: &[NodeId]) -> u64
    ensures { let C = topology.now.cluster in
        result ≡ (if is_on_any C nodes.now storage then 0 else free_on C storage) }
{
    if is_on_any(topology, storage, nodes) {
        0
    } else {
        free_on(topology, storage)
    }
}

fn is_on_any(topology: &Topology, storage: StorageId, nodes: &[NodeId]) -> bool
    ensures { result ≡ is_on_any topology.now.cluster nodes.now storage }
{
    match topology.node_of(storage) {
        Some(node) => is_among(nodes, node),
        None => false,
    }
}

/// The blocks of two lists, ascending.
pub(crate) fn merge(
    alloc: Global,
    some: &[BlockId],
    others: &[BlockId],
) -> Result<Items<BlockId>, AllocError>
    ensures { IfOk result (IsMerged some.now others.now) }
{
    let mut blocks = Vec::from_slice(alloc, some)?;
    blocks.extend_from_slice(others)?;
    blocks.sort()?;
    blocks.dedup();
    Ok(Items::from_vec(blocks))
}
