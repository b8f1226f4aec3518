// The storages of the cluster, sorted by node: so those of one node are adjacent.
ghost use Rattle.std.specs.Prelude.{◌≡◌, ◌≤◌, ◌<◌, ◌+◌, ◌-◌, ◌==◌, true, false, ℕ, length, insert, filter, nat_le, slice_index_or, vec_len, vec_capacity};
ghost use Rattle.bm_base.specs.Words.{IsNonDecreasingBy};
ghost use Rattle.std.specs.List.Sorted.{IsPartitionPoint};
ghost use Rattle.bm_topo.specs.Keys.{HasSmallKeys};
ghost use Rattle.bm_topo.specs.ByNode.{node_in, AreAllByNode};
ghost use Rattle.bm_base.specs.Maps.Map as map;

use crate::index_hints::IndexHints;
use bm_base::{NodeId, StorageId, StorageInfo};
use bm_maps::NumberMap;

/// Sets the storages to those of a table, sorted by node, those of a node by ascending number.
/// Takes no memory.
pub(crate) fn sort_by_node(
    sorted: &mut Vec<StorageId>,
    storages: &NumberMap<StorageInfo>,
    hints: &IndexHints,
)
    requires few { map.len storages.now.map ≤ vec_capacity sorted.old }
    requires small { HasSmallKeys storages.now.map }
    ensures sorted { AreAllByNode storages.now.map sorted.new.items }
    ensures no_growth { vec_capacity sorted.new ≡ vec_capacity sorted.old }
{
    sorted.clear();
    for (number, info) in storages.entries() {
        let index = index_for(sorted.as_slice(), info.node, storages, hints);
        insert_reserved(sorted, index, StorageId(*number as u32));
    }
}

/// Inserts a storage at an index, in reserved capacity. At the end nothing moves.
fn insert_reserved(sorted: &mut Vec<StorageId>, at: usize, storage: StorageId)
    requires at { at ≤ length sorted.old.items }
    requires spare { vec_len sorted.old < vec_capacity sorted.old }
    ensures items { sorted.new.items ≡ insert sorted.old.items at storage }
    ensures capacity { vec_capacity sorted.new ≡ vec_capacity sorted.old }
{
    if at == sorted.len() {
        sorted.push_reserved(storage);
        return;
    }
    match sorted.insert(at, storage) {
        Ok(()) => {}
        Err(_) => unreachable!(),
    }
}

/// The storages of a node, by two binary searches.
pub(crate) fn storages_of<'a>(
    sorted: &'a [StorageId],
    node: NodeId,
    storages: &NumberMap<StorageInfo>,
    hints: &IndexHints,
) -> &'a [StorageId]
    requires { AreAllByNode storages.now.map sorted.now }
    ensures { result.now ≡ filter
        (λ s. node_in storages.now.map s == node) (map.keys storages.now.map) }
{
    let first = sorted.partition_point(|storage| read_node(storages, hints, *storage) < node.0);
    let rest = &sorted[first..];
    let count = rest.partition_point(|storage| read_node(storages, hints, *storage) <= node.0);
    &rest[..count]
}

/// The index of a further storage of a node: after those of this node and of lesser ones. Storages
/// mostly come in the order of their nodes, so the last one is compared first.
fn index_for(
    sorted: &[StorageId],
    node: NodeId,
    storages: &NumberMap<StorageInfo>,
    hints: &IndexHints,
) -> usize
    ensures within { result ≤ length sorted.now }
    ensures parted { IsNonDecreasingBy (node_in storages.now.map) sorted.now → IsPartitionPoint
        (λ s. nat_le (node_in storages.now.map s) node ≡ true)
        (λ s. nat_le (node_in storages.now.map s) node ≡ false) sorted.now result }
{
    if is_after_all(sorted, node, storages) {
        return sorted.len();
    }
    sorted.partition_point(|storage| read_node(storages, hints, *storage) <= node.0)
}

/// Whether the last storage, if there is one, is of this node or a lesser one. One read where it
/// has the same index in the table.
fn is_after_all(sorted: &[StorageId], node: NodeId, storages: &NumberMap<StorageInfo>) -> bool
    ensures { result ≡ true → (d : ℕ) → 0 < length sorted.now
        → node_in storages.now.map (slice_index_or sorted.now (length sorted.now - 1) d) ≤ node }
{
    if sorted.is_empty() {
        return true;
    }
    let last = sorted.len() - 1;
    node_near(storages, sorted[last], last) <= node.0
}

/// The node of a storage; 0 of one that the table does not have.
fn read_node(storages: &NumberMap<StorageInfo>, hints: &IndexHints, storage: StorageId) -> u32
    ensures { result ≡ node_in storages.now.map storage }
{
    node_near(storages, storage, hints.of_storage(u64::from(storage.0)))
}

/// As `read_node`, with a guess of the storage's index in the table.
#[tactic(auto, unfolding(crate::specs::ByNode::node_in))]
fn node_near(storages: &NumberMap<StorageInfo>, storage: StorageId, guess: usize) -> u32
    ensures { result ≡ node_in storages.now.map storage }
{
    match storages.get_near(u64::from(storage.0), guess) {
        Some(info) => info.node.0,
        None => 0,
    }
}
