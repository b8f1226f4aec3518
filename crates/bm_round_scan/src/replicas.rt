// The replicas of one block, with their marks as a round begins.
ghost use Rattle.std.specs.Prelude.{◌≡◌, true, false, filter_map, IfOk, OnOk};
ghost use Rattle.bm_base.specs.Words.{IsNonDecreasing, by_number, has};
ghost use Rattle.bm_base.specs.Spread.{spread};
ghost use Rattle.bm_arena.specs.HeldMaps.{replicas_at};
ghost use Rattle.bm_levels.specs.Status.{storages_at};
ghost use Rattle.bm_round_scan.specs.BlockFindings.{IsInOrder};
ghost use Rattle.bm_round_scan.specs.BlockMarks.{marked_if, marked_on, excess_reset};
ghost use Rattle.bm_round_scan.specs.BlockScans.{AreUsable};
ghost use Rattle.bm_base.specs.Machine.Replicas as replicas;

use bm_arena::{Arena, Slot};
use bm_base::{Marks, Rack, StorageId, StorageIds};
use bm_topo::Topology;
use std::alloc::{AllocError, Global};

/// The storages of a block's usable replicas.
#[derive(Drop)]
pub(crate) struct UsableReplicas {
    pub live: StorageIds,
    pub drained: StorageIds,
}

/// Replaces the contents by the replicas at a slot, by ascending storage. One in excess counts
/// again if its delete was not ordered. It takes O(n log n) steps for n of them.
pub(crate) fn fill_at_round_start(
    into: &mut Vec<(StorageId, Marks)>,
    arena: &Arena,
    slot: Slot,
) -> Result<(), AllocError>
    ensures { OnOk result (IsInOrder by_number (λ r. r.0)
        (excess_reset (replicas_at arena.now slot)) into.new.items) }
{
    into.clear();
    for at in 0..arena.triplet_count(slot) {
        if let Some((storage, marks)) = arena.triplet_at(slot, at) {
            into.push((storage, marks.with_excess_reset()))?;
        }
    }
    into.sort_unstable_by_key(|replica| replica.0);
    Ok(())
}

/// Marks the replicas on these storages, which are sorted, as in excess: both lists are merged in
/// one pass. Takes no memory.
pub(crate) fn mark_on(replicas: &mut Vec<(StorageId, Marks)>, excess: &[StorageId])
    requires { IsNonDecreasing excess.now }
    ensures { replicas.new.items ≡ marked_on excess.now replicas.old.items }
{
    let mut near = 0;
    for at in 0..replicas.len() {
        let (storage, marks) = replicas[at];
        let is_excess = contains_near(excess, storage, &mut near);
        replicas[at] = (storage, marked_if(is_excess, marks));
    }
}

/// The storages of live replicas, and of drained ones, by one read of each.
pub(crate) fn usable_among(
    alloc: Global,
    topology: &Topology,
    replicas: &[(StorageId, Marks)],
) -> Result<UsableReplicas, AllocError>
    ensures { IfOk result (λ u. AreUsable topology.now.cluster replicas.now u) }
{
    let mut live = StorageIds::new(alloc);
    let mut drained = StorageIds::new(alloc);
    for (storage, marks) in replicas {
        if marks.is_usable() {
            if topology.is_draining(*storage) {
                drained.push(*storage)?;
            } else {
                live.push(*storage)?;
            }
        }
    }
    Ok(UsableReplicas { live, drained })
}

/// The storages of these replicas.
pub(crate) fn storages_of(
    alloc: Global,
    replicas: &[(StorageId, Marks)],
) -> Result<StorageIds, AllocError>
    ensures { IfOk result (λ v. v ≡ storages_at (λ _ _. true) replicas.now) }
{
    let mut storages = StorageIds::new(alloc);
    for (storage, _) in replicas {
        storages.push(*storage)?;
    }
    Ok(storages)
}

/// The number of racks of these storages, 2 for more.
pub(crate) fn spread_of(topology: &Topology, storages: &[StorageId]) -> usize
    ensures { result ≡ spread (filter_map (replicas.rack_of topology.now.cluster) storages.now) }
{
    let mut first: Option<Rack> = None;
    for storage in storages {
        let Some(rack) = topology.rack_of(*storage) else {
            continue;
        };
        match first {
            None => first = Some(rack),
            Some(seen) => {
                if rack != seen {
                    return 2;
                }
            }
        }
    }
    usize::from(first.is_some())
}

fn marked_if(is_excess: bool, marks: Marks) -> Marks
    ensures { result ≡ marked_if is_excess marks }
{
    Marks {
        tag: marks.tag,
        excess: is_excess || marks.excess,
        ordered: marks.ordered,
    }
}

/// Whether a storage is among these, which are sorted. `near` is a hint and may be any index. The
/// storages at this index and the next are compared first; a binary search follows only if they do
/// not decide. `near` becomes the index of the storage, or of the last lesser one. So each of
/// several storages in ascending order mostly takes two comparisons.
pub(crate) fn contains_near(storages: &[StorageId], storage: StorageId, near: &mut usize) -> bool
    requires { IsNonDecreasing storages.now }
    ensures { result ≡ has storages.now storage }
{
    if is_storage_at(storages, storage, *near) {
        return true;
    }
    let behind = near.wrapping_add(1);
    if is_storage_at(storages, storage, behind) {
        *near = behind;
        return true;
    }
    if is_insertion_point(storages, storage, behind) {
        return false;
    }
    let found = storages.binary_search(&storage);
    *near = index_found(&found);
    found.is_ok()
}

/// Whether a storage is at an index.
fn is_storage_at(storages: &[StorageId], storage: StorageId, at: usize) -> bool
    ensures { result ≡ true → has storages.now storage ≡ true }
{
    at < storages.len() && storages[at] == storage
}

/// Whether a storage is missing: `at` is between a lesser storage and a greater one.
fn is_insertion_point(storages: &[StorageId], storage: StorageId, at: usize) -> bool
    requires { IsNonDecreasing storages.now }
    ensures { result ≡ true → has storages.now storage ≡ false }
{
    if at > storages.len() {
        return false;
    }
    (at == 0 || storages[at - 1] < storage) && (at == storages.len() || storage < storages[at])
}

/// The index that a binary search returns, found or not.
fn index_found(found: &Result<usize, usize>) -> usize {
    match found {
        Ok(index) => *index,
        Err(index) => index.wrapping_sub(1),
    }
}
