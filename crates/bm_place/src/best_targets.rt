// The best targets of the nodes.
ghost use Rattle.std.specs.Prelude.{◌≡◌, ◌<◌, ◌==◌, filter_map, length, Some, position, IfOk, OnOk};
ghost use Rattle.bm_base.specs.Words.{IsPermutation, IsSorted};
ghost use Rattle.bm_base.specs.Maps.Map as table;
ghost use Rattle.bm_place.specs.BestTargets as nodes;
ghost use Rattle.bm_place.specs.Scan as scanned;
ghost use Rattle.bm_place.specs.Targets as targets;

use crate::scheduled_bytes::TargetRow;
use bm_base::StorageId;
use bm_maps::NumberMap;
use std::alloc::{AllocError, Global};

/// The best target of each node, sorted. Iterates over the targets once, with a look-up or two
/// each, and sorts those of the nodes.
pub fn best_of_each_node(
    alloc: Global,
    rows: &[(u64, TargetRow)],
) -> Result<Vec<TargetRow>, AllocError>
    ensures { IfOk result (λ v. nodes.AreBestInOrder (table.values rows.now) v.items) }
{
    let firsts = best_by_node(alloc, rows)?;
    let mut best_targets = targets_of(alloc, firsts.entries())?;
    sort_targets(&mut best_targets);
    Ok(best_targets)
}

/// The best target of each node, by node.
fn best_by_node(
    alloc: Global,
    rows: &[(u64, TargetRow)],
) -> Result<NumberMap<TargetRow>, AllocError>
    ensures { IfOk result (λ m. m.map ≡ nodes.with_firsts table.empty (table.values rows.now)) }
{
    let mut firsts = NumberMap::new(alloc);
    for row in rows {
        enter(&mut firsts, &row.1)?;
    }
    Ok(firsts)
}

/// Inserts a target if its node has none, or replaces its node's if it is better; ignores one
/// without a node.
fn enter(firsts: &mut NumberMap<TargetRow>, target: &TargetRow) -> Result<(), AllocError>
    ensures { OnOk result (firsts.new.map ≡ nodes.with_first firsts.old.map target.now) }
{
    let Some(node) = target.node else {
        return Ok(());
    };
    // The storages of a node mostly have adjacent numbers: so its entry is mostly the last one.
    let last = firsts.len().wrapping_sub(1);
    match firsts.get_near(u64::from(node.0), last) {
        Some(first) if !is_better_than(target, &first) => Ok(()),
        _ => firsts.insert(u64::from(node.0), *target),
    }
}

/// The targets of these entries.
fn targets_of(alloc: Global, firsts: &[(u64, TargetRow)]) -> Result<Vec<TargetRow>, AllocError>
    ensures { IfOk result (λ v. v.items ≡ table.values firsts.now) }
{
    let mut targets = Vec::with_capacity(alloc, firsts.len())?;
    for first in firsts {
        targets.push(first.1)?;
    }
    Ok(targets)
}

/// Takes no memory.
fn sort_targets(targets: &mut Vec<TargetRow>)
    ensures moved { IsPermutation targets.old.items targets.new.items }
    ensures in_order { IsSorted nodes.cmp_of_one_node targets.new.items }
{
    targets.sort_unstable_by(|one, other| {
        free_bytes_on(other)
            .cmp(&free_bytes_on(one))
            .then(one.storage.cmp(&other.storage))
    });
}

/// The best of a target and the rows of some storages of its node. Looks up each storage once.
pub fn best_on_node(target: TargetRow, rows: &NumberMap<TargetRow>, near: &[StorageId]) -> TargetRow
    ensures { scanned.scan nodes.cmp_of_one_node (λ c. nodes.are_of_one_node c target) (Some target)
        (filter_map (λ s. table.get rows.now.map s) near.now) ≡ Some result }
{
    let mut best = target;
    for storage in near {
        best = better_of(&best, &target, rows.get(u64::from(storage.0)));
    }
    best
}

/// The better of `best` and `other`, if `other` is of the node of `target`; otherwise `best`.
fn better_of(best: &TargetRow, target: &TargetRow, other: Option<TargetRow>) -> TargetRow
    ensures { result ≡ nodes.better_of best.now target.now other }
{
    match other {
        Some(other) if are_of_one_node(&other, target) && is_better_than(&other, best) => other,
        _ => *best,
    }
}

/// The index of the target of this storage.
pub fn index_of_storage(best_targets: &[TargetRow], storage: StorageId) -> Option<usize>
    ensures { result ≡ position (λ c. c.storage == storage) best_targets.now }
{
    best_targets
        .iter()
        .position(|other| other.storage == storage)
}

/// Replaces the target at `index` and moves it back to its sorted position.
pub fn reposition(best_targets: &mut Vec<TargetRow>, index: usize, target: &TargetRow)
    requires { index < length best_targets.old.items }
    ensures { best_targets.new.items ≡ nodes.reposition target.now index best_targets.old.items }
{
    let mut at = index;
    while at + 1 < best_targets.len() && is_better_than(&best_targets[at + 1], target) {
        best_targets[at] = best_targets[at + 1];
        at += 1;
    }
    best_targets[at] = *target;
}

/// Whether two targets are of one node. Those of one node have one rack, and drain together.
fn are_of_one_node(one: &TargetRow, other: &TargetRow) -> bool
    ensures { result ≡ nodes.are_of_one_node one.now other.now }
{
    one.node == other.node && one.rack == other.rack && one.is_draining == other.is_draining
}

/// Whether a target is better than another of its node: it has more free bytes, or as many and the
/// lesser storage.
fn is_better_than(one: &TargetRow, other: &TargetRow) -> bool
    ensures { result ≡ nodes.is_better_than one.now other.now }
{
    free_bytes_on(other)
        .cmp(&free_bytes_on(one))
        .then(one.storage.cmp(&other.storage))
        .is_lt()
}

/// The remaining bytes of a target less those scheduled to it.
pub fn free_bytes_on(target: &TargetRow) -> u64
    ensures { result ≡ targets.free_bytes_on target.now }
{
    target.remaining.saturating_sub(target.scheduled)
}
