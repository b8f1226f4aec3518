// The target of a copy.
ghost use Rattle.std.specs.Prelude.{◌≡◌, ◌&&◌, false, ℕ, List, option_map, IfSome};
ghost use Rattle.bm_base.specs.declared.commands.Transfer.{Transfer};
ghost use Rattle.bm_place.specs.ChoiceResults.{IsFoundTarget, targets_with};
ghost use Rattle.bm_base.specs.Machine.Transfers as transfers;
ghost use Rattle.bm_place.specs.Targets as targets;
ghost use Rattle.bm_place.specs.BestTargets as nodes;
ghost use Rattle.bm_place.specs.Scan as scanned;

use crate::best_targets::free_bytes_on;
use crate::replica_spread::ReplicaSpread;
use crate::scheduled_bytes::{Scheduled, TargetRow};
use bm_base::{Level, StorageId};
use bm_topo::Topology;

/// The storage to which a block of `len` bytes is copied at this level. `held` are the storages
/// that hold a live replica of the block or will. No copy goes to a node of the storages in
/// `excluded`; an unknown storage has no rack, and excludes nothing.
///
/// A storage is eligible if `len` fits with the bytes scheduled to it, and its node does not drain
/// and is not excluded. If `held` is on one rack, another rack goes first, and for a badly
/// distributed block no other is eligible. If `held` is just two storages on two racks, these racks
/// go first. Then more free bytes, then the lesser storage. `None` only if none is eligible.
///
/// `scheduled` was made from the same cluster; else the answer is unspecified. It iterates over
/// `held` once, with a look-up each, and then over the best targets of the nodes, by descending
/// free bytes. It ends at the first eligible one of the better class, or as soon as the length fits
/// no longer. For each of them, free bytes, class and whether the node drains take constant time.
/// Whether the node is excluded is tested last, only if the storage would be taken, with a look-up
/// for each of `excluded`. Takes no memory.
pub fn least_target(
    held: &[StorageId],
    excluded: &[StorageId],
    len: u64,
    level: Level,
    topology: &Topology,
    scheduled: &Scheduled<'_>,
) -> Option<StorageId>
    ensures found { (sent : ℕ → ℕ) → scheduled.now ≡ targets.target_table topology.now.cluster sent
        → IsFoundTarget topology.now.cluster scheduled.now sent level held.now excluded.now len
        result }
    ensures of_transfers { (chosen : List Transfer)
        → scheduled.now ≡ targets_with topology.now.cluster chosen
        → result ≡ transfers.least_target topology.now.cluster chosen (record { urgency = level; holders = held.now; excluded = excluded.now; len = len }) }
{
    least_fitting(held, excluded, len, level, topology, scheduled)
}

/// Chooses among the best targets in their order: ends at the first eligible one of the better
/// class, or at one with too few free bytes.
fn least_fitting(
    held: &[StorageId],
    excluded: &[StorageId],
    len: u64,
    level: Level,
    topology: &Topology,
    scheduled: &Scheduled<'_>,
) -> Option<StorageId>
    ensures { (sent : ℕ → ℕ) → scheduled.now ≡ targets.target_table topology.now.cluster sent
        → result ≡ transfers.least_target_by topology.now.cluster sent (record { urgency = level; holders = held.now; excluded = excluded.now; len = len }) }
{
    let spread = ReplicaSpread::of(held, topology);
    let targets = scheduled.best_targets();
    let mut best = None;
    for target in targets {
        if free_bytes_on(target) < len {
            return storage_of(&best);
        }
        if beats_best(target, &best, &spread, topology, excluded, len, level) {
            if spread.class_of(target.rack) == 0 {
                return Some(target.storage);
            }
            best = Some(*target);
        }
    }
    storage_of(&best)
}

fn storage_of(target: &Option<TargetRow>) -> Option<StorageId>
    ensures { result ≡ option_map (λ t. t.storage) target.now }
{
    match target {
        Some(target) => Some(target.storage),
        None => None,
    }
}

/// Whether a target may be taken and beats the best so far. It has no more free bytes than the
/// best, so only a better class can beat it.
fn beats_best(
    target: &TargetRow,
    best: &Option<TargetRow>,
    spread: &ReplicaSpread,
    topology: &Topology,
    excluded: &[StorageId],
    len: u64,
    level: Level,
) -> bool
    requires { IfSome best.now (λ b. nodes.is_better_than target.now b ≡ false) }
    ensures { result ≡ (targets.is_available topology.now.cluster spread.now level excluded.now len
        target.now && scanned.is_better (targets.cmp_targets spread.now) best.now target.now) }
{
    is_better(target, best, spread)
        && is_eligible(target, spread, len, level)
        && !is_excluded(target, topology, excluded)
}

/// Whether the node does not drain, the length fits, and a badly distributed block that is held on
/// one rack would get to another one.
fn is_eligible(target: &TargetRow, spread: &ReplicaSpread, len: u64, level: Level) -> bool
    ensures { result ≡ targets.is_eligible spread.now level len target.now }
{
    if target.is_draining
        || target.scheduled > target.remaining
        || len > target.remaining - target.scheduled
    {
        return false;
    }
    !(level == Level::BadlyDistributed
        && spread.racks.is_one()
        && spread.class_of(target.rack) == 1)
}

/// Whether it beats the best so far. Targets come in order of free bytes, so only a better class
/// can.
fn is_better(target: &TargetRow, best: &Option<TargetRow>, spread: &ReplicaSpread) -> bool
    requires { IfSome best.now (λ b. nodes.is_better_than target.now b ≡ false) }
    ensures { result ≡ scanned.is_better (targets.cmp_targets spread.now) best.now target.now }
{
    match best {
        Some(best) => spread.class_of(target.rack) < spread.class_of(best.rack),
        None => true,
    }
}

/// Whether a target is on the node of one of these storages.
#[tactic(auto, unfolding(crate::specs::Targets::is_excluded_by))]
fn is_excluded(target: &TargetRow, topology: &Topology, excluded: &[StorageId]) -> bool
    ensures { result ≡ targets.is_excluded_by topology.now.cluster excluded.now target.now }
{
    excluded.iter().any(|storage| match topology.node_of(*storage) {
        Some(node) => target.node == Some(node),
        None => false,
    })
}
