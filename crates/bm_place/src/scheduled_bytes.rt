// The bytes scheduled to each storage in a round.
ghost use Rattle.std.specs.Prelude.{◌≡◌, ◌+◌, ◌==◌, if◌then◌else◌, ℕ, List, [], ◌∷◌, ◌++◌, Some, IfOk, IfErr};
ghost use Rattle.bm_base.specs.Words.{Cluster, has_storage};
ghost use Rattle.bm_base.specs.declared.refusal.Refusal.TheVariants.{Memory};
ghost use Rattle.bm_base.specs.declared.commands.Transfer.{Transfer};
ghost use Rattle.bm_place.specs.Tables.{none_sent};
ghost use Rattle.bm_place.specs.ChoiceResults.{HasFreeBytesFor, with_sent, targets_with};
ghost use Rattle.bm_place.specs.BestTargets.{AreBestTargets, IsKept, AreOf};
ghost use Rattle.bm_place.specs.declared.scheduled_bytes.TargetRow.{TargetRow};
ghost use Rattle.bm_base.specs.Maps.Map as map;
ghost use Rattle.bm_base.specs.Machine.Transfers as transfers;
ghost use Rattle.bm_place.specs.Targets as targets;
ghost use Rattle.bm_base.specs.Maps.Lists as lists;

use crate::best_targets::{best_of_each_node, best_on_node, index_of_storage, reposition};
use bm_base::{NodeId, Rack, Refusal, StorageId};
use bm_maps::NumberMap;
use bm_topo::Topology;
use std::alloc::{AllocError, Global};
use std::marker::Model;

/// A storage as a target: its node and rack, whether its node drains, its remaining bytes, and the
/// bytes scheduled to it.
#[derive(Clone, Copy)]
pub struct TargetRow {
    pub storage: StorageId,
    pub node: Option<NodeId>,
    pub rack: Option<Rack>,
    pub is_draining: bool,
    pub remaining: u64,
    pub scheduled: u64,
}

/// The bytes scheduled to each storage in a round, with the storage's node and rack.
///
/// Made once for a round of this cluster: it has no transfers of earlier rounds. A contract sees a
/// table with a row for each storage: the storage, its node and rack, whether the node drains, its
/// remaining bytes and the bytes scheduled to it. It also keeps the best target of each node, so
/// that a choice need not scan all rows.
#[derive(Drop)]
pub struct Scheduled<'a> {
    topology: &'a Topology,
    pub(crate) rows: NumberMap<TargetRow>,
    /// The best storage of each node: the one with most free bytes, and of these the least. No
    /// other is the target of a copy. They are sorted by the same order, so the target is the first
    /// eligible one of class 0, or else the first eligible one.
    best_targets: Vec<TargetRow>,
}

impl<'a> Model for Scheduled<'a> {
    ghost use Rattle.std.specs.Coded.{coded_ℕ};
    ghost use Rattle.bm_base.specs.Maps.Map.{Map, by_number};
    ghost use Rattle.bm_base.specs.Maps.MapCode.{code};
    ghost use Rattle.bm_place.specs.declared.scheduled_bytes.TargetRow.{TargetRow};
    ghost use Rattle.bm_place.specs.Targets.{coded_target};

    ghost Value = { Map by_number TargetRow };

    ghost coded = { code coded_ℕ coded_target };

    ghost view = { λ s. s.rows.map };

    ghost use Rattle.bm_place.specs.BestTargets.{IsIndexed};

    ghost invariant = { λ s. IsIndexed s.topology.now.cluster s.rows.map s.best_targets.items };
}

impl<'a> Scheduled<'a> {
    /// Nothing is scheduled yet to any storage of the cluster. `Memory` if a table cannot grow.
    /// Iterates over the storages of the cluster once, with a few look-ups each, and sorts one of
    /// each node by free bytes.
    pub fn new(alloc: Global, topology: &'a Topology) -> Result<Scheduled<'a>, Refusal>
        ensures none_yet { IfOk result
            (λ t. t ≡ targets.target_table topology.now.cluster none_sent) }
        ensures of_transfers { IfOk result (λ t. t ≡ targets_with topology.now.cluster []) }
        ensures refused { IfErr result (λ e. e ≡ Memory) }
    {
        let rows = rows_of(alloc, topology)?;
        let best_targets = best_of_each_node(alloc, rows.entries())?;
        Ok(Scheduled {
            topology,
            rows,
            best_targets,
        })
    }

    /// Counts `len` more bytes as scheduled to `target`; ignores an unknown storage. The bytes must
    /// fit on the target, as they do if [`least_target`](crate::least_target) just found it for
    /// this length. Costs a few look-ups, one more for each storage of the node, and at most one
    /// scan of the best targets. Takes no memory.
    pub fn add(&mut self, target: StorageId, len: u64)
        requires fits { HasFreeBytesFor self.old len target }
        ensures after { self.new ≡ with_sent self.old target len }
        ensures sent { (C : Cluster) (sent : ℕ → ℕ) → self.old ≡ targets.target_table C sent
            → self.new ≡ targets.target_table C (λ s. sent s + (if target == s then len else 0)) }
        ensures of_transfers { (C : Cluster) (chosen : List Transfer) (t : Transfer)
            → t.target ≡ target → t.stamp.len ≡ len
            → self.old ≡ targets_with C chosen → self.new ≡ targets_with C (chosen ++ t ∷ []) }
    {
        add_to(&mut self.rows, target, len);
        update_best(&mut self.best_targets, &self.rows, self.topology, target);
    }

    /// The best storage of each node: the one with most free bytes, and of these the least. Sorted
    /// by the same order.
    pub(crate) fn best_targets(&self) -> &[TargetRow]
        ensures { AreBestTargets self.now result.now }
    {
        &self.best_targets
    }
}

/// The storages of a cluster, ascending, with nothing scheduled yet.
fn rows_of(alloc: Global, topology: &Topology) -> Result<NumberMap<TargetRow>, AllocError>
    ensures { IfOk result
        (λ rows. rows.map ≡ targets.target_table topology.now.cluster none_sent) }
{
    let mut rows = NumberMap::new(alloc);
    rows.reserve(topology.storage_count() as usize)?;
    for index in 0..topology.storage_count() {
        let Some(storage) = topology.storage_at(index) else {
            return Ok(rows);
        };
        rows.insert(u64::from(storage.0), target_at(topology, storage))?;
    }
    Ok(rows)
}

/// Counts `len` bytes more as scheduled to a known storage.
fn add_to(rows: &mut NumberMap<TargetRow>, target: StorageId, len: u64)
    requires { HasFreeBytesFor rows.old.map len target }
    ensures { rows.new.map ≡ with_sent rows.old.map target len }
{
    if let Some(row) = rows.get(u64::from(target.0)) {
        let scheduled = row.scheduled + len;
        rows.replace(u64::from(target.0), TargetRow { scheduled, ..row });
    }
}

/// Updates the node's best target after bytes were scheduled to it: takes the node's new best and
/// restores the order. If another storage of the node was scheduled to, its best is unchanged.
fn update_best(
    best_targets: &mut Vec<TargetRow>,
    rows: &NumberMap<TargetRow>,
    topology: &Topology,
    target: StorageId,
)
    ensures { (old : map.Map map.by_number TargetRow) (len : ℕ)
        → IsKept old best_targets.old.items → HasFreeBytesFor old len target
        → rows.now.map ≡ with_sent old target len
        → AreOf topology.now.cluster rows.now.map
        → IsKept rows.now.map best_targets.new.items }
{
    let Some(index) = index_of_storage(best_targets, target) else {
        return;
    };
    if let Some(row) = rows.get(u64::from(target.0)) {
        let best = best_on_node(row, rows, storages_near(row.node, topology));
        reposition(best_targets, index, &best);
    }
}

/// The storages of a node, if there is one.
fn storages_near(node: Option<NodeId>, topology: &Topology) -> &[StorageId]
    ensures { (n s : ℕ) → node ≡ Some n
        → lists.has result.now s ≡ has_storage topology.now.cluster n s }
{
    match node {
        Some(node) => topology.storages_of(node),
        None => &[],
    }
}

/// A storage with nothing scheduled to it yet.
fn target_at(topology: &Topology, storage: StorageId) -> TargetRow
    ensures { result ≡ targets.target_at topology.now.cluster (λ _. 0) storage }
{
    let location = topology.location_of(storage);
    TargetRow {
        storage,
        node: location.node,
        rack: location.rack,
        is_draining: location.drains,
        remaining: location.remaining,
        scheduled: 0,
    }
}
