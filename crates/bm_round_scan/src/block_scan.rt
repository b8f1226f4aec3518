// One block as a round begins.
ghost use Rattle.std.specs.Prelude.{◌≡◌, ℕ, false, Some, IfOk, IfErr, OnOk, ◌++◌, []};
ghost use Rattle.bm_base.specs.Words.{option_map_or, IsNonDecreasing, IsPermutation, has_repeats, Map, by_replica};
ghost use Rattle.bm_base.specs.declared.refusal.Refusal.TheVariants.{Memory};
ghost use Rattle.bm_arena.specs.Contents.{slot_of};
ghost use Rattle.bm_levels.specs.SlotHoldings.{holdings_with};
ghost use Rattle.bm_round_scan.specs.BlockMarks.{marked_on};
ghost use Rattle.bm_round_scan.specs.BlockScans.{IsBlockScan, AreUsable, scanned_replicas, replicas_on, needs_delete, deletes_of};
ghost use Rattle.bm_base.specs.Machine.RoundStart as round_start;

use crate::replicas::{UsableReplicas, contains_near, fill_at_round_start, mark_on, usable_among};
use bm_arena::{Arena, Slot};
use bm_base::{BlockId, BlockInfo, Delete, Marks, Refusal, ReplicaId, StorageId};
use bm_place::{ExcessScratch, fill_excess};
use bm_topo::Topology;
use std::alloc::{AllocError, Global};

/// One block as a round begins. Blocks are scanned one after another in the same memory.
#[derive(Drop)]
pub(crate) struct BlockScan {
    pub id: BlockId,
    /// The block's stamp and wanted replicas; `None` for an unknown block.
    pub info: Option<BlockInfo>,
    /// The storages of its surplus live replicas, ascending.
    pub excess: Vec<StorageId>,
    /// The storages of all its replicas, ascending, with the marks of the round: those that are
    /// surplus are marked.
    pub replicas: Vec<(StorageId, Marks)>,
    /// A scratch buffer for the storages of a settled block.
    pub storages: Vec<StorageId>,
    /// Scratch buffers for the choice of excess.
    scratch: ExcessScratch,
}

impl BlockScan {
    /// Scans no block yet. Takes no memory.
    pub(crate) fn new(alloc: Global) -> BlockScan
        ensures { result.replicas.items ≡ [] }
    {
        BlockScan {
            id: BlockId(0),
            info: None,
            excess: Vec::new(alloc),
            replicas: Vec::new(alloc),
            storages: Vec::new(alloc),
            scratch: ExcessScratch::new(alloc),
        }
    }

    /// Scans the block of a number with this slot, and returns the storages of its usable replicas.
    /// For n replicas it costs a few reads each, and O(n log n) steps. It takes memory in three
    /// cases: more than four replicas are live or drained; the block has more replicas than each
    /// block before; a list of surplus exceeds its capacity.
    pub(crate) fn scan_block(
        &mut self,
        alloc: Global,
        arena: &Arena,
        topology: &Topology,
        slot: Slot,
        id: BlockId,
    ) -> Result<UsableReplicas, Refusal>
        requires { slot_of arena.now id ≡ Some slot }
        ensures id { OnOk result (self.new.id ≡ id) }
        ensures scan { OnOk result ((pend r : ℕ) (pending : Map by_replica ℕ)
            → IsBlockScan topology.now.cluster pend r (holdings_with arena.now pending) self.new) }
        ensures in_order { OnOk result (IsNonDecreasing self.new.excess.items) }
        ensures usable { IfOk result
            (λ u. AreUsable topology.now.cluster self.new.replicas.items u) }
        ensures refused { IfErr result (λ e. e ≡ Memory) }
    {
        arena.show_invariant();
        fill_at_round_start(&mut self.replicas, arena, slot)?;
        let usable = usable_among(alloc, topology, self.replicas.as_slice())?;
        self.id = id;
        self.info = arena.info(slot);
        fill_surplus(
            &mut self.excess,
            &mut self.scratch,
            topology,
            self.info,
            usable.live.as_slice(),
        )?;
        sort_storages(&mut self.excess);
        Ok(self.mark(alloc, topology, usable)?)
    }

    /// Marks the surplus replicas, and returns the storages of the usable ones after that.
    fn mark(
        &mut self,
        alloc: Global,
        topology: &Topology,
        usable: UsableReplicas,
    ) -> Result<UsableReplicas, AllocError>
        requires usable { AreUsable topology.now.cluster self.old.replicas.items usable }
        requires in_order { IsNonDecreasing self.old.excess.items }
        ensures marked { OnOk result (self.new.replicas.items
            ≡ marked_on self.old.excess.items self.old.replicas.items) }
        ensures others { self.new ≡ record self.old { replicas = self.new.replicas } }
        ensures usable { IfOk result
            (λ u. AreUsable topology.now.cluster self.new.replicas.items u) }
    {
        if self.excess.as_slice().is_empty() {
            return Ok(usable);
        }
        mark_on(&mut self.replicas, self.excess.as_slice());
        usable_among(alloc, topology, self.replicas.as_slice())
    }

    /// Appends the surplus replicas.
    pub(crate) fn push_excess(&self, into: &mut Vec<ReplicaId>) -> Result<(), AllocError>
        requires { IsNonDecreasing self.now.excess.items }
        ensures { OnOk result (into.new.items ≡ into.old.items
            ++ replicas_on self.now.excess.items (scanned_replicas self.now)) }
    {
        let mut near = 0;
        for (storage, _) in self.replicas.as_slice() {
            if contains_near(self.excess.as_slice(), *storage, &mut near) {
                into.push(ReplicaId {
                    block: self.id,
                    storage: *storage,
                })?;
            }
        }
        Ok(())
    }

    /// Appends the deletes of this block's replicas. `enough` is whether enough of them are live.
    pub(crate) fn push_deletes(
        &self,
        enough: bool,
        into: &mut Vec<Delete>,
    ) -> Result<(), AllocError>
        ensures { OnOk result (into.new.items ≡ into.old.items
            ++ deletes_of enough (scanned_replicas self.now)) }
    {
        for (storage, marks) in self.replicas.as_slice() {
            if needs_delete(enough, marks) {
                into.push(Delete {
                    storage: *storage,
                    block: self.id,
                })?;
            }
        }
        Ok(())
    }
}

/// Replaces the contents of `into` by the surplus among these storages of one block's live
/// replicas. It takes memory only if there is a surplus, and then only if `into` or a list of
/// `scratch` grows past its capacity.
fn fill_surplus(
    into: &mut Vec<StorageId>,
    scratch: &mut ExcessScratch,
    topology: &Topology,
    info: Option<BlockInfo>,
    live: &[StorageId],
) -> Result<(), Refusal>
    ensures surplus { OnOk result (has_repeats live.now ≡ false
        → into.new.items ≡ option_map_or
        (λ i. round_start.excess_of topology.now.cluster live.now i.repl) info []) }
    ensures refused { IfErr result (λ e. e ≡ Memory) }
{
    match info {
        Some(info) => fill_excess(into, scratch, live, info.repl, topology),
        None => {
            into.clear();
            Ok(())
        }
    }
}

/// Sorts storages. Mostly there is one at most, and nothing is done.
fn sort_storages(storages: &mut Vec<StorageId>)
    ensures moved { IsPermutation storages.old.items storages.new.items }
    ensures in_order { IsNonDecreasing storages.new.items }
{
    if storages.len() > 1 {
        storages.sort_unstable();
    }
}

/// Whether a replica is to be deleted and was not ordered to be.
fn needs_delete(enough: bool, marks: &Marks) -> bool
    ensures { result ≡ needs_delete enough marks.now }
{
    if marks.ordered {
        return false;
    }
    let is_corrupt = marks.tag.is_corrupt();
    marks.tag.is_stray() || marks.excess || is_corrupt && enough
}
