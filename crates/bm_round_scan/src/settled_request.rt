// The wish of a settled block: none of its replicas is in excess, and none is to be deleted.
ghost use Rattle.std.specs.Prelude.{◌≡◌, ◌++◌, true, not, filter, map, Some, IfOk, IfErr, OnOk};
ghost use Rattle.bm_base.specs.declared.refusal.Refusal.TheVariants.{Memory};
ghost use Rattle.bm_parts.specs.BoundedWishes.{wishes_before};
ghost use Rattle.bm_arena.specs.Contents.{block_at, slot_of};
ghost use Rattle.bm_arena.specs.Triplets.{triplet_view};
ghost use Rattle.bm_levels.specs.SlotHoldings.{holdings_with};
ghost use Rattle.bm_levels.specs.Status.{is_settled_at, storages_at};
ghost use Rattle.bm_round_scan.specs.BlockFindings.{wishes_at};
ghost use Rattle.bm_base.specs.Machine.Replicas as replicas;

use crate::replicas::UsableReplicas;
use crate::scan::RoundScan;
use bm_arena::{Slot, Triplet};
use bm_base::{BlockId, Refusal, StorageId, StorageIds, Wish};
use bm_topo::Topology;
use std::alloc::{AllocError, Global};

impl<'a> RoundScan<'a> {
    /// Appends the wish of the settled block at a slot, if it has one. `storages` is a scratch
    /// buffer.
    pub(crate) fn push_settled_wish(
        &self,
        alloc: Global,
        slot: Slot,
        id: BlockId,
        storages: &mut Vec<StorageId>,
        into: &mut Vec<Wish>,
    ) -> Result<(), Refusal>
        requires slot { slot_of self.now.arena.now id ≡ Some slot }
        requires settled { is_settled_at (block_at self.now.arena.now slot) ≡ true }
        ensures wish { OnOk result (into.new.items ≡ into.old.items
            ++ wishes_before self.now.bound
            (wishes_at self.now.topology.now.cluster self.now.pend self.now.round
            (holdings_with self.now.arena.now self.now.pending.now.map) id)) }
        ensures refused { IfErr result (λ e. e ≡ Memory) }
    {
        self.arena.show_invariant();
        let Some((info, triplets)) = self.arena.block(slot) else {
            return Ok(());
        };
        fill_storages(storages, triplets)?;
        storages.sort_unstable();
        let usable = split_by_draining(alloc, self.topology, storages)?;
        self.push_wish(alloc, id, info, usable, storages, into)
    }
}

/// Replaces the storages in `into` with those of these replicas.
fn fill_storages(into: &mut Vec<StorageId>, triplets: &[Triplet]) -> Result<(), AllocError>
    ensures { OnOk result (into.new.items
        ≡ storages_at (λ _ _. true) (map triplet_view triplets.now)) }
{
    into.clear();
    for triplet in triplets {
        let (storage, _) = triplet.replica();
        into.push(storage)?;
    }
    Ok(())
}

/// Splits storages into those on nodes that drain and the others.
fn split_by_draining(
    alloc: Global,
    topology: &Topology,
    storages: &[StorageId],
) -> Result<UsableReplicas, AllocError>
    ensures live { IfOk result
        (λ u. u.live
        ≡ filter (λ s. not (replicas.is_draining topology.now.cluster s)) storages.now) }
    ensures drained { IfOk result
        (λ u. u.drained ≡ filter (replicas.is_draining topology.now.cluster) storages.now) }
{
    let mut live = StorageIds::new(alloc);
    let mut drained = StorageIds::new(alloc);
    for storage in storages {
        if topology.is_draining(*storage) {
            drained.push(*storage)?;
        } else {
            live.push(*storage)?;
        }
    }
    Ok(UsableReplicas { live, drained })
}
