// The wish of one block.
ghost use Rattle.std.specs.Prelude.{◌≡◌, length, ◌++◌, option_and_then, option_to_list, OnOk, IfOk, IfErr};
ghost use Rattle.bm_base.specs.declared.refusal.Refusal.TheVariants.{Memory};
ghost use Rattle.bm_parts.specs.BoundedWishes.{wishes_before};
ghost use Rattle.bm_pending.specs.RemainingTargets.{remaining_targets};
ghost use Rattle.bm_round_scan.specs.Requests.{count_at, wish_by};
ghost use Rattle.bm_base.specs.Machine.Replicas as replicas;
ghost use Rattle.bm_base.specs.Machine.Levels as levels;

use crate::keys::is_before;
use crate::replicas::{UsableReplicas, spread_of};
use crate::scan::RoundScan;
use bm_base::{BlockId, BlockInfo, Level, Refusal, StorageId, StorageIds, Wish, level_of};
use bm_topo::Topology;
use std::alloc::{AllocError, Global};

impl<'a> RoundScan<'a> {
    /// Appends the wish of a block, given its usable replicas and the storages of all its replicas.
    /// Appends nothing if the block needs no copy, or if its wish is not before the bound. Its
    /// pending transfers are counted only if its wish is before the bound.
    pub(crate) fn push_wish(
        &self,
        alloc: Global,
        id: BlockId,
        info: Option<BlockInfo>,
        usable: UsableReplicas,
        storages: &[StorageId],
        into: &mut Vec<Wish>,
    ) -> Result<(), Refusal>
        ensures wish { OnOk result (into.new.items ≡ into.old.items
            ++ wishes_before self.now.bound
            (option_to_list (option_and_then
            (λ i. wish_by self.now.topology.now.cluster id i usable.live usable.drained storages.now
            (remaining_targets self.now.pend self.now.round self.now.pending.now id))
            info))) }
        ensures refused { IfErr result (λ e. e ≡ Memory) }
    {
        let Some(info) = info else {
            drop(usable);
            return Ok(());
        };
        let repl = info.repl;
        let drained_count = usable.drained.as_slice().len();
        let Some(level) = level_among(self.topology, repl, usable.live.as_slice(), drained_count)
        else {
            drop(usable);
            return Ok(());
        };
        if !is_before(self.bound, (level.number() as u64, id.0)) {
            drop(usable);
            return Ok(());
        }
        let pending = match self.remaining_targets(alloc, id) {
            Ok(pending) => pending,
            Err(refusal) => {
                drop(usable);
                return Err(refusal);
            }
        };
        let live_count = usable.live.as_slice().len();
        let count = count_at(level, repl, live_count, pending.as_slice().len());
        if count == 0 {
            drop(pending);
            drop(usable);
            return Ok(());
        }
        let Ok(pairs) = copy_storages(alloc, storages) else {
            drop(pending);
            drop(usable);
            return Err(Refusal::Memory);
        };
        let UsableReplicas { live, drained } = usable;
        into.push(Wish {
            level,
            block: id,
            stamp: info.stamp,
            count,
            live,
            drained,
            pairs,
            pending,
        })?;
        Ok(())
    }

    /// The targets of a block's transfers that stay pending in the round. The block is not looked
    /// up if no transfer is pending.
    fn remaining_targets(&self, alloc: Global, id: BlockId) -> Result<StorageIds, Refusal>
        ensures targets { IfOk result
            (λ v. v ≡ remaining_targets self.now.pend self.now.round self.now.pending.now id) }
        ensures refused { IfErr result (λ e. e ≡ Memory) }
    {
        self.pending.show_invariant();
        if self.pending.count() == 0 {
            return Ok(StorageIds::new(alloc));
        }
        self.pending
            .remaining_targets(alloc, id, self.pend, self.round)
    }
}

/// A copy of these storages.
fn copy_storages(alloc: Global, storages: &[StorageId]) -> Result<StorageIds, AllocError>
    ensures { IfOk result (λ v. v ≡ storages.now) }
{
    let mut copy = StorageIds::new(alloc);
    for storage in storages {
        copy.push(*storage)?;
    }
    Ok(copy)
}

/// The level of a block with live replicas on these storages. Their racks are looked up only if
/// enough are live.
fn level_among(topology: &Topology, repl: u32, live: &[StorageId], drained: usize) -> Option<Level>
    ensures { result ≡ levels.level_of (record { live = length live.now; drained = drained; wanted = repl; racks = length (replicas.racks topology.now.cluster live.now); multi_rack = replicas.is_multi_rack topology.now.cluster }) }
{
    if live.len() < repl as usize {
        return level_of(live.len(), drained, repl, 0, false);
    }
    let racks = spread_of(topology, live);
    if racks != 1 {
        return level_of(live.len(), drained, repl, racks, false);
    }
    level_of(live.len(), drained, repl, racks, topology.multi_rack())
}

/// The number of copies that a block at a level needs.
fn count_at(level: Level, repl: u32, live: usize, pending: usize) -> u32
    ensures { result ≡ count_at level repl live pending }
{
    match level {
        Level::BadlyDistributed => u32::from(pending == 0),
        Level::NoUsableReplica => 0,
        _ => (repl as usize).saturating_sub(live).saturating_sub(pending) as u32,
    }
}
