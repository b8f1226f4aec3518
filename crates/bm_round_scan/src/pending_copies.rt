// Whether the pending transfers of a settled block make up for the replicas that it lacks.
ghost use Rattle.std.specs.Prelude.{◌≡◌, length};
ghost use Rattle.bm_arena.specs.HeldMaps.{id_at};
ghost use Rattle.bm_pending.specs.RemainingTargets.{remaining_targets};
ghost use Rattle.bm_round_scan.specs.ScannedSlots as scanned;

use crate::scan::RoundScan;
use bm_arena::Slot;
use bm_base::BlockId;
use bm_levels::count_live;

impl<'a> RoundScan<'a> {
    /// Whether the block at a slot has a transfer that stays pending, and its live replicas and
    /// pending transfers reach the wanted number. A settled block has no wish then, at any level.
    /// Its replicas are scanned only if a transfer is pending. Takes no memory.
    pub(crate) fn has_enough_pending(&self, slot: Slot, id: BlockId) -> bool
        requires { id ≡ id_at self.now.arena.now slot }
        ensures { result
            ≡ scanned.has_enough_pending self.now.topology.now.cluster self.now.pend
            self.now.round self.now.arena.now self.now.pending.now slot }
    {
        let pending = self.count_remaining(id);
        if pending == 0 {
            return false;
        }
        match self.arena.block(slot) {
            Some((Some(info), triplets)) => {
                let live = count_live(self.topology, triplets);
                (info.repl as usize).saturating_sub(live) <= pending
            }
            _ => false,
        }
    }

    /// The number of a block's transfers that stay pending in the round. The block is not looked up
    /// if no transfer is pending.
    fn count_remaining(&self, id: BlockId) -> usize
        ensures { result
            ≡ length (remaining_targets self.now.pend self.now.round self.now.pending.now id) }
    {
        self.pending.show_invariant();
        if self.pending.count() == 0 {
            return 0;
        }
        self.pending.count_remaining(id, self.pend, self.round)
    }
}
