// The scan of the blocks of a round, one after another.
ghost use Rattle.std.specs.Prelude.{◌≡◌, ◌++◌, ◌∷◌, [], ℕ, List, map, not, Some, nat_le, false, IfOk, IfErr, OnOk};
ghost use Rattle.bm_base.specs.Words.{option_map_or, values, has};
ghost use Rattle.bm_base.specs.declared.refusal.Refusal.TheVariants.{Memory};
ghost use Rattle.bm_maps.specs.SlotLists.{IsMember};
ghost use Rattle.bm_arena.specs.Contents.{slot_of};
ghost use Rattle.bm_arena.specs.HeldMaps.{id_at};
ghost use Rattle.bm_levels.specs.SlotHoldings.{holdings_with};
ghost use Rattle.bm_round_scan.specs.BlockFindings.{HasFound};
ghost use Rattle.bm_round_scan.specs.ScannedSlots.{AreMarked};

use crate::block_scan::BlockScan;
use crate::replicas::storages_of;
use bm_arena::{Arena, Slot};
use bm_base::{BlockInfo, Delete, Refusal, ReplicaId, Wish};
use bm_levels::LevelIndex;
use bm_parts::sort_key::Key;
use bm_pending::PendingTransfers;
use bm_topo::Topology;
use std::alloc::Global;

/// The maximum capacity for wishes before any is found: 60 MB. A wish is large, and is copied
/// whenever their list grows.
const FIRST_CAPACITY: usize = 1 << 18;

/// The findings so far, in the order of the scan.
#[derive(Drop)]
pub(crate) struct Findings {
    pub excess: Vec<ReplicaId>,
    pub wishes: Vec<Wish>,
    pub deletes: Vec<Delete>,
}

/// The start of a round, with all that the scan reads.
#[derive(Clone, Copy)]
pub(crate) struct RoundScan<'a> {
    pub arena: &'a Arena,
    /// The unsettled slots, and the levels of all slots.
    pub level_index: &'a LevelIndex,
    pub pending: &'a PendingTransfers,
    pub topology: &'a Topology,
    pub pend: u32,
    pub round: u64,
    /// If there is a bound, only the wishes before it are returned.
    pub bound: Option<Key>,
}

impl<'a> RoundScan<'a> {
    /// Scans the blocks at these slots, each with its key.
    pub(crate) fn scan_all(&self, alloc: Global, slots: &[(Key, Slot)]) -> Result<Findings, Refusal>
        requires known { (slot : ℕ) → IsMember slot (values slots.now)
            → (id : ℕ) × (slot_of self.now.arena.now id ≡ Some slot) }
        requires settled { AreMarked self.now.level_index.now self.now.arena.now }
        ensures found { IfOk result
            (HasFound self.now.topology.now.cluster self.now.pend self.now.round
            (holdings_with self.now.arena.now self.now.pending.now.map) self.now.bound
            (map (λ e. id_at self.now.arena.now e.1) slots.now)) }
        ensures refused { IfErr result (λ e. e ≡ Memory) }
    {
        let mut found = Findings {
            excess: Vec::new(alloc),
            wishes: Vec::with_capacity(alloc, slots.len().min(FIRST_CAPACITY))?,
            deletes: Vec::new(alloc),
        };
        let mut scan = BlockScan::new(alloc);
        for keyed in slots {
            self.scan_slot(alloc, keyed.1, &mut scan, &mut found)?;
        }
        Ok(found)
    }

    /// Whether the block at a slot is settled. Reads nothing of the slot if all blocks are.
    pub(crate) fn is_settled(&self, slot: Slot) -> bool
        ensures { result ≡ not (has self.now.level_index.now.unsettled.slots slot) }
    {
        self.level_index.unsettled_count() == 0 || !self.level_index.is_unsettled(slot)
    }

    /// Scans the block at a slot, and appends its findings.
    fn scan_slot(
        &self,
        alloc: Global,
        slot: Slot,
        scan: &mut BlockScan,
        found: &mut Findings,
    ) -> Result<(), Refusal>
        requires known { (id : ℕ) × (slot_of self.now.arena.now id ≡ Some slot) }
        requires settled { AreMarked self.now.level_index.now self.now.arena.now }
        ensures more { (bs : List ℕ)
            → HasFound self.now.topology.now.cluster self.now.pend self.now.round
            (holdings_with self.now.arena.now self.now.pending.now.map) self.now.bound bs found.old
            → OnOk result (HasFound self.now.topology.now.cluster self.now.pend self.now.round
            (holdings_with self.now.arena.now self.now.pending.now.map) self.now.bound (bs
            ++ id_at self.now.arena.now slot ∷ []) found.new) }
        ensures refused { IfErr result (λ e. e ≡ Memory) }
    {
        self.arena.show_invariant();
        let id = self.arena.id_of(slot);
        if self.is_settled(slot) {
            let wishes = &mut found.wishes;
            return self.push_settled_wish(alloc, slot, id, &mut scan.storages, wishes);
        }
        let usable = scan.scan_block(alloc, self.arena, self.topology, slot, id)?;
        let enough = has_enough(scan.info, usable.live.as_slice().len());
        scan.push_excess(&mut found.excess)?;
        scan.push_deletes(enough, &mut found.deletes)?;
        let storages = storages_of(alloc, scan.replicas.as_slice())?;
        let storages = storages.as_slice();
        let wishes = &mut found.wishes;
        self.push_wish(alloc, scan.id, scan.info, usable, storages, wishes)
    }
}

/// Whether at least the number of wanted replicas is live; not for an unknown block.
fn has_enough(info: Option<BlockInfo>, live: usize) -> bool
    ensures { result ≡ option_map_or (λ i. nat_le i.repl live) info false }
{
    match info {
        Some(info) => live >= info.repl as usize,
        None => false,
    }
}
