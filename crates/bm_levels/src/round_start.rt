// The start of a round: changes the marks of replicas in excess.
ghost use Rattle.std.specs.Prelude.{◌≡◌, ◌≢◌, ℕ, ◌<◌, length, false, Some, if◌then◌else◌};
ghost use Rattle.bm_base.specs.Words.{revise, revise_at, with_excess_reset};
ghost use Rattle.bm_arena.specs.Contents.{block_at, slot_of, KeepsEntries};
ghost use Rattle.bm_arena.specs.HeldMaps.{replicas_at, replicas_of, blocks_of};
ghost use Rattle.bm_levels.specs.UnusedEntries.{KeepsBlocksOutside};
ghost use Rattle.bm_levels.specs.Changes.{as_excess, all_changed, has_replica, has_block, at_round_start, AreOfBlock, AreByStorage, AreInOrder};
ghost use Rattle.bm_levels.specs.IndexedLevels.{IsUnsettled, KeepsAhead};
ghost use Rattle.bm_levels.specs.LeveledBlocks.{KeepsLevels};
ghost use Rattle.bm_base.specs.Machine.RoundStart as round_start;
ghost use Rattle.bm_base.specs.RoundParts as parts;

use crate::leveled_blocks::LeveledBlocks;
use crate::listed_replicas::{count_of_block, mark_listed, with_excess};
use crate::mark_changes::{MarkChange, change_marks};
use bm_arena::Slot;
use bm_base::{BlockId, ReplicaId};
use bm_topo::Topology;

/// Up to this number of surplus replicas of one block are marked one after another.
const MARK_SINGLY_AT_MOST: usize = 2;

impl LeveledBlocks {
    /// As a round begins: drops the mark "in excess" of replicas whose delete was not ordered, and
    /// marks the replicas of `surplus` as excess. Iterates once over the replicas of the unsettled
    /// blocks. Looks up each replica of `surplus`. If more than two of them are of one block, it
    /// looks that block up once, and iterates over its replicas and the listed ones together. Only
    /// blocks whose marks change are reclassified, and settled blocks are not scanned. Takes no
    /// memory.
    pub fn remark_excess(&mut self, topology: &Topology, surplus: &[ReplicaId])
        requires surplus { surplus.now
            ≡ parts.surplus topology.now.cluster (at_round_start self.old.arena) }
        ensures replicas { replicas_of self.new.arena
            ≡ (round_start.with_surplus_marked topology.now.cluster (at_round_start self.old.arena)).replicas }
        ensures blocks { blocks_of self.new.arena ≡ blocks_of self.old.arena }
        ensures numbers { self.new.arena.ids ≡ self.old.arena.ids }
        ensures levels { KeepsLevels topology.now.cluster self.old self.new }
    {
        self.show_invariant();
        self.arena().show_invariant();
        self.clear_unordered_excess(topology);
        self.mark_surplus(topology, surplus);
    }

    /// At each unsettled slot, drops the mark "in excess" of replicas whose delete was not ordered.
    /// A slot leaves the set if its block becomes settled, so the next slot is read before that.
    fn clear_unordered_excess(&mut self, topology: &Topology)
        ensures begun { (slot : ℕ) → IsUnsettled self.old.level_index slot
            → replicas_at self.new.arena slot
            ≡ all_changed with_excess_reset (replicas_at self.old.arena slot) }
        ensures others { KeepsBlocksOutside self.old.level_index.unsettled.slots
            self.old.arena self.new.arena }
        ensures entries { KeepsEntries self.old.arena self.new.arena }
        ensures levels { KeepsLevels topology.now.cluster self.old self.new }
    {
        self.level_index().show_invariant();
        let mut at = self.level_index().first_unsettled();
        for _step in 0..self.level_index().unsettled_count() {
            if let Some(slot) = at {
                at = self.level_index().next_unsettled(slot);
                self.clear_unordered_excess_at(topology, slot);
            }
        }
    }

    /// At an unsettled slot, drops the mark "in excess" of replicas whose delete was not ordered.
    /// The block is reclassified if its marks changed.
    fn clear_unordered_excess_at(&mut self, topology: &Topology, slot: Slot)
        requires { IsUnsettled self.old.level_index slot }
        ensures begun { replicas_at self.new.arena slot
            ≡ all_changed with_excess_reset (replicas_at self.old.arena slot) }
        ensures others { (other : ℕ) → other ≢ slot
            → block_at self.new.arena other ≡ block_at self.old.arena other }
        ensures entries { KeepsEntries self.old.arena self.new.arena }
        ensures ahead { KeepsAhead slot self.old.level_index.unsettled.slots
            self.new.level_index.unsettled.slots }
        ensures levels { KeepsLevels topology.now.cluster self.old self.new }
    {
        if change_marks(&mut self.arena, slot, MarkChange::RoundBegun) {
            self.level_index.update_level(topology, &self.arena, slot);
        }
    }

    /// Marks the existing replicas of a list as excess. Those of one block are contiguous.
    fn mark_surplus(&mut self, topology: &Topology, surplus: &[ReplicaId])
        requires { AreInOrder surplus.now }
        ensures replicas { replicas_of self.new.arena
            ≡ revise (replicas_of self.old.arena)
            (λ q m. if has_replica surplus.now q then as_excess m else m) }
        ensures others { (slot : ℕ)
            → ((b : ℕ) → slot_of self.old.arena b ≡ Some slot → has_block surplus.now b ≡ false)
            → block_at self.new.arena slot ≡ block_at self.old.arena slot }
        ensures entries { KeepsEntries self.old.arena self.new.arena }
        ensures levels { KeepsLevels topology.now.cluster self.old self.new }
    {
        let mut rest = surplus;
        while let Some(first) = rest.first() {
            let (group, behind) = rest.split_at(count_of_block(rest, first.block));
            self.mark_group(topology, first.block, group);
            rest = behind;
        }
    }

    /// Marks the existing replicas of a list, all of one block, as excess: one after another if
    /// they are few, as is nearly always so.
    fn mark_group(&mut self, topology: &Topology, block: BlockId, group: &[ReplicaId])
        requires block { AreOfBlock block group.now }
        requires order { AreByStorage group.now }
        ensures replicas { replicas_of self.new.arena
            ≡ revise (replicas_of self.old.arena)
            (λ q m. if has_replica group.now q then as_excess m else m) }
        ensures others { (slot : ℕ)
            → ((b : ℕ) → slot_of self.old.arena b ≡ Some slot → has_block group.now b ≡ false)
            → block_at self.new.arena slot ≡ block_at self.old.arena slot }
        ensures entries { KeepsEntries self.old.arena self.new.arena }
        ensures levels { KeepsLevels topology.now.cluster self.old self.new }
    {
        if group.len() > MARK_SINGLY_AT_MOST {
            self.mark_together(topology, block, group);
        } else {
            self.mark_each(topology, group);
        }
    }

    /// Marks several replicas of a block as excess: the block is looked up, scanned and
    /// reclassified once.
    fn mark_together(&mut self, topology: &Topology, block: BlockId, group: &[ReplicaId])
        requires some { 0 < length group.now }
        requires block { AreOfBlock block group.now }
        requires order { AreByStorage group.now }
        ensures replicas { replicas_of self.new.arena
            ≡ revise (replicas_of self.old.arena)
            (λ q m. if has_replica group.now q then as_excess m else m) }
        ensures others { (slot : ℕ)
            → ((b : ℕ) → slot_of self.old.arena b ≡ Some slot → has_block group.now b ≡ false)
            → block_at self.new.arena slot ≡ block_at self.old.arena slot }
        ensures entries { KeepsEntries self.old.arena self.new.arena }
        ensures levels { KeepsLevels topology.now.cluster self.old self.new }
    {
        let Some(slot) = self.slot_of(block) else {
            return;
        };
        self.arena.show_invariant();
        mark_listed(&mut self.arena, slot, group);
        self.level_index.update_level(topology, &self.arena, slot);
    }

    /// Marks the existing replicas of a list as excess: each is looked up, and its block
    /// reclassified.
    fn mark_each(&mut self, topology: &Topology, listed: &[ReplicaId])
        ensures replicas { replicas_of self.new.arena
            ≡ revise (replicas_of self.old.arena)
            (λ q m. if has_replica listed.now q then as_excess m else m) }
        ensures others { (slot : ℕ)
            → ((b : ℕ) → slot_of self.old.arena b ≡ Some slot → has_block listed.now b ≡ false)
            → block_at self.new.arena slot ≡ block_at self.old.arena slot }
        ensures entries { KeepsEntries self.old.arena self.new.arena }
        ensures levels { KeepsLevels topology.now.cluster self.old self.new }
    {
        for replica in listed {
            self.mark_excess(topology, replica);
        }
    }

    /// Marks a replica as excess, if it exists.
    fn mark_excess(&mut self, topology: &Topology, replica: &ReplicaId)
        ensures replicas { replicas_of self.new.arena
            ≡ revise_at (replicas_of self.old.arena) replica.now as_excess }
        ensures others { (slot : ℕ) → slot_of self.old.arena replica.now.block ≢ Some slot
            → block_at self.new.arena slot ≡ block_at self.old.arena slot }
        ensures entries { KeepsEntries self.old.arena self.new.arena }
        ensures levels { KeepsLevels topology.now.cluster self.old self.new }
    {
        let Some(slot) = self.slot_of(replica.block) else {
            return;
        };
        if let Some(marks) = self.marks_of(slot, replica.storage) {
            self.set_marks(topology, slot, replica.storage, with_excess(marks));
        }
    }
}
