// Removes all replicas of a storage, some blocks of its list at a time, so that cache misses
// overlap.
ghost use Rattle.std.specs.Prelude.{◌≡◌, ◌<◌, ◌≤◌, ◌+◌, ℕ, [], length, None};
ghost use Rattle.bm_arena.specs.Contents.{block_at, known_of, list_of, marks_at, HasHead};
ghost use Rattle.bm_arena.specs.HeldMaps.{replicas_of, blocks_of};
ghost use Rattle.bm_levels.specs.UnusedEntries.{KeepsBlocksOutside, MakesNoUnused};
ghost use Rattle.bm_levels.specs.LeavingReplicas.{IsLeavingStorage, HasFirstSlots, DropsFirstSlots, MakesNoHead};
ghost use Rattle.bm_levels.specs.ClusterAfter.{KeepsLevelsAfter};

use crate::classification::ClusterAfter;
use crate::first_slots::FirstSlots;
use crate::leveled_blocks::LeveledBlocks;
use bm_arena::{Arena, Slot};
use bm_base::StorageId;

/// Removes the replicas on a storage of the first blocks in its list.
fn unlink_all(arena: &mut Arena, storage: StorageId, slots: &[Slot])
    requires free { marks_at arena.old arena.old.delimiter storage ≡ None }
    requires first { HasFirstSlots arena.old storage slots.now }
    ensures left { IsLeavingStorage storage arena.old arena.new (length slots.now) }
    ensures list { DropsFirstSlots storage slots.now arena.old arena.new }
    ensures others { KeepsBlocksOutside slots.now arena.old arena.new }
    ensures known { (slot : ℕ)
        → known_of (block_at arena.new slot) ≡ known_of (block_at arena.old slot) }
    ensures numbers { arena.new.ids ≡ arena.old.ids }
    ensures delimiter { arena.new.delimiter ≡ arena.old.delimiter }
    ensures fewer { MakesNoHead arena.old arena.new }
{
    arena.show_invariant();
    for slot in slots {
        arena.unlink(*slot, storage);
    }
}

impl LeveledBlocks {
    /// Removes the replicas on a storage, and its list. Returns how many replicas it removed.
    pub(crate) fn clear(&mut self, cluster_after: &ClusterAfter<'_>, storage: StorageId) -> usize
        ensures left { IsLeavingStorage storage self.old.arena self.new.arena result }
        ensures none { list_of self.new.arena storage ≡ [] }
        ensures unused { MakesNoUnused self.old.arena self.new.arena }
        ensures head { HasHead self.new.arena storage → ⊥ }
        ensures fewer { MakesNoHead self.old.arena self.new.arena }
        ensures levels { KeepsLevelsAfter cluster_after.now self.old self.new }
    {
        self.arena().show_invariant();
        let bound = self.arena().slot_bound();
        let mut removed = 0;
        while !self.arena().is_list_empty(storage) {
            let count = self.remove_next(cluster_after, storage);
            prove!(count <= bound - removed);
            removed += count;
        }
        self.drop_list(storage);
        removed
    }

    /// Removes the replicas on a storage of some blocks, the first ones in its list. Returns how
    /// many it removed.
    fn remove_next(&mut self, cluster_after: &ClusterAfter<'_>, storage: StorageId) -> usize
        ensures left { IsLeavingStorage storage self.old.arena self.new.arena result }
        ensures list { length (list_of self.old.arena storage)
            ≡ result + length (list_of self.new.arena storage) }
        ensures some { 0 < length (list_of self.old.arena storage) → 0 < result }
        ensures few { result ≤ 64 }
        ensures unused { MakesNoUnused self.old.arena self.new.arena }
        ensures fewer { MakesNoHead self.old.arena self.new.arena }
        ensures levels { KeepsLevelsAfter cluster_after.now self.old self.new }
    {
        let slots = FirstSlots::of(self.arena(), storage);
        self.remove_first(cluster_after, storage, slots.as_slice());
        slots.len()
    }

    /// Removes the replicas on a storage of the first blocks in its list, and drops their unused
    /// entries.
    pub(crate) fn remove_first(
        &mut self,
        cluster_after: &ClusterAfter<'_>,
        storage: StorageId,
        slots: &[Slot],
    )
        requires { HasFirstSlots self.old.arena storage slots.now }
        ensures left { IsLeavingStorage storage self.old.arena self.new.arena (length slots.now) }
        ensures list { DropsFirstSlots storage slots.now self.old.arena self.new.arena }
        ensures unused { MakesNoUnused self.old.arena self.new.arena }
        ensures fewer { MakesNoHead self.old.arena self.new.arena }
        ensures levels { KeepsLevelsAfter cluster_after.now self.old self.new }
    {
        self.remove_listed(cluster_after, storage, slots);
        self.drop_each(slots);
    }

    /// Removes the replicas on a storage of the first blocks in its list, and reclassifies these
    /// blocks.
    fn remove_listed(
        &mut self,
        cluster_after: &ClusterAfter<'_>,
        storage: StorageId,
        slots: &[Slot],
    )
        requires { HasFirstSlots self.old.arena storage slots.now }
        ensures left { IsLeavingStorage storage self.old.arena self.new.arena (length slots.now) }
        ensures list { DropsFirstSlots storage slots.now self.old.arena self.new.arena }
        ensures others { KeepsBlocksOutside slots.now self.old.arena self.new.arena }
        ensures numbers { self.new.arena.ids ≡ self.old.arena.ids }
        ensures fewer { MakesNoHead self.old.arena self.new.arena }
        ensures levels { KeepsLevelsAfter cluster_after.now self.old self.new }
    {
        self.arena.show_invariant();
        unlink_all(&mut self.arena, storage, slots);
        self.level_index
            .classify_all(&self.arena, slots, cluster_after);
    }

    /// Drops the list of a storage, which is empty.
    fn drop_list(&mut self, storage: StorageId)
        requires { list_of self.old.arena storage ≡ [] }
        ensures kept { self.new.level_index ≡ self.old.level_index }
        ensures entries { (slot : ℕ) → block_at self.new.arena slot ≡ block_at self.old.arena slot }
        ensures blocks { blocks_of self.new.arena ≡ blocks_of self.old.arena }
        ensures replicas { replicas_of self.new.arena ≡ replicas_of self.old.arena }
        ensures lists { (other : ℕ) → list_of self.new.arena other ≡ list_of self.old.arena other }
        ensures numbers { self.new.arena.ids ≡ self.old.arena.ids }
        ensures head { HasHead self.new.arena storage → ⊥ }
        ensures fewer { MakesNoHead self.old.arena self.new.arena }
    {
        self.arena.drop_head(storage);
    }
}
