// Unused entries: those of numbers with neither a block nor a replica.
ghost use Rattle.std.specs.Prelude.{◌≡◌, ◌≢◌, ℕ, [], Some, None, IsSomeAnd};
ghost use Rattle.bm_base.specs.Words.{Cluster};
ghost use Rattle.bm_arena.specs.Contents.{block_at, slot_of};
ghost use Rattle.bm_arena.specs.HeldMaps.{replicas_at, replicas_of, blocks_of, info_at};
ghost use Rattle.bm_levels.specs.UnusedEntries.{IsUnused, HasNoUnusedAt, MakesNoUnused, KeepsSlots};
ghost use Rattle.bm_levels.specs.LeveledBlocks.{KeepsLevels};
ghost use Rattle.bm_levels.specs.LevelsBy.{KeepsAllLevels};

use crate::leveled_blocks::LeveledBlocks;
use bm_arena::Slot;

impl LeveledBlocks {
    /// Drops the unused entries at these slots. All blocks and replicas stay. Takes no memory.
    pub fn drop_unused(&mut self, slots: &[Slot])
        ensures blocks { blocks_of self.new.arena ≡ blocks_of self.old.arena }
        ensures replicas { replicas_of self.new.arena ≡ replicas_of self.old.arena }
        ensures unused { MakesNoUnused self.old.arena self.new.arena }
        ensures left { HasNoUnusedAt slots.now self.old.arena self.new.arena }
        ensures slots { KeepsSlots self.old.arena self.new.arena }
        ensures levels { (C : Cluster) → KeepsLevels C self.old self.new }
    {
        self.drop_each(slots);
    }

    /// Drops the entries at these slots that have neither a block nor a replica. No list changes.
    pub(crate) fn drop_each(&mut self, slots: &[Slot])
        ensures blocks { blocks_of self.new.arena ≡ blocks_of self.old.arena }
        ensures replicas { replicas_of self.new.arena ≡ replicas_of self.old.arena }
        ensures left { HasNoUnusedAt slots.now self.old.arena self.new.arena }
        ensures slots { KeepsSlots self.old.arena self.new.arena }
        ensures lists { self.new.arena.lists ≡ self.old.arena.lists }
        ensures levels_by { KeepsAllLevels self.old self.new }
    {
        for slot in slots {
            self.drop_at(*slot);
        }
    }

    /// Drops the entry at a slot if it is unused, with neither a block nor a replica.
    fn drop_at(&mut self, slot: Slot)
        ensures blocks { blocks_of self.new.arena ≡ blocks_of self.old.arena }
        ensures replicas { replicas_of self.new.arena ≡ replicas_of self.old.arena }
        ensures slots { KeepsSlots self.old.arena self.new.arena }
        ensures left { (b : ℕ) → slot_of self.old.arena b ≡ Some slot
            → IsUnused self.new.arena b → ⊥ }
        ensures lists { self.new.arena.lists ≡ self.old.arena.lists }
        ensures levels_by { KeepsAllLevels self.old self.new }
    {
        self.arena.show_invariant();
        if self.arena.has_no_replicas(slot) && !self.arena.is_delimiter(slot) {
            self.drop_if_unused(slot);
        }
    }

    /// Drops the entry in a slot if it is unused; others stay. Takes no memory.
    pub fn drop_if_unused(&mut self, slot: Slot)
        requires { (id : ℕ) × (slot_of self.old.arena id ≡ Some slot) }
        ensures blocks { blocks_of self.new.arena ≡ blocks_of self.old.arena }
        ensures replicas { replicas_of self.new.arena ≡ replicas_of self.old.arena }
        ensures numbers { (id : ℕ) → slot_of self.old.arena id ≢ Some slot
            → slot_of self.new.arena id ≡ slot_of self.old.arena id }
        ensures dropped { IsSomeAnd (block_at self.old.arena slot) (λ b. b.replicas ≡ [])
            → info_at self.old.arena slot ≡ None → block_at self.new.arena slot ≡ None }
        ensures gone { (id : ℕ) → slot_of self.old.arena id ≡ Some slot
            → replicas_at self.old.arena slot ≡ [] → info_at self.old.arena slot ≡ None
            → slot_of self.new.arena id ≡ None }
        ensures slots { KeepsSlots self.old.arena self.new.arena }
        ensures others { (other : ℕ) → other ≢ slot
            → block_at self.new.arena other ≡ block_at self.old.arena other }
        ensures lists { self.new.arena.lists ≡ self.old.arena.lists }
        ensures levels { (C : Cluster) → KeepsLevels C self.old self.new }
        ensures levels_by { KeepsAllLevels self.old self.new }
    {
        self.arena.show_invariant();
        if self.arena.has_no_replicas(slot) && self.arena.info(slot).is_none() {
            self.arena.drop_entry(slot);
        }
    }
}
