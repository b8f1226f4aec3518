// The end of a round: marks the replicas whose deletes it commands as ordered.
ghost use Rattle.std.specs.Prelude.{◌≡◌, ◌<◌, ℕ, Some};
ghost use Rattle.bm_base.specs.Words.{insert, revise, revise_at, replica_at};
ghost use Rattle.bm_arena.specs.Contents.{slot_of, marks_at};
ghost use Rattle.bm_arena.specs.HeldMaps.{replicas_of, blocks_of};
ghost use Rattle.bm_levels.specs.Changes.{as_ordered, with_deletes_ordered};
ghost use Rattle.bm_levels.specs.LeveledBlocks.{KeepsLevels};
ghost use Rattle.bm_base.specs.RoundParts as parts;

use crate::classification::is_good_and_unmarked;
use crate::leveled_blocks::LeveledBlocks;
use bm_arena::{Arena, Slot};
use bm_base::{BlockId, Delete, Marks, Part, StorageId, shard_of};
use bm_topo::Topology;

impl LeveledBlocks {
    /// As a round ends: orders the commanded deletes of the part's own numbers. Each delete takes a
    /// look-up of its block, and tries the index that the replica of the previous delete has in its
    /// block. If that is wrong, all replicas of the block are scanned. The block is reclassified
    /// only if the replica was unmarked. Takes no memory.
    pub fn mark_ordered(&mut self, topology: &Topology, deletes: &[Delete], part: Part)
        requires part { part.index < part.shards }
        ensures replicas { replicas_of self.new.arena
            ≡ revise (replicas_of self.old.arena)
            (with_deletes_ordered (parts.own_deletes part.index part.shards deletes.now)) }
        ensures blocks { blocks_of self.new.arena ≡ blocks_of self.old.arena }
        ensures numbers { self.new.arena.ids ≡ self.old.arena.ids }
        ensures levels { KeepsLevels topology.now.cluster self.old self.new }
    {
        let mut guess = 0;
        for delete in deletes {
            if shard_of(delete.block, part.shards) == part.index {
                self.mark_one_ordered(topology, delete.storage, delete.block, &mut guess);
            }
        }
    }

    /// Orders the delete of a replica, if it exists. `guess` is a guess of its index in its block,
    /// and is set to that index. The next delete is mostly of the same storage, and blocks of a
    /// storage mostly have their replicas in one order.
    fn mark_one_ordered(
        &mut self,
        topology: &Topology,
        storage: StorageId,
        id: BlockId,
        guess: &mut usize,
    )
        ensures replicas { replicas_of self.new.arena
            ≡ revise_at (replicas_of self.old.arena) (replica_at id storage) as_ordered }
        ensures blocks { blocks_of self.new.arena ≡ blocks_of self.old.arena }
        ensures numbers { self.new.arena.ids ≡ self.old.arena.ids }
        ensures levels { KeepsLevels topology.now.cluster self.old self.new }
    {
        let Some(slot) = self.slot_of(id) else {
            return;
        };
        *guess = index_of(&self.arena, slot, storage, *guess);
        if let Some(marks) = marks_near(&self.arena, slot, storage, *guess) {
            self.order_delete(topology, slot, storage, marks, *guess);
        }
    }

    /// Marks the replica's delete as ordered. The level does not depend on that, and a replica that
    /// was already marked was unsettled before, so the block is reclassified only if the replica
    /// was unmarked.
    fn order_delete(
        &mut self,
        topology: &Topology,
        slot: Slot,
        storage: StorageId,
        marks: Marks,
        guess: usize,
    )
        requires slot { (id : ℕ) × (slot_of self.old.arena id ≡ Some slot) }
        requires replica { marks_at self.old.arena slot storage ≡ Some marks }
        ensures blocks { blocks_of self.new.arena ≡ blocks_of self.old.arena }
        ensures replicas { (id : ℕ) → slot_of self.old.arena id ≡ Some slot
            → replicas_of self.new.arena
            ≡ insert (replicas_of self.old.arena) (replica_at id storage) (as_ordered marks) }
        ensures numbers { self.new.arena.ids ≡ self.old.arena.ids }
        ensures levels { KeepsLevels topology.now.cluster self.old self.new }
    {
        self.arena.show_invariant();
        self.arena
            .set_marks_near(slot, storage, with_order(marks), guess);
        if is_good_and_unmarked(marks) {
            self.level_index.update_level(topology, &self.arena, slot);
        }
    }
}

/// The marks of a replica whose delete is ordered.
fn with_order(marks: Marks) -> Marks
    ensures { result ≡ as_ordered marks }
{
    Marks {
        tag: marks.tag,
        excess: marks.excess,
        ordered: true,
    }
}

/// The index of the replica on a storage in the block at a slot: the guess, if it is right; 0 if
/// there is none.
fn index_of(arena: &Arena, slot: Slot, storage: StorageId, guess: usize) -> usize {
    if is_at(arena, slot, storage, guess) {
        return guess;
    }
    for index in 0..arena.triplet_count(slot) {
        if is_at(arena, slot, storage, index) {
            return index;
        }
    }
    0
}

/// Whether the replica at an index of the block at a slot is on a storage.
fn is_at(arena: &Arena, slot: Slot, storage: StorageId, index: usize) -> bool {
    match arena.triplet_at(slot, index) {
        Some((found, _)) => found == storage,
        None => false,
    }
}

/// The marks of the replica on a storage of the block at a slot, most likely at this index.
fn marks_near(arena: &Arena, slot: Slot, storage: StorageId, index: usize) -> Option<Marks>
    ensures { result ≡ marks_at arena.now slot storage }
{
    arena.show_invariant();
    if let Some((found, marks)) = arena.triplet_at(slot, index) {
        if found == storage {
            return Some(marks);
        }
    }
    arena.marks(slot, storage)
}
