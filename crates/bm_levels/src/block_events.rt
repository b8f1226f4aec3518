// Events on one block, by its number.
ghost use Rattle.std.specs.Prelude.{◌≡◌, ◌==◌, ℕ, true, false, IsSome, Some, if◌then◌else◌, option_map};
ghost use Rattle.bm_base.specs.Words.{insert, remove, revise, revise_at, contains_key, replica_at, as_stray, as_bad, as_restamped};
ghost use Rattle.bm_arena.specs.Contents.{slot_of, marks_at, KeepsAllBut};
ghost use Rattle.bm_arena.specs.HeldMaps.{replicas_of, blocks_of, info_at, with_known};
ghost use Rattle.bm_levels.specs.UnusedEntries.{HasNoEmptyEntry, MakesNoUnused};
ghost use Rattle.bm_levels.specs.Changes.{changed, with_stamp, with_repl};
ghost use Rattle.bm_levels.specs.LeveledBlocks.{KeepsLevels};

use crate::leveled_blocks::LeveledBlocks;
use crate::mark_changes::{MarkChange, change_marks};
use bm_arena::Slot;
use bm_base::{BlockId, BlockInfo, Marks, Stamp, StorageId, Tag};
use bm_topo::Topology;

impl LeveledBlocks {
    /// Makes a block known, whose number has an entry (`ready_block`). Takes no memory.
    pub fn add_block(&mut self, topology: &Topology, id: BlockId, info: BlockInfo)
        requires entry { IsSome (slot_of self.old.arena id) }
        ensures blocks { blocks_of self.new.arena ≡ insert (blocks_of self.old.arena) id info }
        ensures replicas { replicas_of self.new.arena ≡ replicas_of self.old.arena }
        ensures numbers { self.new.arena.ids ≡ self.old.arena.ids }
        ensures levels { KeepsLevels topology.now.cluster self.old self.new }
    {
        if let Some(slot) = self.slot_of(id) {
            self.set_info(topology, slot, Some(info));
        }
    }

    /// Makes a block unknown, and its replicas stray; a number without replicas loses its entry.
    /// Scans the block's replicas. Takes no memory.
    #[tactic(auto, unfolding(crate::specs::Changes::changed))]
    pub fn delete_block(&mut self, topology: &Topology, id: BlockId)
        ensures blocks { blocks_of self.new.arena ≡ remove (blocks_of self.old.arena) id }
        ensures replicas { replicas_of self.new.arena
            ≡ revise (replicas_of self.old.arena) (λ q m. if q.block == id then as_stray m else m) }
        ensures entry { HasNoEmptyEntry self.new.arena id }
        ensures unused { MakesNoUnused self.old.arena self.new.arena }
        ensures levels { KeepsLevels topology.now.cluster self.old self.new }
    {
        if let Some(slot) = self.slot_of(id) {
            self.change_block(topology, slot, MarkChange::Deleted, None);
            self.drop_if_unused(slot);
        }
    }

    /// Sets the number of wanted replicas of a block; nothing changes for an unknown one. Takes no
    /// memory.
    pub fn set_replication(&mut self, topology: &Topology, id: BlockId, repl: u32)
        ensures blocks { blocks_of self.new.arena
            ≡ revise_at (blocks_of self.old.arena) id (with_repl repl) }
        ensures replicas { replicas_of self.new.arena ≡ replicas_of self.old.arena }
        ensures numbers { self.new.arena.ids ≡ self.old.arena.ids }
        ensures levels { KeepsLevels topology.now.cluster self.old self.new }
    {
        if let Some(slot) = self.slot_of(id) {
            let info = with_replication(self.info_of(slot), repl);
            self.set_info(topology, slot, info);
        }
    }

    /// Sets the stamp of a known block; its good replicas become stale, and none is in excess.
    /// Scans the block's replicas. Takes no memory.
    #[tactic(auto, unfolding(crate::specs::Changes::changed))]
    pub fn restamp(&mut self, topology: &Topology, id: BlockId, stamp: Stamp)
        ensures blocks { blocks_of self.new.arena
            ≡ revise_at (blocks_of self.old.arena) id (with_stamp stamp) }
        ensures replicas { replicas_of self.new.arena
            ≡ revise (replicas_of self.old.arena)
            (λ q m. if q.block == id then as_restamped m else m) }
        ensures numbers { self.new.arena.ids ≡ self.old.arena.ids }
        ensures levels { KeepsLevels topology.now.cluster self.old self.new }
    {
        if let Some(slot) = self.slot_of(id) {
            let info = with_stamp(self.info_of(slot), stamp);
            self.change_block(topology, slot, MarkChange::Restamped, info);
        }
    }

    /// Makes a replica bad, if it exists. Takes no memory.
    pub fn make_bad(&mut self, topology: &Topology, storage: StorageId, id: BlockId)
        ensures replicas { replicas_of self.new.arena
            ≡ revise_at (replicas_of self.old.arena) (replica_at id storage) as_bad }
        ensures blocks { blocks_of self.new.arena ≡ blocks_of self.old.arena }
        ensures numbers { self.new.arena.ids ≡ self.old.arena.ids }
        ensures levels { KeepsLevels topology.now.cluster self.old self.new }
    {
        let Some(slot) = self.slot_of(id) else {
            return;
        };
        if let Some(marks) = self.marks_of(slot, storage) {
            let bad = Marks {
                tag: Tag::Bad,
                excess: false,
                ordered: marks.ordered,
            };
            self.set_marks(topology, slot, storage, bad);
        }
    }

    /// Removes a replica, if it exists; a number with neither block nor replica loses its entry.
    /// Returns whether one left. Takes no memory.
    pub fn remove_replica(&mut self, topology: &Topology, storage: StorageId, id: BlockId) -> bool
        ensures replicas { replicas_of self.new.arena
            ≡ remove (replicas_of self.old.arena) (replica_at id storage) }
        ensures blocks { blocks_of self.new.arena ≡ blocks_of self.old.arena }
        ensures removed { result
            ≡ contains_key (replicas_of self.old.arena) (replica_at id storage) }
        ensures entry { result ≡ true → contains_key (blocks_of self.old.arena) id ≡ false
            → HasNoEmptyEntry self.new.arena id }
        ensures unused { MakesNoUnused self.old.arena self.new.arena }
        ensures levels { KeepsLevels topology.now.cluster self.old self.new }
    {
        let Some(slot) = self.slot_of(id) else {
            return false;
        };
        if self.marks_of(slot, storage).is_none() {
            return false;
        }
        self.remove(topology, slot, storage);
        self.drop_if_unused(slot);
        true
    }

    /// The information on the block at a slot.
    fn info_of(&self, slot: Slot) -> Option<BlockInfo>
        ensures { result ≡ info_at self.now.arena slot }
    {
        self.arena.info(slot)
    }

    /// The marks of the replica on a storage of the block at a slot.
    pub(crate) fn marks_of(&self, slot: Slot, storage: StorageId) -> Option<Marks>
        ensures { result ≡ marks_at self.now.arena slot storage }
    {
        self.arena.marks(slot, storage)
    }

    /// Changes the marks of all replicas of the block at the slot of a number, and the information
    /// on it.
    fn change_block(
        &mut self,
        topology: &Topology,
        slot: Slot,
        change: MarkChange,
        info: Option<BlockInfo>,
    )
        requires { (id : ℕ) × (slot_of self.old.arena id ≡ Some slot) }
        ensures blocks { (id : ℕ) → slot_of self.old.arena id ≡ Some slot
            → blocks_of self.new.arena ≡ with_known (blocks_of self.old.arena) id info }
        ensures replicas { (id : ℕ) → slot_of self.old.arena id ≡ Some slot
            → replicas_of self.new.arena
            ≡ revise (replicas_of self.old.arena)
            (λ q m. if q.block == id then changed change m else m) }
        ensures rest { KeepsAllBut slot self.old.arena self.new.arena }
        ensures levels { KeepsLevels topology.now.cluster self.old self.new }
    {
        self.arena.show_invariant();
        change_marks(&mut self.arena, slot, change);
        self.arena.set_info(slot, info);
        self.level_index.update_level(topology, &self.arena, slot);
    }
}

fn with_replication(info: Option<BlockInfo>, repl: u32) -> Option<BlockInfo>
    ensures { result ≡ option_map (with_repl repl) info }
{
    match info {
        Some(known) => Some(BlockInfo {
            stamp: known.stamp,
            repl,
        }),
        None => None,
    }
}

fn with_stamp(info: Option<BlockInfo>, stamp: Stamp) -> Option<BlockInfo>
    ensures { result ≡ option_map (with_stamp stamp) info }
{
    match info {
        Some(known) => Some(BlockInfo {
            stamp,
            repl: known.repl,
        }),
        None => None,
    }
}
