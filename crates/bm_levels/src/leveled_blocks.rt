// The blocks and replicas of a shard, each block with its level.
ghost use Rattle.std.specs.Prelude.{◌≡◌, ◌≢◌, ℕ, IsSome, Some, IfOk, IfErr, OnOk, OnErr};
ghost use Rattle.bm_base.specs.Words.{Map, empty, insert, remove, level, Cluster, by_replica, replica_at};
ghost use Rattle.bm_base.specs.declared.refusal.Refusal.TheVariants.{Memory};
ghost use Rattle.bm_arena.specs.Contents.{slot_of, marks_at, KeepsAllBut, KeepsEntries, KeepsOthers};
ghost use Rattle.bm_arena.specs.HeldMaps.{replicas_of, blocks_of, with_known};
ghost use Rattle.bm_levels.specs.UnusedEntries.{HasNoUnused, MakesNoUnused};
ghost use Rattle.bm_levels.specs.SlotHoldings.{holdings_with};
ghost use Rattle.bm_levels.specs.LeveledBlocks.{AreLevels, KeepsLevels, IsLeveled};

use crate::level_index::LevelIndex;
use bm_arena::{Arena, Slot};
use bm_base::{BlockId, BlockInfo, HashSecret, Level, Marks, Refusal, StorageId};
use bm_topo::Topology;
use std::alloc::Global;
use std::marker::Model;

/// The blocks and replicas of a shard in an arena, with the level of each block and the set of
/// unsettled blocks.
#[derive(Drop)]
pub struct LeveledBlocks {
    pub(crate) arena: Arena,
    pub(crate) level_index: LevelIndex,
}

impl Model for LeveledBlocks {
    ghost use Rattle.bm_levels.specs.LeveledBlocks.{Leveled, IsLeveled};

    ghost Value = { Leveled };

    ghost view = { λ b. record { arena = b.arena; level_index = b.level_index } };

    ghost invariant = { λ b. IsLeveled (record { arena = b.arena; level_index = b.level_index }) };
}

impl LeveledBlocks {
    /// No blocks and no replicas, in tables that hash by this secret.
    pub fn new(alloc: Global, secret: HashSecret) -> Result<LeveledBlocks, Refusal>
        ensures blocks { IfOk result (λ b. blocks_of b.arena ≡ empty) }
        ensures replicas { IfOk result (λ b. replicas_of b.arena ≡ empty) }
        ensures levels { IfOk result (λ b. (C : Cluster) → AreLevels C b) }
        ensures unused { IfOk result (λ b. HasNoUnused b.arena) }
        ensures refused { IfErr result (λ e. e ≡ Memory) }
    {
        let arena = Arena::with_secret(alloc, secret)?;
        match LevelIndex::for_slots(alloc, arena.slot_bound()) {
            Ok(level_index) => Ok(LeveledBlocks { arena, level_index }),
            Err(refusal) => {
                drop(arena);
                Err(refusal)
            }
        }
    }

    /// Gives a number an entry, with capacity for its block's status. All blocks and replicas stay.
    /// `Memory`.
    pub fn ready_block(&mut self, id: BlockId) -> Result<(), Refusal>
        ensures entry { OnOk result (IsSome (slot_of self.new.arena id)) }
        ensures blocks { blocks_of self.new.arena ≡ blocks_of self.old.arena }
        ensures replicas { replicas_of self.new.arena ≡ replicas_of self.old.arena }
        ensures numbers { (other slot : ℕ) → slot_of self.old.arena other ≡ Some slot
            → slot_of self.new.arena other ≡ Some slot }
        ensures others { (other : ℕ) → other ≢ id
            → slot_of self.new.arena other ≡ slot_of self.old.arena other }
        ensures lists { self.new.arena.lists ≡ self.old.arena.lists }
        ensures given_up { OnErr result (MakesNoUnused self.old.arena self.new.arena) }
        ensures levels { (C : Cluster) → KeepsLevels C self.old self.new }
        ensures refused { IfErr result (λ e. e ≡ Memory) }
    {
        if self.arena.find(id).is_some() {
            return Ok(());
        }
        self.arena.show_invariant();
        let slot = self.arena.add_entry(id)?;
        self.arena.show_invariant();
        if self.level_index.grow_to(self.arena.slot_bound()).is_err() {
            self.arena.drop_entry(slot);
            return Err(Refusal::Memory);
        }
        Ok(())
    }

    /// Changes the information on the block at the slot of a number; `None` makes it unknown. Takes
    /// no memory.
    pub fn set_info(&mut self, topology: &Topology, slot: Slot, info: Option<BlockInfo>)
        requires { (id : ℕ) × (slot_of self.old.arena id ≡ Some slot) }
        ensures blocks { (id : ℕ) → slot_of self.old.arena id ≡ Some slot
            → blocks_of self.new.arena ≡ with_known (blocks_of self.old.arena) id info }
        ensures replicas { replicas_of self.new.arena ≡ replicas_of self.old.arena }
        ensures rest { KeepsAllBut slot self.old.arena self.new.arena }
        ensures levels { KeepsLevels topology.now.cluster self.old self.new }
    {
        self.arena.show_invariant();
        self.arena.set_info(slot, info);
        self.level_index.update_level(topology, &self.arena, slot);
    }

    /// Changes the marks of the replica on a storage of the block at the slot of a number. Takes no
    /// memory.
    pub fn set_marks(&mut self, topology: &Topology, slot: Slot, storage: StorageId, marks: Marks)
        requires slot { (id : ℕ) × (slot_of self.old.arena id ≡ Some slot) }
        requires replica { IsSome (marks_at self.old.arena slot storage) }
        ensures blocks { blocks_of self.new.arena ≡ blocks_of self.old.arena }
        ensures replicas { (id : ℕ) → slot_of self.old.arena id ≡ Some slot
            → replicas_of self.new.arena
            ≡ insert (replicas_of self.old.arena) (replica_at id storage) marks }
        ensures rest { KeepsAllBut slot self.old.arena self.new.arena }
        ensures entries { KeepsEntries self.old.arena self.new.arena }
        ensures levels { KeepsLevels topology.now.cluster self.old self.new }
    {
        self.arena.show_invariant();
        self.arena.set_marks(slot, storage, marks);
        self.level_index.update_level(topology, &self.arena, slot);
    }

    /// Removes the replica on a storage of the block at the slot of a number. Takes no memory.
    pub fn remove(&mut self, topology: &Topology, slot: Slot, storage: StorageId)
        requires slot { (id : ℕ) × (slot_of self.old.arena id ≡ Some slot) }
        requires replica { IsSome (marks_at self.old.arena slot storage) }
        ensures blocks { blocks_of self.new.arena ≡ blocks_of self.old.arena }
        ensures replicas { (id : ℕ) → slot_of self.old.arena id ≡ Some slot
            → replicas_of self.new.arena
            ≡ remove (replicas_of self.old.arena) (replica_at id storage) }
        ensures rest { KeepsOthers self.old.arena self.new.arena slot storage }
        ensures levels { KeepsLevels topology.now.cluster self.old self.new }
    {
        self.arena.show_invariant();
        let was = self.level_index.status_at(slot);
        self.arena.unlink(slot, storage);
        self.level_index
            .update_from(topology, &self.arena, slot, was);
    }

    /// For proofs alone: the unsettled slots are exactly those of unsettled blocks, a slot without
    /// a known block has no level, and the delimiter is in no list.
    pub fn show_invariant(&self)
        ensures { IsLeveled self.now }
    {
        let _ = &self.arena;
    }

    /// The arena, to be read.
    pub fn arena(&self) -> &Arena
        ensures { result.now ≡ self.now.arena }
    {
        &self.arena
    }

    /// The levels and the unsettled slots, to be read.
    pub fn level_index(&self) -> &LevelIndex
        ensures { result.now ≡ self.now.level_index }
    {
        &self.level_index
    }

    /// The slot of a number that has an entry.
    pub fn slot_of(&self, id: BlockId) -> Option<Slot>
        ensures { result ≡ slot_of self.now.arena id }
    {
        self.arena.find(id)
    }

    /// How urgently the block of a number needs replicas; `None` if it needs none, or is unknown.
    /// Reads the stored level, not the replicas.
    #[tactic(auto, using(crate::proofs::Levels::level_is_at_slot))]
    pub fn level(&self, id: BlockId) -> Option<Level>
        ensures { (C : Cluster) → AreLevels C self.now → (pending : Map by_replica ℕ)
            → result ≡ level C (holdings_with self.now.arena pending) id }
    {
        self.arena.show_invariant();
        match self.arena.find(id) {
            Some(slot) => self.level_index.level(slot),
            None => None,
        }
    }
}
