// The status of each block of a shard: its level, and whether it is settled. Blocks are
// reclassified by their slots.
ghost use Rattle.std.specs.Prelude.{◌≡◌, true, ◌≢◌, ℕ, ◌+◌, ◌≤◌, None, length, IfOk, IfErr, OnOk, IsOk};
ghost use Rattle.bm_base.specs.declared.refusal.Refusal.TheVariants.{Memory};
ghost use Rattle.bm_base.specs.declared.replica.Level.{Level};
ghost use Rattle.bm_maps.specs.SlotLists.{Distinct};
ghost use Rattle.bm_levels.specs.IndexedLevels.{level_of_slot, IsUnsettled, HasCapacityFor, HasCapacityAt, KeepsCapacity, GrowsWithin, AreSlotsAt, NeedCopies, slots_at, slots_needing_copies, HasStatus, IsSameAt, KeepsAhead, HasCapacityForEach, IsClassifiedIn, AreClassifiedIn, IsSameOutside, indexed_slots};
ghost use Rattle.bm_arena.specs.Contents.{block_at};
ghost use Rattle.bm_levels.specs.ClusterAfter.{IsClassifiedAfter, AreClassifiedAfter};

use crate::classification::{BlockStatus, ClusterAfter, are_equal, classify};
use bm_arena::{Arena, Slot};
use bm_base::{Level, Refusal};
use bm_queues::{LevelLists, SlotSet};
use bm_topo::Topology;
use std::alloc::Global;
use std::marker::Model;

/// The number of slots reserved beyond a requested bound.
const EXTRA_SLOTS: usize = 255;

/// From this bound on exactly the requested slots are reserved, since the limit of links is near.
const EXACT_FROM: usize = 1 << 31;

/// Rounds a requested bound up, so that growth is amortized.
fn rounded_up(bound: usize) -> usize
    ensures enough { bound ≤ result }
    ensures few { result ≤ bound + 255 }
{
    if bound < EXACT_FROM {
        bound + EXTRA_SLOTS
    } else {
        bound
    }
}

/// The level of each block, the blocks of each level, and the set of unsettled blocks, all by slots
/// of an arena.
///
/// A block is settled if all its replicas are good ones with no mark, and no more of them exist
/// than are wanted. A round marks none of them and deletes none. Blocks that wait for an ordered
/// delete stay unsettled until it is reported.
#[derive(Drop)]
pub struct LevelIndex {
    pub(crate) levels: LevelLists,
    pub(crate) unsettled: SlotSet,
}

impl Model for LevelIndex {
    ghost use Rattle.bm_levels.specs.IndexedLevels.{IndexedLevels};

    ghost Value = { IndexedLevels };

    ghost view = { λ k. record {
      levels = k.levels;
      unsettled = k.unsettled;
    } };
}

impl LevelIndex {
    /// No slot has a level, and none is unsettled.
    fn new(alloc: Global) -> Result<LevelIndex, Refusal>
        ensures levels { IfOk result (λ k. (slot : ℕ) → level_of_slot k slot ≡ None) }
        ensures settled { IfOk result (λ k. (slot : ℕ) → IsUnsettled k slot → ⊥) }
        ensures refused { IfErr result (λ e. e ≡ Memory) }
    {
        Ok(LevelIndex {
            levels: LevelLists::new(alloc)?,
            unsettled: SlotSet::new(alloc)?,
        })
    }

    /// No slot has a level, and none is unsettled. There is capacity for all slots below a bound.
    pub fn for_slots(alloc: Global, bound: usize) -> Result<LevelIndex, Refusal>
        ensures capacity { IfOk result (λ k. HasCapacityFor k bound) }
        ensures levels { IfOk result (λ k. (slot : ℕ) → level_of_slot k slot ≡ None) }
        ensures settled { IfOk result (λ k. (slot : ℕ) → IsUnsettled k slot → ⊥) }
        ensures refused { IfErr result (λ e. e ≡ Memory) }
    {
        let mut index = LevelIndex::new(alloc)?;
        index.grow_to(bound)?;
        Ok(index)
    }

    /// Reserves all slots below a bound, and some more, so that growth is amortized. Only this call
    /// and `for_slots` take memory.
    pub fn grow_to(&mut self, bound: usize) -> Result<(), Refusal>
        ensures capacity { OnOk result (HasCapacityFor self.new bound) }
        ensures kept { KeepsCapacity self.old self.new }
        ensures few { GrowsWithin (bound + 255) self.old self.new }
        ensures there { HasCapacityFor self.old bound → IsOk result }
        ensures unchanged { HasCapacityFor self.old bound → self.new ≡ self.old }
        ensures same { (slot : ℕ) → IsSameAt self.old self.new slot }
        ensures refused { IfErr result (λ e. e ≡ Memory) }
    {
        if self.has_capacity_for(bound) {
            return Ok(());
        }
        self.grow(rounded_up(bound))
    }

    /// Whether there is capacity for all slots below a bound.
    fn has_capacity_for(&self, bound: usize) -> bool
        ensures there { result ≡ true → HasCapacityFor self.now bound }
        ensures lacking { HasCapacityFor self.now bound → result ≡ true }
    {
        bound <= self.levels.capacity() && bound <= self.unsettled.capacity()
    }

    /// Reserves all slots below a bound, and no more.
    fn grow(&mut self, bound: usize) -> Result<(), Refusal>
        ensures capacity { OnOk result (HasCapacityFor self.new bound) }
        ensures kept { KeepsCapacity self.old self.new }
        ensures few { GrowsWithin bound self.old self.new }
        ensures same { (slot : ℕ) → IsSameAt self.old self.new slot }
        ensures refused { IfErr result (λ e. e ≡ Memory) }
    {
        self.levels.grow_to(bound)?;
        self.unsettled.grow_to(bound)
    }

    /// Sets the status of the block at a slot.
    pub(crate) fn set_status(&mut self, slot: Slot, status: BlockStatus)
        requires capacity { HasCapacityAt self.old slot }
        ensures kept { HasStatus self.new slot status }
        ensures others { (other : ℕ) → other ≢ slot → IsSameAt self.old self.new other }
        ensures ahead { KeepsAhead slot self.old.unsettled.slots self.new.unsettled.slots }
        ensures capacity { KeepsCapacity self.old self.new }
    {
        self.levels.set(slot, status.level);
        if status.is_settled {
            self.unsettled.remove(slot);
        } else {
            self.unsettled.insert(slot);
        }
    }

    /// The status of the block at a slot.
    pub(crate) fn status_at(&self, slot: Slot) -> BlockStatus
        requires capacity { HasCapacityAt self.now slot }
        ensures { HasStatus self.now slot result }
    {
        BlockStatus {
            level: self.levels.level(slot),
            is_settled: !self.unsettled.contains(slot),
        }
    }

    /// The level of the block at a slot.
    pub fn level(&self, slot: Slot) -> Option<Level>
        ensures { result ≡ level_of_slot self.now slot }
    {
        if slot < self.levels.capacity() {
            self.levels.level(slot)
        } else {
            None
        }
    }

    /// The slots at a level, in any order.
    pub fn at_level(&self, level: Level) -> &[u32]
        ensures slots { result.now ≡ slots_at self.now level }
        ensures exact { AreSlotsAt self.now level result.now }
        ensures once { Distinct result.now }
    {
        self.levels.slots(level)
    }

    /// The number of slots at a level at which copies are wanted.
    pub fn count_needing_copies(&self) -> usize
        ensures { result ≡ length (slots_needing_copies self.now) }
    {
        self.levels.show_invariant();
        self.levels.slots(Level::Highest).len()
            + self.levels.slots(Level::VeryUnderReplicated).len()
            + self.levels.slots(Level::UnderReplicated).len()
            + self.levels.slots(Level::BadlyDistributed).len()
    }

    /// For proofs alone: the list of a level has exactly its slots, each once, and no slot is
    /// unsettled twice. The slots that need copies are exactly those at a level at which copies are
    /// wanted, each once.
    pub fn show_invariant(&self)
        ensures listed { (level : Level) → AreSlotsAt self.now level (slots_at self.now level) }
        ensures once { (level : Level) → Distinct (slots_at self.now level) }
        ensures unsettled { Distinct self.now.unsettled.slots }
        ensures needing_copies { NeedCopies self.now (slots_needing_copies self.now) }
        ensures needing_copies_once { Distinct (slots_needing_copies self.now) }
    {
        self.levels.show_invariant();
        self.unsettled.show_invariant();
    }
}

impl LevelIndex {
    /// Reclassifies the block at a slot.
    pub(crate) fn classify(&mut self, arena: &Arena, slot: Slot, cluster_after: &ClusterAfter<'_>)
        requires capacity { HasCapacityAt self.old slot }
        ensures status { IsClassifiedAfter cluster_after.now (block_at arena.now slot) self.new slot }
        ensures others { (other : ℕ) → other ≢ slot → IsSameAt self.old self.new other }
        ensures ahead { KeepsAhead slot self.old.unsettled.slots self.new.unsettled.slots }
        ensures capacity { KeepsCapacity self.old self.new }
    {
        self.set_status(
            slot,
            classify(arena, slot, arena.triplet_count(slot), cluster_after),
        );
    }

    /// As `classify`, with the old status read by the caller before the change, so that the two
    /// cache misses overlap.
    fn classify_from(
        &mut self,
        arena: &Arena,
        slot: Slot,
        cluster_after: &ClusterAfter<'_>,
        was: BlockStatus,
    )
        requires capacity { HasCapacityAt self.old slot }
        requires was { HasStatus self.old slot was }
        ensures status { IsClassifiedAfter cluster_after.now (block_at arena.now slot) self.new slot }
        ensures others { (other : ℕ) → other ≢ slot → IsSameAt self.old self.new other }
        ensures capacity { KeepsCapacity self.old self.new }
    {
        let status = classify(arena, slot, arena.triplet_count(slot), cluster_after);
        if are_equal(status, was) {
            return;
        }
        self.set_status(slot, status);
    }

    /// Reclassifies the block at a slot, in an unchanged cluster.
    #[tactic(auto, unfolding(crate::specs::Status::drains_after_change))]
    pub(crate) fn update_level(&mut self, topology: &Topology, arena: &Arena, slot: Slot)
        requires capacity { HasCapacityAt self.old slot }
        ensures status { IsClassifiedIn topology.now.cluster (block_at arena.now slot) self.new slot }
        ensures others { (other : ℕ) → other ≢ slot → IsSameAt self.old self.new other }
        ensures ahead { KeepsAhead slot self.old.unsettled.slots self.new.unsettled.slots }
        ensures capacity { KeepsCapacity self.old self.new }
    {
        self.classify(arena, slot, &ClusterAfter::unchanged(topology));
    }

    /// As `update_level`, with the old status read by the caller before the change.
    #[tactic(auto, unfolding(crate::specs::Status::drains_after_change))]
    pub(crate) fn update_from(
        &mut self,
        topology: &Topology,
        arena: &Arena,
        slot: Slot,
        was: BlockStatus,
    )
        requires capacity { HasCapacityAt self.old slot }
        requires was { HasStatus self.old slot was }
        ensures status { IsClassifiedIn topology.now.cluster (block_at arena.now slot) self.new slot }
        ensures others { (other : ℕ) → other ≢ slot → IsSameAt self.old self.new other }
        ensures capacity { KeepsCapacity self.old self.new }
    {
        self.classify_from(arena, slot, &ClusterAfter::unchanged(topology), was);
    }

    /// Reclassifies the blocks at these slots, in an unchanged cluster.
    #[tactic(auto, unfolding(crate::specs::Status::drains_after_change))]
    pub(crate) fn update_all(&mut self, topology: &Topology, arena: &Arena, slots: &[Slot])
        requires capacity { HasCapacityForEach self.old slots.now }
        ensures status { AreClassifiedIn topology.now.cluster arena.now slots.now self.new }
        ensures others { IsSameOutside slots.now self.old self.new }
        ensures capacity { KeepsCapacity self.old self.new }
    {
        self.classify_all(arena, slots, &ClusterAfter::unchanged(topology));
    }

    /// Reclassifies all blocks: when the alive nodes get onto two racks, or back onto one.
    pub(crate) fn reclassify_every_block(&mut self, arena: &Arena, cluster_after: &ClusterAfter<'_>)
        requires { HasCapacityForEach self.old (indexed_slots arena.now) }
        ensures status { AreClassifiedAfter cluster_after.now arena.now (indexed_slots arena.now) self.new }
        ensures others { IsSameOutside (indexed_slots arena.now) self.old self.new }
        ensures capacity { KeepsCapacity self.old self.new }
    {
        for index in 0..arena.count() {
            if let Some(slot) = arena.slot_at(index) {
                self.classify(arena, slot, cluster_after);
            }
        }
    }
}
