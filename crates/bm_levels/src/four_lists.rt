// Removes all replicas of a node, from the lists of four storages in step, so that their cache
// misses overlap.
ghost use Rattle.std.specs.Prelude.{◌≡◌, ◌==◌, ◌||◌, ◌≤◌, ◌+◌, ◌^◌, false};
ghost use Rattle.bm_levels.specs.UnusedEntries.{MakesNoUnused};
ghost use Rattle.bm_levels.specs.LeavingReplicas.{IsLeaving, IsLeavingStorage, HasFirstSlots, MakesNoHead};
ghost use Rattle.bm_levels.specs.ClusterAfter.{is_on_node, KeepsLevelsAfter};

use crate::classification::ClusterAfter;
use crate::classified_chunks::CHUNK;
use crate::first_slots::FirstSlots;
use crate::leveled_blocks::LeveledBlocks;
use bm_arena::Arena;
use bm_base::{NodeId, StorageId};

/// Four storages, not all of which need to be different.
#[derive(Clone, Copy)]
struct FourStorages {
    first: StorageId,
    second: StorageId,
    third: StorageId,
    fourth: StorageId,
}

impl FourStorages {
    /// Only one storage.
    fn new(storage: StorageId) -> FourStorages
        ensures { result.fourth ≡ storage }
    {
        FourStorages {
            first: storage,
            second: storage,
            third: storage,
            fourth: storage,
        }
    }

    /// Drops the first storage and adds one; if `begins`, all four become that one.
    fn push_next(&mut self, storage: StorageId, begins: bool)
        ensures { self.new.fourth ≡ storage }
    {
        if begins {
            *self = FourStorages::new(storage);
            return;
        }
        self.first = self.second;
        self.second = self.third;
        self.third = self.fourth;
        self.fourth = storage;
    }
}

/// The first slots of the lists of four storages.
#[derive(Drop)]
struct FirstOfFour {
    first: FirstSlots,
    second: FirstSlots,
    third: FirstSlots,
    fourth: FirstSlots,
}

/// Reads the first slots of four lists in step, so that their cache misses overlap.
fn first_of_four(arena: &Arena, four: &FourStorages) -> FirstOfFour
    ensures first { HasFirstSlots arena.now four.now.first result.first }
    ensures second { HasFirstSlots arena.now four.now.second result.second }
    ensures third { HasFirstSlots arena.now four.now.third result.third }
    ensures fourth { HasFirstSlots arena.now four.now.fourth result.fourth }
{
    let mut lists = FirstOfFour {
        first: FirstSlots::none(),
        second: FirstSlots::none(),
        third: FirstSlots::none(),
        fourth: FirstSlots::none(),
    };
    let mut first = arena.walk(four.first);
    let mut second = arena.walk(four.second);
    let mut third = arena.walk(four.third);
    let mut fourth = arena.walk(four.fourth);
    for _index in 0..CHUNK {
        lists.first.push_next(&mut first);
        lists.second.push_next(&mut second);
        lists.third.push_next(&mut third);
        lists.fourth.push_next(&mut fourth);
    }
    lists
}

/// Whether a storage is one of three.
fn is_one_of(storage: StorageId, a: StorageId, b: StorageId, c: StorageId) -> bool
    ensures { result ≡ ((storage == a || storage == b) || storage == c) }
{
    storage == a || storage == b || storage == c
}

impl LeveledBlocks {
    /// Removes replicas on the storages of a node, four storages at a time. Returns how many it
    /// removed.
    pub(crate) fn clear_four_at_a_time(
        &mut self,
        cluster_after: &ClusterAfter<'_>,
        node: NodeId,
    ) -> u128
        ensures left { IsLeaving (is_on_node cluster_after.now node) self.old.arena self.new.arena result }
        ensures few { result ≤ 2 ^ 99 }
        ensures unused { MakesNoUnused self.old.arena self.new.arena }
        ensures fewer { MakesNoHead self.old.arena self.new.arena }
        ensures levels { KeepsLevelsAfter cluster_after.now self.old self.new }
    {
        let mut removed = 0;
        let mut four = FourStorages::new(StorageId(0));
        let mut count = 0usize;
        for storage in cluster_after.topology.storages_of(node) {
            four.push_next(*storage, count == 0);
            count = (count + 1) % 4;
            if count == 0 {
                removed += self.clear_four(cluster_after, node, &four);
            }
        }
        if count > 0 {
            removed += self.clear_four(cluster_after, node, &four);
        }
        removed
    }

    /// Removes replicas on four storages, some on each in turn; skips storages that are not the
    /// node's. Returns how many it removed.
    fn clear_four(
        &mut self,
        cluster_after: &ClusterAfter<'_>,
        node: NodeId,
        four: &FourStorages,
    ) -> u128
        ensures left { IsLeaving (is_on_node cluster_after.now node) self.old.arena self.new.arena result }
        ensures few { result ≤ 2 ^ 66 + 256 }
        ensures unused { MakesNoUnused self.old.arena self.new.arena }
        ensures fewer { MakesNoHead self.old.arena self.new.arena }
        ensures levels { KeepsLevelsAfter cluster_after.now self.old self.new }
    {
        let mut removed = 0;
        for pass in 0..self.arena().slot_bound() / CHUNK + 1 {
            prove!(removed <= pass as u128 * 256);
            let lists = first_of_four(self.arena(), four);
            let count = self.remove_first_of_four(cluster_after, node, four, &lists);
            removed += count;
            if count == 0 {
                return removed;
            }
        }
        removed
    }

    /// For each of four storages that is the node's, removes the replicas of these first blocks of
    /// its list. Returns how many it removed.
    fn remove_first_of_four(
        &mut self,
        cluster_after: &ClusterAfter<'_>,
        node: NodeId,
        four: &FourStorages,
        lists: &FirstOfFour,
    ) -> u128
        requires first { HasFirstSlots self.old.arena four.now.first lists.now.first }
        requires second { HasFirstSlots self.old.arena four.now.second lists.now.second }
        requires third { HasFirstSlots self.old.arena four.now.third lists.now.third }
        requires fourth { HasFirstSlots self.old.arena four.now.fourth lists.now.fourth }
        ensures left { IsLeaving (is_on_node cluster_after.now node) self.old.arena self.new.arena result }
        ensures few { result ≤ 256 }
        ensures unused { MakesNoUnused self.old.arena self.new.arena }
        ensures fewer { MakesNoHead self.old.arena self.new.arena }
        ensures levels { KeepsLevelsAfter cluster_after.now self.old self.new }
    {
        let is_second_done = is_one_of(four.second, four.first, four.first, four.first);
        let is_third_done = is_one_of(four.third, four.first, four.second, four.second);
        let is_fourth_done = is_one_of(four.fourth, four.first, four.second, four.third);
        let first = self.remove_first_once(cluster_after, node, four.first, &lists.first, false);
        let second = self.remove_first_once(
            cluster_after,
            node,
            four.second,
            &lists.second,
            is_second_done,
        );
        let third = self.remove_first_once(
            cluster_after,
            node,
            four.third,
            &lists.third,
            is_third_done,
        );
        let fourth = self.remove_first_once(
            cluster_after,
            node,
            four.fourth,
            &lists.fourth,
            is_fourth_done,
        );
        first + second + third + fourth
    }

    /// Removes the replicas on a storage of these first blocks of its list, unless `is_done` or the
    /// storage is not the node's. Returns how many replicas it removed.
    fn remove_first_once(
        &mut self,
        cluster_after: &ClusterAfter<'_>,
        node: NodeId,
        storage: StorageId,
        slots: &FirstSlots,
        is_done: bool,
    ) -> u128
        requires { is_done ≡ false → HasFirstSlots self.old.arena storage slots.now }
        ensures storage { IsLeavingStorage storage self.old.arena self.new.arena result }
        ensures left { IsLeaving (is_on_node cluster_after.now node) self.old.arena self.new.arena result }
        ensures few { result ≤ 64 }
        ensures unused { MakesNoUnused self.old.arena self.new.arena }
        ensures fewer { MakesNoHead self.old.arena self.new.arena }
        ensures levels { KeepsLevelsAfter cluster_after.now self.old self.new }
    {
        if is_done || !cluster_after.topology.has_storage(node, storage) {
            return 0;
        }
        self.remove_first(cluster_after, storage, slots.as_slice());
        slots.len() as u128
    }
}
