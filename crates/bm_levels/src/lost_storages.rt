// Storages and nodes that leave with all their replicas.
ghost use Rattle.std.specs.Prelude.{◌≡◌, ◌<◌, ◌^◌, ◌==◌, not, ℕ, [], true};
ghost use Rattle.bm_base.specs.Words.{keep};
ghost use Rattle.bm_arena.specs.Contents.{list_of, HasHead};
ghost use Rattle.bm_arena.specs.HeldMaps.{replicas_of, blocks_of};
ghost use Rattle.bm_levels.specs.UnusedEntries.{MakesNoUnused};
ghost use Rattle.bm_levels.specs.LeveledBlocks.{AreLevels};
ghost use Rattle.bm_levels.specs.LeavingReplicas.{IsLeaving, HasNoHeads, MakesNoHead};
ghost use Rattle.bm_levels.specs.ClusterAfter.{is_on_node, KeepsLevelsAfter};
ghost use Rattle.bm_base.specs.Machine.Replicas as replicas;
ghost use Rattle.bm_base.specs.Machine.Events as events;
ghost use Rattle.bm_base.specs.Machine.Calls as calls;

use crate::classification::ClusterAfter;
use crate::leveled_blocks::LeveledBlocks;
use bm_base::{NodeId, StorageId};
use bm_topo::Topology;

impl LeveledBlocks {
    /// Removes the replicas on a storage, and its list. Returns the number of removed replicas.
    /// Unused entries are dropped, and the blocks that lose a replica are reclassified. Takes no
    /// memory, and one step for each of the replicas.
    pub fn forget_storage(&mut self, topology: &Topology, storage: StorageId) -> u128
        ensures blocks { blocks_of self.new.arena ≡ blocks_of self.old.arena }
        ensures replicas { replicas_of self.new.arena
            ≡ keep (replicas_of self.old.arena) (λ q _. not (q.storage == storage)) }
        ensures removed { result
            ≡ calls.new_replicas (replicas_of self.new.arena) (replicas_of self.old.arena) }
        ensures few { result < 2 ^ 100 }
        ensures unused { MakesNoUnused self.old.arena self.new.arena }
        ensures head { HasHead self.new.arena storage → ⊥ }
        ensures fewer { MakesNoHead self.old.arena self.new.arena }
        ensures levels { AreLevels topology.now.cluster self.old
            → AreLevels (events.without_storage topology.now.cluster storage) self.new }
    {
        let removed = self.clear(&ClusterAfter::unchanged(topology), storage);
        self.arena().show_invariant();
        removed as u128
    }

    /// Removes the replicas on all storages of a node, and their lists. Returns the number of
    /// removed replicas. `multi` is whether the alive nodes are on two racks or more without the
    /// node. If that changes, all blocks are reclassified, else those that lose a replica. Unused
    /// entries are dropped. Takes no memory. Takes one step for each of the replicas.
    pub fn forget_node(&mut self, topology: &Topology, node: NodeId, multi: bool) -> u128
        requires multi { multi
            ≡ replicas.is_multi_rack (events.without_node topology.now.cluster node) }
        ensures blocks { blocks_of self.new.arena ≡ blocks_of self.old.arena }
        ensures replicas { replicas_of self.new.arena
            ≡ keep (replicas_of self.old.arena)
            (λ q _. not (replicas.has_storage topology.now.cluster node q.storage)) }
        ensures removed { result
            ≡ calls.new_replicas (replicas_of self.new.arena) (replicas_of self.old.arena) }
        ensures few { result < 2 ^ 100 }
        ensures unused { MakesNoUnused self.old.arena self.new.arena }
        ensures heads { HasNoHeads (replicas.has_storage topology.now.cluster node) self.new.arena }
        ensures fewer { MakesNoHead self.old.arena self.new.arena }
        ensures levels { AreLevels topology.now.cluster self.old
            → AreLevels (events.without_node topology.now.cluster node) self.new }
    {
        self.reclassify_if_racks_change(topology, multi);
        let cluster_after = ClusterAfter {
            topology,
            drain_change: None,
            multi,
        };
        let removed = self.clear_node(&cluster_after, node);
        self.arena().show_invariant();
        removed
    }

    /// Removes the replicas on all storages of a node, and the storages' lists. Returns how many
    /// replicas it removed.
    fn clear_node(&mut self, cluster_after: &ClusterAfter<'_>, node: NodeId) -> u128
        ensures left { IsLeaving (is_on_node cluster_after.now node) self.old.arena self.new.arena result }
        ensures few { result < 2 ^ 100 }
        ensures none { (s : ℕ) → is_on_node cluster_after.now node s ≡ true
            → list_of self.new.arena s ≡ [] }
        ensures unused { MakesNoUnused self.old.arena self.new.arena }
        ensures heads { HasNoHeads (is_on_node cluster_after.now node) self.new.arena }
        ensures fewer { MakesNoHead self.old.arena self.new.arena }
        ensures levels { KeepsLevelsAfter cluster_after.now self.old self.new }
    {
        let mut removed = self.clear_four_at_a_time(cluster_after, node);
        for storage in cluster_after.topology.storages_of(node) {
            let count = self.clear(cluster_after, *storage);
            removed += count as u128;
        }
        removed
    }
}
