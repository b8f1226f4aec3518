// Nodes that begin or cease to drain.
ghost use Rattle.std.specs.Prelude.{◌≡◌, ℕ, ◌+◌};
ghost use Rattle.bm_maps.specs.SlotLists.{IsMember};
ghost use Rattle.bm_arena.specs.Contents.{list_of};
ghost use Rattle.bm_levels.specs.IndexedLevels.{HasCapacityFor, HasCapacityForEach, KeepsCapacity};
ghost use Rattle.bm_levels.specs.LeveledBlocks.{AreLevels};
ghost use Rattle.bm_levels.specs.LevelsBy.{with_draining};
ghost use Rattle.bm_levels.specs.ClusterAfter.{AreClassifiedOnStorage, AreClassifiedOnNode};

use crate::classification::{ClusterAfter, DrainChange};
use crate::level_index::LevelIndex;
use crate::leveled_blocks::LeveledBlocks;
use bm_arena::Arena;
use bm_base::{NodeId, StorageId};
use bm_topo::Topology;

impl LeveledBlocks {
    /// Reclassifies the blocks with a replica on a node that begins or ceases to drain. All blocks
    /// and replicas stay. Takes no memory. Reads the blocks on the storages of the node.
    pub fn set_draining(&mut self, topology: &Topology, node: NodeId, drains: bool)
        ensures arena { self.new.arena ≡ self.old.arena }
        ensures levels { AreLevels topology.now.cluster self.old
            → AreLevels (with_draining topology.now.cluster node drains) self.new }
    {
        let cluster_after = ClusterAfter {
            topology,
            drain_change: Some(DrainChange { node, drains }),
            multi: topology.multi_rack(),
        };
        self.arena.show_invariant();
        self.level_index
            .reclassify_node(&self.arena, node, &cluster_after);
    }
}

impl LevelIndex {
    /// Reclassifies the blocks with a replica on the storages of a node.
    fn reclassify_node(&mut self, arena: &Arena, node: NodeId, cluster_after: &ClusterAfter<'_>)
        requires { (slot storage : ℕ) → IsMember slot (list_of arena.now storage)
            → HasCapacityFor self.old (slot + 1) }
        ensures each { AreClassifiedOnNode cluster_after.now node arena.now self.old self.new }
        ensures capacity { KeepsCapacity self.old self.new }
    {
        for storage in cluster_after.topology.storages_of(node) {
            self.reclassify_list(arena, *storage, cluster_after);
        }
    }

    /// Reclassifies the blocks with a replica on a storage.
    fn reclassify_list(
        &mut self,
        arena: &Arena,
        storage: StorageId,
        cluster_after: &ClusterAfter<'_>,
    )
        requires { HasCapacityForEach self.old (list_of arena.now storage) }
        ensures each { AreClassifiedOnStorage cluster_after.now storage arena.now self.old self.new }
        ensures capacity { KeepsCapacity self.old self.new }
    {
        for slot in arena.walk(storage) {
            self.classify(arena, slot, cluster_after);
        }
    }
}
