// Racks that come and go: the alive nodes get onto two racks or more, or back onto one.
ghost use Rattle.std.specs.Prelude.{◌≡◌};
ghost use Rattle.bm_base.specs.Words.{Cluster};
ghost use Rattle.bm_levels.specs.LeveledBlocks.{AreLevels};
ghost use Rattle.bm_levels.specs.LevelsBy.{AreLevelsWith, IsSameForHeld};
ghost use Rattle.bm_base.specs.Machine.Replicas as replicas;

use crate::classification::ClusterAfter;
use crate::leveled_blocks::LeveledBlocks;
use bm_topo::Topology;

impl LeveledBlocks {
    /// Reclassifies all blocks if the alive nodes get onto two racks or more, or back onto one.
    /// Each storage with a replica keeps its rack, and drains or not as before. Takes no memory.
    pub fn reclassify_for_racks(&mut self, topology: &Topology, multi: bool)
        ensures arena { self.new.arena ≡ self.old.arena }
        ensures levels { (D : Cluster) → multi ≡ replicas.is_multi_rack D
            → IsSameForHeld topology.now.cluster D self.old.arena
            → AreLevels topology.now.cluster self.old → AreLevels D self.new }
    {
        self.reclassify_if_racks_change(topology, multi);
        self.show_invariant();
        self.arena().show_invariant();
    }

    /// Reclassifies all blocks if the alive nodes get onto two racks or more, or back onto one.
    pub(crate) fn reclassify_if_racks_change(&mut self, topology: &Topology, multi: bool)
        ensures arena { self.new.arena ≡ self.old.arena }
        ensures levels { AreLevels topology.now.cluster self.old
            → AreLevelsWith topology.now.cluster multi self.new }
    {
        if multi == topology.multi_rack() {
            return;
        }
        let cluster_after = ClusterAfter {
            topology,
            drain_change: None,
            multi,
        };
        self.arena.show_invariant();
        self.level_index
            .reclassify_every_block(&self.arena, &cluster_after);
    }
}
