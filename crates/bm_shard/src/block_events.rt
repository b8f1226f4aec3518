// Events on one block, as they change a shard. None takes memory.
ghost use Rattle.std.specs.Prelude.{◌≡◌, if◌then◌else◌};
ghost use Rattle.bm_base.specs.Words.{replica_at};
ghost use Rattle.bm_maps.specs.SlotLists.{IsMember};
ghost use Rattle.bm_shard.specs.UnusedEntries.{HasNoUnused};
ghost use Rattle.bm_shard.specs.EventEffects.{HasChanged};
ghost use Rattle.bm_base.specs.Machine.Events as events;

use crate::events::drop_prepared;
use crate::shard::{PreparedEvent, Shard};
use bm_base::{BlockId, BlockInfo, Done, Stamp, StorageId};
use bm_topo::Topology;

/// No replica came, and none went.
pub(crate) const NO_CHANGE: Done = Done {
    added: 0,
    removed: 0,
};

impl Shard {
    /// Adds a new block of a file. Uses the entry that is reserved for its number; drops other
    /// reservations.
    pub(crate) fn add_block(
        &mut self,
        topology: &Topology,
        id: BlockId,
        stamp: Stamp,
        repl: u32,
    ) -> Done
        requires entry { IsMember id self.old.reserved.entries }
        ensures changed { HasChanged topology.now.cluster topology.now.cluster self.old self.new
            (events.add_block self.old.holdings id stamp repl) result }
        ensures unused { HasNoUnused self.new }
    {
        let prepared = self.prepared;
        self.prepared = PreparedEvent::Nothing;
        self.blocks.show_invariant();
        self.blocks.arena().show_invariant();
        self.blocks
            .add_block(topology, id, BlockInfo { stamp, repl });
        drop_prepared(&mut self.blocks, &mut self.report, prepared);
        self.blocks.arena().show_invariant();
        NO_CHANGE
    }

    /// A block is deleted: its replicas become stray, and its transfers leave. One scan of its
    /// replicas.
    pub(crate) fn delete_block(&mut self, topology: &Topology, id: BlockId) -> Done
        requires none { HasNoUnused self.old }
        ensures changed { HasChanged topology.now.cluster topology.now.cluster self.old self.new
            (events.delete_block self.old.holdings id) result }
        ensures unused { HasNoUnused self.new }
    {
        self.prepared = PreparedEvent::Nothing;
        self.blocks.show_invariant();
        self.blocks.arena().show_invariant();
        self.blocks.delete_block(topology, id);
        self.pending.remove_block(id);
        self.blocks.arena().show_invariant();
        NO_CHANGE
    }

    /// Sets the number of wanted replicas of a block.
    pub(crate) fn set_replication(&mut self, topology: &Topology, id: BlockId, repl: u32) -> Done
        requires none { HasNoUnused self.old }
        ensures changed { HasChanged topology.now.cluster topology.now.cluster self.old self.new
            (events.set_replication self.old.holdings id repl) result }
        ensures unused { HasNoUnused self.new }
    {
        self.prepared = PreparedEvent::Nothing;
        self.blocks.show_invariant();
        self.blocks.arena().show_invariant();
        self.blocks.set_replication(topology, id, repl);
        self.blocks.arena().show_invariant();
        NO_CHANGE
    }

    /// A block gets another stamp: its good replicas become stale, and its transfers leave. One
    /// scan of its replicas.
    pub(crate) fn restamp(&mut self, topology: &Topology, id: BlockId, stamp: Stamp) -> Done
        requires none { HasNoUnused self.old }
        ensures changed { HasChanged topology.now.cluster topology.now.cluster self.old self.new
            (events.restamp self.old.holdings id stamp) result }
        ensures unused { HasNoUnused self.new }
    {
        self.prepared = PreparedEvent::Nothing;
        self.blocks.show_invariant();
        self.blocks.arena().show_invariant();
        self.blocks.restamp(topology, id, stamp);
        self.pending.remove_block(id);
        self.blocks.arena().show_invariant();
        NO_CHANGE
    }

    /// Makes a replica bad, if it exists.
    pub(crate) fn make_bad(&mut self, topology: &Topology, storage: StorageId, id: BlockId) -> Done
        requires none { HasNoUnused self.old }
        ensures changed { HasChanged topology.now.cluster topology.now.cluster self.old self.new
            (events.make_bad self.old.holdings (replica_at id storage)) result }
        ensures unused { HasNoUnused self.new }
    {
        self.prepared = PreparedEvent::Nothing;
        self.blocks.show_invariant();
        self.blocks.arena().show_invariant();
        self.blocks.make_bad(topology, storage, id);
        self.blocks.arena().show_invariant();
        NO_CHANGE
    }

    /// Removes a replica, if it exists.
    pub(crate) fn delete_replica(
        &mut self,
        topology: &Topology,
        storage: StorageId,
        id: BlockId,
    ) -> Done
        requires none { HasNoUnused self.old }
        ensures changed { HasChanged topology.now.cluster topology.now.cluster self.old self.new
            (events.remove_replica self.old.holdings (replica_at id storage)) result }
        ensures unused { HasNoUnused self.new }
    {
        self.prepared = PreparedEvent::Nothing;
        self.blocks.show_invariant();
        self.blocks.arena().show_invariant();
        let is_removed = self.blocks.remove_replica(topology, storage, id);
        self.blocks.arena().show_invariant();
        Done {
            added: 0,
            removed: count_if(is_removed),
        }
    }
}

/// 1 if it is true, else 0.
fn count_if(is_so: bool) -> u128
    ensures { result ≡ (if is_so then 1 else 0) }
{
    if is_so { 1 } else { 0 }
}
