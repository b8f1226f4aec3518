// Reported replicas, as they change a shard. None takes memory.
ghost use Rattle.std.specs.Prelude.{◌≡◌, ◌<◌, ◌^◌, ◌∷◌, [], List, Some};
ghost use Rattle.bm_base.specs.Words.{ReportedBlock, replica_at};
ghost use Rattle.bm_parts.specs.PlacedLaws.{IsPlaced};
ghost use Rattle.bm_shard.specs.UnusedEntries.{HasNoUnused};
ghost use Rattle.bm_shard.specs.EventEffects.{HasChanged};
ghost use Rattle.bm_shard.specs.ShardView.{NoticeOf, ReportOf};
ghost use Rattle.bm_base.specs.Machine.Events as events;

use crate::arrived_transfers::drop_arrived;
use crate::shard::{PreparedEvent, Shard};
use bm_base::{BlockId, Done, Stamp, StorageId};
use bm_report::Applied;
use bm_topo::Topology;

/// How many replicas came and went.
fn done_from(applied: Applied) -> Done
    ensures { (result.added ≡ applied.added) × (result.removed ≡ applied.removed) }
{
    Done {
        added: applied.added,
        removed: applied.removed,
    }
}

impl Shard {
    /// A replica was received on a storage, after its look-up: it is added, those on the other
    /// storages of the node leave, and its transfer has arrived.
    pub(crate) fn receive(
        &mut self,
        topology: &Topology,
        storage: StorageId,
        id: BlockId,
        stamp: Stamp,
    ) -> Done
        requires ready { self.old.reserved.report
            ≡ Some (NoticeOf storage (record { id = id; stamp = stamp } ∷ [])) }
        requires placed { IsPlaced topology.now.cluster self.old.holdings }
        ensures changed { HasChanged topology.now.cluster topology.now.cluster self.old self.new
            (events.enter topology.now.cluster self.old.holdings (replica_at id storage) stamp)
            result }
        ensures unused { HasNoUnused self.new }
    {
        self.prepared = PreparedEvent::Nothing;
        self.blocks.show_invariant();
        self.blocks.arena().show_invariant();
        let applied = self
            .blocks
            .receive(&self.report, topology, storage, id, stamp);
        self.pending.remove(id, storage);
        self.blocks.arena().show_invariant();
        done_from(applied)
    }

    /// A storage reported all its replicas, after their look-up: they are added, others on it
    /// leave, and the transfers of those that came have arrived. Costs one step for each named
    /// number and each replica that leaves, and a read of each block with transfers.
    pub(crate) fn report(&mut self, topology: &Topology, storage: StorageId) -> Done
        requires ready { (ts : List ReportedBlock) × (self.old.reserved.report
            ≡ Some (ReportOf storage ts)) }
        requires placed { IsPlaced topology.now.cluster self.old.holdings }
        ensures changed { (ts : List ReportedBlock)
            → self.old.reserved.report ≡ Some (ReportOf storage ts)
            → HasChanged topology.now.cluster topology.now.cluster self.old self.new
            (events.report topology.now.cluster self.old.holdings storage ts) result }
        ensures few { (result.added < 2 ^ 100) × (result.removed < 2 ^ 100) }
        ensures unused { HasNoUnused self.new }
    {
        self.prepared = PreparedEvent::Nothing;
        self.blocks.show_invariant();
        self.blocks.arena().show_invariant();
        let applied = self
            .blocks
            .apply_report(&mut self.report, topology, storage);
        drop_arrived(&mut self.pending, self.blocks.arena(), storage);
        self.blocks.drop_unused(self.report.swept_slots());
        self.blocks.arena().show_invariant();
        done_from(applied)
    }
}
