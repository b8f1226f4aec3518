// Events on a shard: prepared, then committed or given up.
ghost use Rattle.std.specs.Prelude.{◌≡◌, ◌==◌, ◌<◌, ◌∷◌, [], None, Some, IfErr, OnOk, OnErr, ◌^◌, true, false};
ghost use Rattle.bm_base.specs.Words.{Refuses, Cluster, is_named, is_multi_rack, change_cluster, first_of, cluster_checks, done};
ghost use Rattle.bm_base.specs.declared.refusal.Refusal.TheVariants.{Memory};
ghost use Rattle.bm_maps.specs.SlotLists.{IsMember};
ghost use Rattle.bm_arena.specs.HeldMaps.{replicas_of, blocks_of};
ghost use Rattle.bm_report.specs.ReportedBlocks.{reported_to_part};
ghost use Rattle.bm_levels.specs.UnusedEntries.{HasNoUnusedOf, MakesNoUnused};
ghost use Rattle.bm_levels.specs.LeveledBlocks.{AreLevels};
ghost use Rattle.bm_shard.specs.ShardView.{NoticeOf, ReportOf, IsReadyFor, needs_reservation};
ghost use Rattle.bm_shard.specs.UnusedEntries.{HasNoUnused, HasUnusedOnly, may_add_entry};
ghost use Rattle.bm_shard.specs.Inside.{is_prepared};
ghost use Rattle.bm_shard.specs.UpToDate.{IsSameButCapacity, IsUpToDate};
ghost use Rattle.bm_parts.specs.Parts.{block_of, change_part};
ghost use Rattle.bm_parts.specs.PlacedLaws.{IsPlaced};
ghost use Rattle.bm_shard.specs.LeavingStorages.{leaves, HasNoLists};
ghost use Rattle.bm_shard.specs.EventEffects.{HasChanged, owns};

use crate::block_events::NO_CHANGE;
use crate::shard::{PreparedEvent, Shard};
use bm_base::{BlockId, Done, Entry, Event, Part, Refusal, Stamp, StorageId, shard_of};
use bm_levels::LeveledBlocks;
use bm_parts::events::block_of;
use bm_report::Report;
use bm_topo::Topology;

impl Shard {
    /// Takes the memory that [`Shard::commit`] of the event needs. A contract sees no other change,
    /// whether it is refused or not, if the shard is up to date in some cluster. It may be called
    /// again: earlier reservations are dropped. `Memory`, if a block is added, a replica received
    /// or a storage reports; other events take none.
    #[tactic(auto, unfolding(crate::specs::ShardView::IsReadyFor))]
    pub fn prepare(&mut self, event: &Event, topology: &Topology) -> Result<(), Refusal>
        ensures ready { OnOk result (IsReadyFor event.now self.new) }
        ensures same { IsSameButCapacity self.old self.new }
        ensures unused { HasUnusedOnly (may_add_entry self.old.part event.now) self.new }
        ensures given_up { OnErr result (HasNoUnused self.new) }
        ensures refused { IfErr result (Refuses None (needs_reservation event.now)) }
    {
        let _ = topology;
        self.abort();
        match event {
            Event::AddBlock { id, .. } => self.ready_entry(*id),
            Event::Received { storage, id, stamp } => self.ready_notice(*storage, *id, *stamp),
            Event::FullReport { storage, entries } => {
                let part = self.part;
                self.ready_report(*storage, entries.as_slice(), part)
            }
            Event::Register { .. }
            | Event::Dead { .. }
            | Event::StorageFailed { .. }
            | Event::Heartbeat { .. }
            | Event::Drain { .. }
            | Event::Undrain { .. }
            | Event::DeleteBlock { .. }
            | Event::SetReplication { .. }
            | Event::Restamp { .. }
            | Event::Deleted { .. }
            | Event::Corrupt { .. } => Ok(()),
        }
    }

    /// Gives a number an entry.
    fn ready_entry(&mut self, id: BlockId) -> Result<(), Refusal>
        requires none { HasNoUnused self.old }
        ensures ready { OnOk result (IsMember id self.new.reserved.entries) }
        ensures same { IsSameButCapacity self.old self.new }
        ensures unused { HasUnusedOnly (λ b. id == b) self.new }
        ensures given_up { OnErr result (HasNoUnused self.new) }
        ensures refused { IfErr result (λ e. e ≡ Memory) }
    {
        self.prepared = PreparedEvent::Nothing;
        self.blocks.show_invariant();
        self.blocks.arena().show_invariant();
        let made = self.blocks.ready_block(id);
        self.blocks.show_invariant();
        self.blocks.arena().show_invariant();
        made?;
        self.prepared = PreparedEvent::Entry(id);
        Ok(())
    }

    /// Looks up the number of a notice.
    fn ready_notice(&mut self, storage: StorageId, id: BlockId, stamp: Stamp) -> Result<(), Refusal>
        requires none { HasNoUnused self.old }
        ensures ready { OnOk result (self.new.reserved.report
            ≡ Some (NoticeOf storage (record { id = id; stamp = stamp } ∷ []))) }
        ensures same { IsSameButCapacity self.old self.new }
        ensures unused { HasUnusedOnly (λ b. id == b) self.new }
        ensures given_up { OnErr result (HasNoUnused self.new) }
        ensures refused { IfErr result (λ e. e ≡ Memory) }
    {
        self.prepared = PreparedEvent::Nothing;
        self.blocks.show_invariant();
        self.blocks.arena().show_invariant();
        let made = self
            .blocks
            .ready_notice(&mut self.report, storage, id, stamp);
        self.blocks.show_invariant();
        self.blocks.arena().show_invariant();
        made?;
        self.prepared = PreparedEvent::Notice(storage);
        Ok(())
    }

    /// Looks up the numbers of a report that are of this part.
    fn ready_report(
        &mut self,
        storage: StorageId,
        entries: &[Entry],
        part: Part,
    ) -> Result<(), Refusal>
        requires part { part.index < part.shards }
        requires none { HasNoUnused self.old }
        ensures ready { OnOk result (self.new.reserved.report
            ≡ Some (ReportOf storage (reported_to_part part entries.now))) }
        ensures same { IsSameButCapacity self.old self.new }
        ensures unused { HasUnusedOnly (is_named (reported_to_part part entries.now)) self.new }
        ensures given_up { OnErr result (HasNoUnused self.new) }
        ensures refused { IfErr result (λ e. e ≡ Memory) }
    {
        self.prepared = PreparedEvent::Nothing;
        self.blocks.show_invariant();
        self.blocks.arena().show_invariant();
        let made = self
            .blocks
            .ready_report(&mut self.report, storage, entries, part);
        self.blocks.show_invariant();
        self.blocks.arena().show_invariant();
        made?;
        self.prepared = PreparedEvent::Report(storage);
        Ok(())
    }

    /// Releases what was prepared: entries that were made for it and have neither a block nor a
    /// replica are dropped. A contract sees no change but of capacity, if the shard is up to date
    /// in some cluster. Takes no memory.
    pub fn abort(&mut self)
        ensures same { IsSameButCapacity self.old self.new }
        ensures unused { HasNoUnused self.new }
        ensures transfers { self.new.reserved.transfers ≡ self.old.reserved.transfers }
    {
        let prepared = self.prepared;
        self.prepared = PreparedEvent::Nothing;
        self.blocks.show_invariant();
        self.blocks.arena().show_invariant();
        drop_prepared(&mut self.blocks, &mut self.report, prepared);
        self.blocks.arena().show_invariant();
    }
}

/// Drops the entries that were made for what was prepared and have neither a block nor a replica.
/// All blocks and replicas stay. Takes no memory.
pub(crate) fn drop_prepared(
    blocks: &mut LeveledBlocks,
    report: &mut Report,
    prepared: PreparedEvent,
)
    ensures blocks { blocks_of blocks.new.arena ≡ blocks_of blocks.old.arena }
    ensures replicas { replicas_of blocks.new.arena ≡ replicas_of blocks.old.arena }
    ensures unused { MakesNoUnused blocks.old.arena blocks.new.arena }
    ensures left { HasNoUnusedOf (is_prepared prepared report.old) blocks.new.arena }
    ensures levels { (C : Cluster) → AreLevels C blocks.old → AreLevels C blocks.new }
{
    blocks.arena().show_invariant();
    match prepared {
        PreparedEvent::Nothing => {}
        PreparedEvent::Entry(id) => {
            if let Some(slot) = blocks.slot_of(id) {
                blocks.drop_if_unused(slot);
            }
        }
        PreparedEvent::Notice(_) | PreparedEvent::Report(_) => blocks.abort_report(report),
    }
}

impl Shard {
    /// Changes the shard by an event that no check on the cluster refuses, in the capacity that
    /// [`Shard::prepare`] reserved. `topology` is the cluster before the event, `multi` is whether
    /// the alive nodes are on two racks or more after it. Returns how many replicas came and went.
    /// An event on a block of another shard changes nothing. Reservations for another event are
    /// dropped. Takes no memory.
    pub fn commit(&mut self, event: &Event, topology: &Topology, multi: bool) -> Done
        requires cluster { first_of (cluster_checks topology.now.cluster event.now) ≡ None }
        requires multi { multi ≡ is_multi_rack (change_cluster topology.now.cluster event.now) }
        requires up_to_date { IsUpToDate topology.now.cluster self.old }
        requires ready { IsReadyFor event.now self.old }
        ensures holdings { self.new.holdings
            ≡ change_part topology.now.cluster self.old.holdings self.old.part.index
            self.old.part.shards event.now }
        ensures done { result ≡ done self.old.holdings self.new.holdings }
        ensures few { block_of event.now ≡ None
            → (result.added < 2 ^ 100) × (result.removed < 2 ^ 100) }
        ensures up_to_date { IsUpToDate (change_cluster topology.now.cluster event.now) self.new }
        ensures unused { HasNoUnused self.new }
        ensures lists { HasNoLists (leaves topology.now.cluster event.now) self.new }
        ensures part { self.new.part ≡ self.old.part }
        ensures rounds { (self.new.round ≡ self.old.round) × (self.new.pend ≡ self.old.pend) }
    {
        topology.show_invariant();
        if !self.owns(event) {
            self.abort();
            return NO_CHANGE;
        }
        if needs_reservation(event) {
            return self.change(event, topology, multi);
        }
        self.abort();
        self.change(event, topology, multi)
    }

    /// Whether an event is on a block of the shard's own numbers, or on no block.
    #[tactic(auto, unfolding(crate::specs::EventEffects::owns))]
    fn owns(&self, event: &Event) -> bool
        ensures { result ≡ owns self.now.part event.now }
    {
        match block_of(event) {
            Some(id) => shard_of(id, self.part.shards) == self.part.index,
            None => true,
        }
    }

    /// Changes the shard by an event that is its own.
    fn change(&mut self, event: &Event, topology: &Topology, multi: bool) -> Done
        requires cluster { first_of (cluster_checks topology.now.cluster event.now) ≡ None }
        requires multi { multi ≡ is_multi_rack (change_cluster topology.now.cluster event.now) }
        requires own { owns self.old.part event.now ≡ true }
        requires placed { IsPlaced topology.now.cluster self.old.holdings }
        requires ready { IsReadyFor event.now self.old }
        requires none { needs_reservation event.now ≡ false → HasNoUnused self.old }
        ensures changed { HasChanged topology.now.cluster
            (change_cluster topology.now.cluster event.now) self.old self.new
            (change_part topology.now.cluster self.old.holdings self.old.part.index
            self.old.part.shards event.now) result }
        ensures few { block_of event.now ≡ None
            → (result.added < 2 ^ 100) × (result.removed < 2 ^ 100) }
        ensures unused { HasNoUnused self.new }
        ensures lists { HasNoLists (leaves topology.now.cluster event.now) self.new }
    {
        match event {
            Event::Register { .. } => self.register(topology, multi),
            Event::Dead { node } => self.forget_node(topology, *node, multi),
            Event::StorageFailed { storage } => self.forget_storage(topology, *storage),
            Event::Heartbeat { .. } => self.note_heartbeat(),
            Event::Drain { node } => self.set_draining(topology, *node, true),
            Event::Undrain { node } => self.set_draining(topology, *node, false),
            Event::AddBlock { id, stamp, repl } => self.add_block(topology, *id, *stamp, *repl),
            Event::DeleteBlock { id } => self.delete_block(topology, *id),
            Event::SetReplication { id, repl } => self.set_replication(topology, *id, *repl),
            Event::Restamp { id, stamp } => self.restamp(topology, *id, *stamp),
            Event::Received { storage, id, stamp } => {
                self.receive(topology, *storage, *id, *stamp)
            }
            Event::Deleted { storage, id } => self.delete_replica(topology, *storage, *id),
            Event::Corrupt { storage, id } => self.make_bad(topology, *storage, *id),
            Event::FullReport { storage, .. } => self.report(topology, *storage),
        }
    }
}

/// Whether an event needs a reservation. Any other event first drops earlier reservations.
fn needs_reservation(event: &Event) -> bool
    ensures { result ≡ needs_reservation event.now }
{
    match event {
        Event::AddBlock { .. } | Event::Received { .. } | Event::FullReport { .. } => true,
        Event::Register { .. }
        | Event::Dead { .. }
        | Event::StorageFailed { .. }
        | Event::Heartbeat { .. }
        | Event::Drain { .. }
        | Event::Undrain { .. }
        | Event::DeleteBlock { .. }
        | Event::SetReplication { .. }
        | Event::Restamp { .. }
        | Event::Deleted { .. }
        | Event::Corrupt { .. } => false,
    }
}
