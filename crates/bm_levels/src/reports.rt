// Full reports and notices of received replicas: prepared, aborted or applied, with the levels of
// the changed blocks.
ghost use Rattle.std.specs.Prelude.{◌≡◌, ◌==◌, ◌<◌, ◌≤◌, ◌^◌, ◌∷◌, [], ℕ, length, take, IfErr, OnOk, OnErr};
ghost use Rattle.bm_base.specs.Words.{Cluster};
ghost use Rattle.bm_base.specs.declared.refusal.Refusal.TheVariants.{Memory};
ghost use Rattle.bm_maps.specs.SlotLists.{IsMember};
ghost use Rattle.bm_arena.specs.Contents.{HasHead, KeepsEntries};
ghost use Rattle.bm_arena.specs.HeldMaps.{replicas_of, blocks_of, holdings_of};
ghost use Rattle.bm_report.specs.ReportedBlocks.{reported_to_part};
ghost use Rattle.bm_report.specs.DuringReport.{IsOncePerNode};
ghost use Rattle.bm_report.specs.Ready.{reported_blocks, IsLookedUp, IsReady, IsReportedAt, HasGoodExcess, HaveReplicas};
ghost use Rattle.bm_report.specs.ReceivedReplica.{HasReceived};
ghost use Rattle.bm_levels.specs.UnusedEntries.{HasNoUnusedOf, MakesNoUnused, MakesUnusedOnly, IsSameButDelimiter};
ghost use Rattle.bm_levels.specs.IndexedLevels.{HasCapacityFor};
ghost use Rattle.bm_levels.specs.LeveledBlocks.{KeepsLevels};
ghost use Rattle.bm_base.specs.Machine.Events as events;
ghost use Rattle.bm_base.specs.Machine.Calls as calls;

use crate::leveled_blocks::LeveledBlocks;
use bm_base::{BlockId, Entry, Part, Refusal, Stamp, StorageId};
use bm_report::{Applied, Report};
use bm_topo::Topology;

impl LeveledBlocks {
    /// Finds the slot of each number of the part that the entries name, gives an entry to a new
    /// number, and reserves all that the end of the report needs. All blocks and replicas stay.
    /// `Memory`: then the report is aborted, and no new entry stays.
    pub fn ready_report(
        &mut self,
        report: &mut Report,
        storage: StorageId,
        entries: &[Entry],
        part: Part,
    ) -> Result<(), Refusal>
        requires part { part.index < part.shards }
        ensures reported { OnOk result (reported_blocks report.new ≡ reported_to_part part entries.now) }
        ensures ready { OnOk result (IsReady report.new self.new.arena storage) }
        ensures fresh { OnOk result (report.new.changed ≡ []) }
        ensures blocks { blocks_of self.new.arena ≡ blocks_of self.old.arena }
        ensures replicas { replicas_of self.new.arena ≡ replicas_of self.old.arena }
        ensures unused { MakesUnusedOnly (events.is_named (reported_to_part part entries.now))
            self.old.arena self.new.arena }
        ensures given_up { OnErr result (MakesNoUnused self.old.arena self.new.arena) }
        ensures there { HasHead self.old.arena storage
            → HaveReplicas self.old.arena storage (reported_to_part part entries.now)
            → OnOk result ((self.new.arena ≡ self.old.arena)
            × (HasCapacityFor self.old.level_index self.old.arena.bound → self.new ≡ self.old)) }
        ensures levels { (C : Cluster) → KeepsLevels C self.old self.new }
        ensures refused { IfErr result (λ e. e ≡ Memory) }
    {
        self.arena.show_invariant();
        let found = report.ready(&mut self.arena, storage, entries, part);
        self.arena.show_invariant();
        let grown = self.level_index.grow_to(self.arena.slot_bound());
        if found.is_err() || grown.is_err() {
            report.abort(&mut self.arena);
            self.arena.show_invariant();
            return Err(Refusal::Memory);
        }
        Ok(())
    }

    /// Finds the slot of one number, gives it an entry if it has none, and reserves what `receive`
    /// needs. All blocks and replicas stay. `Memory`: then no new entry stays.
    pub fn ready_notice(
        &mut self,
        report: &mut Report,
        storage: StorageId,
        id: BlockId,
        stamp: Stamp,
    ) -> Result<(), Refusal>
        ensures reported { OnOk result (reported_blocks report.new ≡ record { id = id; stamp = stamp } ∷ []) }
        ensures looked_up { OnOk result (IsLookedUp report.new self.new.arena storage) }
        ensures blocks { blocks_of self.new.arena ≡ blocks_of self.old.arena }
        ensures replicas { replicas_of self.new.arena ≡ replicas_of self.old.arena }
        ensures unused { MakesUnusedOnly (λ b. id == b) self.old.arena self.new.arena }
        ensures given_up { OnErr result (MakesNoUnused self.old.arena self.new.arena) }
        ensures levels { (C : Cluster) → KeepsLevels C self.old self.new }
        ensures refused { IfErr result (λ e. e ≡ Memory) }
    {
        self.arena.show_invariant();
        let found = report.prepare_notice(&mut self.arena, storage, id, stamp);
        self.arena.show_invariant();
        let grown = self.level_index.grow_to(self.arena.slot_bound());
        if found.is_err() || grown.is_err() {
            report.abort(&mut self.arena);
            self.arena.show_invariant();
            return Err(Refusal::Memory);
        }
        Ok(())
    }

    /// Aborts a prepared report: drops the unused entries of its numbers, and forgets the numbers.
    /// All blocks and replicas stay. Takes no memory.
    pub fn abort_report(&mut self, report: &mut Report)
        ensures reported { reported_blocks report.new ≡ [] }
        ensures blocks { blocks_of self.new.arena ≡ blocks_of self.old.arena }
        ensures replicas { replicas_of self.new.arena ≡ replicas_of self.old.arena }
        ensures unused { MakesNoUnused self.old.arena self.new.arena }
        ensures left { HasNoUnusedOf (events.is_named (reported_blocks report.old)) self.new.arena }
        ensures levels { (C : Cluster) → KeepsLevels C self.old self.new }
    {
        self.arena.show_invariant();
        report.abort(&mut self.arena);
        self.arena.show_invariant();
    }

    /// Adds a received replica of a block, after its look-up, and removes those on the other
    /// storages of the node. Takes no memory.
    pub fn receive(
        &mut self,
        report: &Report,
        topology: &Topology,
        storage: StorageId,
        id: BlockId,
        stamp: Stamp,
    ) -> Applied
        requires reported { reported_blocks report.now ≡ record { id = id; stamp = stamp } ∷ [] }
        requires looked_up { IsLookedUp report.now self.old.arena storage }
        requires once { IsOncePerNode topology.now.cluster (replicas_of self.old.arena) }
        ensures received { HasReceived topology.now.cluster storage id stamp
            self.old.arena self.new.arena result }
        ensures levels { KeepsLevels topology.now.cluster self.old self.new }
    {
        self.arena.show_invariant();
        let slot = report.slot_of_one();
        let was = self.level_index.status_at(slot);
        let applied = report.apply_received(&mut self.arena, topology, storage, id, stamp);
        self.level_index
            .update_from(topology, &self.arena, slot, was);
        applied
    }

    /// Makes the replicas on a storage those of the prepared report, and reclassifies the blocks
    /// that changed: none if the report is unchanged. Takes no memory.
    pub fn apply_report(
        &mut self,
        report: &mut Report,
        topology: &Topology,
        storage: StorageId,
    ) -> Applied
        requires ready { IsReady report.old self.old.arena storage }
        requires fresh { report.old.changed ≡ [] }
        requires once { IsOncePerNode topology.now.cluster (replicas_of self.old.arena) }
        requires good { HasGoodExcess (replicas_of self.old.arena) }
        ensures replicas { replicas_of self.new.arena
            ≡ (events.report topology.now.cluster (holdings_of self.old.arena) storage
            (reported_blocks report.old)).replicas }
        ensures blocks { blocks_of self.new.arena ≡ blocks_of self.old.arena }
        ensures entries { KeepsEntries self.old.arena self.new.arena }
        ensures once { IsOncePerNode topology.now.cluster (replicas_of self.new.arena) }
        ensures good { HasGoodExcess (replicas_of self.new.arena) }
        ensures changed { IsSameButDelimiter report.new.changed self.old.arena self.new.arena }
        ensures split { report.new.came ≤ length report.new.changed }
        ensures came { (slot : ℕ) → IsMember slot (take report.new.came report.new.changed)
            → IsReportedAt self.old.arena (reported_blocks report.old) slot }
        ensures reported { reported_blocks report.new ≡ reported_blocks report.old }
        ensures added { result.added
            ≡ calls.new_replicas (replicas_of self.old.arena) (replicas_of self.new.arena) }
        ensures removed { result.removed
            ≡ calls.new_replicas (replicas_of self.new.arena) (replicas_of self.old.arena) }
        ensures few { (result.added < 2 ^ 100) × (result.removed < 2 ^ 100) }
        ensures levels { KeepsLevels topology.now.cluster self.old self.new }
    {
        self.arena.show_invariant();
        let applied = report.apply_full(&mut self.arena, topology, storage);
        self.level_index
            .update_all(topology, &self.arena, report.changed_slots());
        applied
    }
}
