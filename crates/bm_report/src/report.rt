// A full report, and a notice of a received replica, from the look-up of its numbers to its end.
ghost use Rattle.std.specs.Prelude.{◌≡◌, ◌≢◌, ◌<◌, ◌≤◌, ◌+◌, ◌^◌, ◌∷◌, ◌&&◌, [], ℕ, if◌then◌else◌, length, take, drop, map, None, Some, IsSome, IsTrue, OnOk, IsOk, IfOk, IfErr, ◌⊎◌, ◌↔◌, false};
ghost use Rattle.bm_base.specs.declared.refusal.Refusal.TheVariants.{Memory};
ghost use Rattle.bm_maps.specs.SlotLists.{IsMember};
ghost use Rattle.bm_arena.specs.Contents.{block_at, slot_of, marks_at, HasHead, IsEntry, KeepsEntries};
ghost use Rattle.bm_arena.specs.HeldMaps.{replicas_of, blocks_of, holdings_of};
ghost use Rattle.bm_report.specs.DuringReport.{IsOncePerNode, saturating_sum, slot_in};
ghost use Rattle.bm_report.specs.ReportedBlocks.{IsPrepared, reported_to_part};
ghost use Rattle.bm_report.specs.AbortedReport.{is_unused_number};
ghost use Rattle.bm_report.specs.ReceivedReplica.{HasReceived};
ghost use Rattle.bm_report.specs.Ready.{reported_blocks, IsLookedUp, IsReady, IsReportedAt, HasGoodExcess, HasReplica, HaveReplicas, AreAlreadyThere};
ghost use Rattle.bm_base.specs.Machine.Events as events;
ghost use Rattle.bm_base.specs.Machine.Calls as calls;

use crate::aborted_report::abort_named;
use crate::full_report::apply;
use crate::look_up::{look_up, look_up_alone};
use crate::notices::receive;
use crate::types::{Applied, ReportedSlot};
use bm_arena::{Arena, Slot};
use bm_base::{BlockId, Entry, Part, Refusal, Stamp, StorageId};
use bm_topo::Topology;
use std::alloc::Global;
use std::marker::Model;

/// What a shard keeps of a report or a notice between the look-up and the end. It has the slots of
/// the numbers, so that a known number is hashed at most twice. It also has a list of the slots
/// that change, with its capacity. A contract sees both as lists. Only `ready` and `prepare_notice`
/// take memory; a shard keeps one `Report` for all its reports, so that its capacity is allocated
/// once.
#[derive(Drop)]
pub struct Report {
    named: Vec<ReportedSlot>,
    changed: Vec<Slot>,
    /// How many of the changed slots were listed before the sweep: their blocks have a replica.
    came: usize,
}

impl Model for Report {
    ghost use Rattle.bm_report.specs.AbortedReport.{is_unused_number};
    ghost use Rattle.bm_report.specs.Ready.{LookedUpReport};

    ghost Value = { LookedUpReport };

    ghost use Rattle.std.specs.Prelude.{vec_capacity};

    ghost view = { λ r. record {
      named = r.named.items;
      changed = r.changed.items;
      came = r.came;
      capacity = vec_capacity r.changed;
    } };
}

impl Report {
    /// A report that names no number. Takes no memory.
    pub fn new(alloc: Global) -> Report
        ensures reported { reported_blocks result ≡ [] }
        ensures changed { result.changed ≡ [] }
    {
        Report {
            named: Vec::new(alloc),
            changed: Vec::new(alloc),
            came: 0,
        }
    }

    /// Finds the slot of each number of the part that the entries name, in order, repeats included.
    /// Gives an entry to a new number, and reserves all that the end of the report needs. The
    /// numbers of other shards are skipped without a step each. All blocks and replicas stay, and
    /// an earlier look-up is forgotten. `Memory`: then `abort` drops the new entries.
    pub fn ready(
        &mut self,
        arena: &mut Arena,
        storage: StorageId,
        entries: &[Entry],
        part: Part,
    ) -> Result<(), Refusal>
        requires part { part.index < part.shards }
        ensures reported { OnOk result (reported_blocks self.new ≡ reported_to_part part entries.now) }
        ensures ready { OnOk result (IsReady self.new arena.new storage) }
        ensures changed { OnOk result (self.new.changed ≡ []) }
        ensures kept { IsPrepared arena.old arena.new }
        ensures others { (b : ℕ) → events.is_named (reported_to_part part entries.now) b ≡ false
            → slot_of arena.new b ≡ slot_of arena.old b }
        ensures fresh { (b : ℕ) → slot_of arena.old b ≡ None → IsSome (slot_of arena.new b)
            → IsTrue (events.is_named (reported_blocks self.new) b) }
        ensures there { HasHead arena.old storage
            → HaveReplicas arena.old storage (reported_to_part part entries.now) → arena.new ≡ arena.old }
        ensures refused { IfErr result (λ e. e ≡ Memory) }
    {
        look_up(arena, storage, entries, part, &mut self.named)?;
        arena.show_invariant();
        self.changed.clear();
        let capacity = list_capacity(self.named.len(), arena.slot_bound())?;
        self.changed.reserve(capacity)?;
        Ok(())
    }

    /// Finds the slot of one number, gives it an entry if it has none, and reserves what
    /// `apply_received` needs, but no list of slots. All blocks and replicas stay, and an earlier
    /// look-up is forgotten. `Memory`: then `abort` drops an entry that is new.
    pub fn prepare_notice(
        &mut self,
        arena: &mut Arena,
        storage: StorageId,
        id: BlockId,
        stamp: Stamp,
    ) -> Result<(), Refusal>
        ensures reported { OnOk result (reported_blocks self.new ≡ record { id = id; stamp = stamp } ∷ []) }
        ensures looked_up { OnOk result (IsLookedUp self.new arena.new storage) }
        ensures kept { IsPrepared arena.old arena.new }
        ensures others { (b : ℕ) → b ≢ id → slot_of arena.new b ≡ slot_of arena.old b }
        ensures fresh { (b : ℕ) → slot_of arena.old b ≡ None → IsSome (slot_of arena.new b)
            → IsTrue (events.is_named (reported_blocks self.new) b) }
        ensures there { HasReplica arena.old storage id → arena.new ≡ arena.old }
        ensures refused { IfErr result (λ e. e ≡ Memory) }
    {
        look_up_alone(arena, storage, id, stamp, &mut self.named)
    }

    /// The slot of the one number that was looked up.
    pub fn slot_of_one(&self) -> Slot
        requires { length self.now.named ≡ 1 }
        ensures { map slot_in self.now.named ≡ result ∷ [] }
    {
        self.named[0].slot
    }

    /// Makes the replicas on a storage those of the prepared report, and lists the slots whose
    /// replicas or marks changed: none if the report is unchanged. Takes no memory.
    ///
    /// The list steps: one for each named number, one for each replica that leaves, and two for the
    /// delimiter.
    pub fn apply_full(
        &mut self,
        arena: &mut Arena,
        topology: &Topology,
        storage: StorageId,
    ) -> Applied
        requires ready { IsReady self.old arena.old storage }
        requires once { IsOncePerNode topology.now.cluster (replicas_of arena.old) }
        requires good { HasGoodExcess (replicas_of arena.old) }
        requires free { marks_at arena.old arena.old.delimiter storage ≡ None }
        ensures replicas { replicas_of arena.new
            ≡ (events.report topology.now.cluster (holdings_of arena.old) storage
            (reported_blocks self.old)).replicas }
        ensures blocks { blocks_of arena.new ≡ blocks_of arena.old }
        ensures entries { KeepsEntries arena.old arena.new }
        ensures once { IsOncePerNode topology.now.cluster (replicas_of arena.new) }
        ensures good { HasGoodExcess (replicas_of arena.new) }
        ensures free { (t : ℕ)
            → marks_at arena.new arena.new.delimiter t ≡ marks_at arena.old arena.old.delimiter t }
        ensures listed { (slot : ℕ) → IsMember slot self.new.changed
            → IsMember slot self.old.changed ⊎ IsEntry arena.old slot }
        ensures changed { (slot : ℕ) → slot ≢ arena.old.delimiter
            → (IsMember slot self.new.changed → ⊥)
            → block_at arena.new slot ≡ block_at arena.old slot }
        ensures unchanged { AreAlreadyThere (holdings_of arena.old) storage (reported_blocks self.old)
            → result.removed ≡ 0 → self.new.changed ≡ self.old.changed }
        ensures split { self.new.came ≤ length self.new.changed }
        ensures came { (slot : ℕ) → IsMember slot (take self.new.came self.new.changed)
            → IsMember slot self.old.changed ⊎ IsReportedAt arena.old (reported_blocks self.old) slot }
        ensures reported { reported_blocks self.new ≡ reported_blocks self.old }
        ensures added { result.added
            ≡ calls.new_replicas (replicas_of arena.old) (replicas_of arena.new) }
        ensures removed { result.removed
            ≡ calls.new_replicas (replicas_of arena.new) (replicas_of arena.old) }
        ensures few { (result.added < 2 ^ 100) × (result.removed < 2 ^ 100) }
        ensures steps { result.steps ≡ length (reported_blocks self.old) + result.removed + 2 }
        ensures counted { arena.new.steps ≡ saturating_sum result.steps arena.old.steps }
    {
        apply(
            arena,
            topology,
            storage,
            self.named.as_slice(),
            &mut self.changed,
            &mut self.came,
        )
    }

    /// Adds a received replica of the block `id`, after its look-up, and removes those on the other
    /// storages of the node. Only that block changes. Takes no memory.
    pub fn apply_received(
        &self,
        arena: &mut Arena,
        topology: &Topology,
        storage: StorageId,
        id: BlockId,
        stamp: Stamp,
    ) -> Applied
        requires reported { reported_blocks self.now ≡ record { id = id; stamp = stamp } ∷ [] }
        requires looked_up { IsLookedUp self.now arena.old storage }
        requires once { IsOncePerNode topology.now.cluster (replicas_of arena.old) }
        ensures { HasReceived topology.now.cluster storage id stamp arena.old arena.new result }
    {
        receive(arena, topology, storage, &self.named[0])
    }

    /// Aborts the report: drops the unused entries of its numbers, without a block and replicas,
    /// and forgets the numbers. All blocks and replicas stay. Takes no memory.
    pub fn abort(&mut self, arena: &mut Arena)
        ensures reported { reported_blocks self.new ≡ [] }
        ensures replicas { replicas_of arena.new ≡ replicas_of arena.old }
        ensures blocks { blocks_of arena.new ≡ blocks_of arena.old }
        ensures lists { arena.new.lists ≡ arena.old.lists }
        ensures delimiter { arena.new.delimiter ≡ arena.old.delimiter }
        ensures marker { block_at arena.new arena.new.delimiter
            ≡ block_at arena.old arena.old.delimiter }
        ensures steps { arena.new.steps ≡ arena.old.steps }
        ensures numbers { (b : ℕ)
            → slot_of arena.new b
            ≡ (if events.is_named (reported_blocks self.old) b && is_unused_number arena.old b then None
            else slot_of arena.old b) }
        ensures entries { (b slot : ℕ) → slot_of arena.new b ≡ Some slot
            → block_at arena.new slot ≡ block_at arena.old slot }
    {
        abort_named(arena, self.named.as_slice());
        self.named.clear();
        self.changed.clear();
    }

    /// The slots whose replicas or marks `apply_full` changed, in any order. One may occur twice.
    /// The slot of a block that the report names more than once, with different stamps, may occur
    /// although its marks are the same in the end.
    pub fn changed_slots(&self) -> &[Slot]
        ensures { result.now ≡ self.now.changed }
    {
        self.changed.as_slice()
    }

    /// The slots that `apply_full` listed when it removed the unreported replicas.
    pub fn swept_slots(&self) -> &[Slot]
        requires { self.now.came ≤ length self.now.changed }
        ensures { result.now ≡ drop self.now.came self.now.changed }
    {
        &self.changed[self.came..]
    }
}

/// Upper bound on the changed slots: those reported plus those swept. `Memory` if it overflows.
/// Takes no memory.
fn list_capacity(named: usize, slots: usize) -> Result<usize, Refusal>
    ensures capacity { IfOk result (λ capacity. capacity ≡ named + slots) }
    ensures fits { IsOk result ↔ (named + slots < 2 ^ 64) }
    ensures refused { IfErr result (λ e. e ≡ Memory) }
{
    named.checked_add(slots).ok_or(Refusal::Memory)
}
