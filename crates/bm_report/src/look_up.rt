// The slots of the blocks that a report names.
ghost use Rattle.std.specs.Prelude.{◌≡◌, ◌≢◌, ◌<◌, ◌+◌, ◌-◌, ◌==◌, ◌++◌, ◌∷◌, [], map, ℕ, IsSome, IsOk, IfOk, IfErr, OnOk, OnErr, None, Some, false};
ghost use Rattle.bm_base.specs.Words.{blocks_of_entry, is_named};
ghost use Rattle.bm_base.specs.declared.refusal.Refusal.TheVariants.{Memory};
ghost use Rattle.bm_arena.specs.Contents.{slot_of, HasHead};
ghost use Rattle.bm_report.specs.DuringReport.{AreAtSlots, HaveCapacity, reported_of};
ghost use Rattle.bm_report.specs.AbortedReport.{NamesNew};
ghost use Rattle.bm_report.specs.ReportedBlocks.{IsPrepared, of_part, reported_to_part};
ghost use Rattle.bm_report.specs.Ready.{HasReplica, HaveReplicas};

use crate::first_of_part::first_of_part;
use crate::reported_block::reserve_replica;
use crate::reported_chunks::CHUNK;
use crate::types::ReportedSlot;
use bm_arena::{Arena, Slot};
use bm_base::{BlockId, Entry, Part, Refusal, Stamp, StorageId};

/// The slot of a number, which has an entry from now on.
fn slot_for(arena: &mut Arena, id: BlockId) -> Result<Slot, Refusal>
    ensures kept { IsPrepared arena.old arena.new }
    ensures here { IfOk result (λ slot. slot_of arena.new id ≡ Some slot) }
    ensures others { (b : ℕ) → b ≢ id → slot_of arena.new b ≡ slot_of arena.old b }
    ensures unchanged { OnErr result (arena.new ≡ arena.old) }
    ensures known { IsSome (slot_of arena.old id) → IsOk result × (arena.new ≡ arena.old) }
    ensures refused { IfErr result (λ e. e ≡ Memory) }
{
    arena.show_invariant();
    arena.add_entry(id)
}

/// Looks up one number, and reserves a replica on the storage. `named` lists every new entry, even
/// after an `Err`.
fn look_up_number(
    arena: &mut Arena,
    storage: StorageId,
    id: BlockId,
    stamp: Stamp,
    named: &mut Vec<ReportedSlot>,
) -> Result<(), Refusal>
    requires here { AreAtSlots arena.old named.old.items }
    requires capacity { HaveCapacity arena.old storage named.old.items }
    ensures kept { IsPrepared arena.old arena.new }
    ensures others { (b : ℕ) → b ≢ id → slot_of arena.new b ≡ slot_of arena.old b }
    ensures here { OnOk result (AreAtSlots arena.new named.new.items) }
    ensures capacity { OnOk result (HaveCapacity arena.new storage named.new.items) }
    ensures named { OnOk result (map reported_of named.new.items ≡ map reported_of named.old.items
        ++ record { id = id; stamp = stamp } ∷ []) }
    ensures fresh { NamesNew arena.old arena.new named.old.items named.new.items }
    ensures there { HasReplica arena.old storage id → arena.new ≡ arena.old }
    ensures refused { IfErr result (λ e. e ≡ Memory) }
{
    named.reserve(1)?;
    arena.show_invariant();
    let slot = slot_for(arena, id)?;
    named.push_reserved(ReportedSlot { id, slot, stamp });
    arena.show_invariant();
    reserve_replica(arena, slot, storage)?;
    Ok(())
}

/// Looks up the numbers of an entry that are of the part, and reserves capacity. It steps from one
/// to the next, so numbers of other shards cost nothing.
fn look_up_run(
    arena: &mut Arena,
    storage: StorageId,
    entry: &Entry,
    part: Part,
    named: &mut Vec<ReportedSlot>,
) -> Result<(), Refusal>
    requires shards { 0 < part.shards }
    requires index { part.index < part.shards }
    requires here { AreAtSlots arena.old named.old.items }
    requires capacity { HaveCapacity arena.old storage named.old.items }
    ensures kept { IsPrepared arena.old arena.new }
    ensures others { (b : ℕ) → is_named (of_part part (blocks_of_entry entry.now)) b ≡ false
        → slot_of arena.new b ≡ slot_of arena.old b }
    ensures here { OnOk result (AreAtSlots arena.new named.new.items) }
    ensures capacity { OnOk result (HaveCapacity arena.new storage named.new.items) }
    ensures named { OnOk result (map reported_of named.new.items ≡ map reported_of named.old.items
        ++ of_part part (blocks_of_entry entry.now)) }
    ensures fresh { NamesNew arena.old arena.new named.old.items named.new.items }
    ensures there { HaveReplicas arena.old storage (of_part part (blocks_of_entry entry.now))
        → arena.new ≡ arena.old }
    ensures refused { IfErr result (λ e. e ≡ Memory) }
{
    let last = u128::from(entry.to.0);
    let mut next = first_of_part(entry.from, part);
    while next <= last {
        arena.show_invariant();
        look_up_number(arena, storage, BlockId(next as u64), entry.stamp, named)?;
        next += u128::from(part.shards);
    }
    Ok(())
}

/// Finds the slots of all numbers of the part that a report names, in order, repeats included.
/// Gives an entry to a new number, and capacity for a replica on the storage to a block that has
/// none there.
fn look_up_all(
    arena: &mut Arena,
    storage: StorageId,
    entries: &[Entry],
    part: Part,
    named: &mut Vec<ReportedSlot>,
) -> Result<(), Refusal>
    requires shards { 0 < part.shards }
    requires index { part.index < part.shards }
    ensures kept { IsPrepared arena.old arena.new }
    ensures others { (b : ℕ) → is_named (reported_to_part part entries.now) b ≡ false
        → slot_of arena.new b ≡ slot_of arena.old b }
    ensures here { OnOk result (AreAtSlots arena.new named.new.items) }
    ensures capacity { OnOk result (HaveCapacity arena.new storage named.new.items) }
    ensures named { OnOk result (map reported_of named.new.items ≡ reported_to_part part entries.now) }
    ensures fresh { NamesNew arena.old arena.new [] named.new.items }
    ensures there { HaveReplicas arena.old storage (reported_to_part part entries.now)
        → arena.new ≡ arena.old }
    ensures refused { IfErr result (λ e. e ≡ Memory) }
{
    named.clear();
    for chunk in entries.chunks(CHUNK) {
        read_ahead(arena, chunk, part, named)?;
        look_up_chunk(arena, storage, chunk, part, named)?;
    }
    Ok(())
}

/// Prefetch, with a single shard only: reads the arena's entry of the first number of each run in a
/// chunk. Reserves capacity in `named` for those numbers that are known with the reported stamp. A
/// read is so short that many cache misses overlap; a look-up is too long for that. With several
/// shards each number would cost one more division.
fn read_ahead(
    arena: &Arena,
    chunk: &[Entry],
    part: Part,
    named: &mut Vec<ReportedSlot>,
) -> Result<(), Refusal>
    ensures named { named.new.items ≡ named.old.items }
    ensures refused { IfErr result (λ e. e ≡ Memory) }
{
    if part.shards == 1 {
        named.reserve(count_known(arena, chunk))?;
    }
    Ok(())
}

/// Looks up the numbers of a chunk of entries that are of the part, and reserves capacity.
fn look_up_chunk(
    arena: &mut Arena,
    storage: StorageId,
    chunk: &[Entry],
    part: Part,
    named: &mut Vec<ReportedSlot>,
) -> Result<(), Refusal>
    requires shards { 0 < part.shards }
    requires index { part.index < part.shards }
    requires here { AreAtSlots arena.old named.old.items }
    requires capacity { HaveCapacity arena.old storage named.old.items }
    ensures kept { IsPrepared arena.old arena.new }
    ensures others { (b : ℕ) → is_named (reported_to_part part chunk.now) b ≡ false
        → slot_of arena.new b ≡ slot_of arena.old b }
    ensures here { OnOk result (AreAtSlots arena.new named.new.items) }
    ensures capacity { OnOk result (HaveCapacity arena.new storage named.new.items) }
    ensures named { OnOk result (map reported_of named.new.items ≡ map reported_of named.old.items
        ++ reported_to_part part chunk.now) }
    ensures fresh { NamesNew arena.old arena.new named.old.items named.new.items }
    ensures there { HaveReplicas arena.old storage (reported_to_part part chunk.now)
        → arena.new ≡ arena.old }
    ensures refused { IfErr result (λ e. e ≡ Memory) }
{
    for entry in chunk {
        look_up_run(arena, storage, entry, part, named)?;
    }
    Ok(())
}

/// How many of these entries begin with a block that is known with the reported stamp.
fn count_known(arena: &Arena, entries: &[Entry]) -> usize {
    let mut known = 0usize;
    for entry in entries {
        if is_known(arena, entry) {
            known = known.saturating_add(1);
        }
    }
    known
}

/// Whether an entry begins with a block that is known with the reported stamp. Reads what the arena
/// has of it from its first cache line to its last.
fn is_known(arena: &Arena, entry: &Entry) -> bool {
    let Some(slot) = arena.find(entry.from) else {
        return false;
    };
    match arena.info(slot) {
        Some(info) => info.stamp == entry.stamp,
        None => false,
    }
}

/// Looks up all numbers of the part that a report of a storage names, and reserves what `apply`
/// needs besides `changed`. A known number is hashed at most twice, and a new one three times. All
/// blocks and replicas stay. `Memory`.
pub(crate) fn look_up(
    arena: &mut Arena,
    storage: StorageId,
    entries: &[Entry],
    part: Part,
    named: &mut Vec<ReportedSlot>,
) -> Result<(), Refusal>
    requires shards { 0 < part.shards }
    requires index { part.index < part.shards }
    ensures kept { IsPrepared arena.old arena.new }
    ensures others { (b : ℕ) → is_named (reported_to_part part entries.now) b ≡ false
        → slot_of arena.new b ≡ slot_of arena.old b }
    ensures head { OnOk result (HasHead arena.new storage) }
    ensures here { OnOk result (AreAtSlots arena.new named.new.items) }
    ensures capacity { OnOk result (HaveCapacity arena.new storage named.new.items) }
    ensures named { OnOk result (map reported_of named.new.items ≡ reported_to_part part entries.now) }
    ensures fresh { NamesNew arena.old arena.new [] named.new.items }
    ensures there { HasHead arena.old storage
        → HaveReplicas arena.old storage (reported_to_part part entries.now) → arena.new ≡ arena.old }
    ensures refused { IfErr result (λ e. e ≡ Memory) }
{
    reserve_head(arena, storage)?;
    look_up_all(arena, storage, entries, part, named)
}

/// Looks up one number, and reserves what a notice of it needs. All blocks and replicas stay.
/// `Memory`.
pub(crate) fn look_up_alone(
    arena: &mut Arena,
    storage: StorageId,
    id: BlockId,
    stamp: Stamp,
    named: &mut Vec<ReportedSlot>,
) -> Result<(), Refusal>
    ensures kept { IsPrepared arena.old arena.new }
    ensures others { (b : ℕ) → b ≢ id → slot_of arena.new b ≡ slot_of arena.old b }
    ensures head { OnOk result (HasHead arena.new storage) }
    ensures here { OnOk result (AreAtSlots arena.new named.new.items) }
    ensures capacity { OnOk result (HaveCapacity arena.new storage named.new.items) }
    ensures named { OnOk result (map reported_of named.new.items
        ≡ record { id = id; stamp = stamp } ∷ []) }
    ensures fresh { NamesNew arena.old arena.new [] named.new.items }
    ensures there { HasReplica arena.old storage id → arena.new ≡ arena.old }
    ensures refused { IfErr result (λ e. e ≡ Memory) }
{
    named.clear();
    arena.show_invariant();
    reserve_head(arena, storage)?;
    arena.show_invariant();
    look_up_number(arena, storage, id, stamp, named)
}

fn reserve_head(arena: &mut Arena, storage: StorageId) -> Result<(), Refusal>
    ensures kept { IsPrepared arena.old arena.new }
    ensures head { OnOk result (HasHead arena.new storage) }
    ensures numbers { (b : ℕ) → slot_of arena.new b ≡ slot_of arena.old b }
    ensures had { HasHead arena.old storage → IsOk result × (arena.new ≡ arena.old) }
    ensures refused { IfErr result (λ e. e ≡ Memory) }
{
    arena.show_invariant();
    arena.reserve_heads(&[storage])
}
