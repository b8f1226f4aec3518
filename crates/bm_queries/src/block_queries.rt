// Queries of one block, at its own replicas alone.
ghost use Rattle.std.specs.Prelude.{◌≡◌, ◌++◌, ℕ, IfOk, IfErr, OnOk};
ghost use Rattle.bm_base.specs.Words.{list_any, Map, by_replica};
ghost use Rattle.bm_base.specs.declared.refusal.Refusal.TheVariants.{Memory};
ghost use Rattle.bm_arena.specs.HeldMaps.{replicas_at};
ghost use Rattle.bm_levels.specs.SlotHoldings.{holdings_with};
ghost use Rattle.bm_levels.specs.Status.{storages_at};
ghost use Rattle.bm_base.specs.Machine.Queries as queries;
ghost use Rattle.bm_base.specs.Machine.Refusals as refusals;
ghost use Rattle.bm_base.specs.Machine.Replicas as replicas;

use bm_arena::{Arena, Slot};
use bm_base::{BlockId, Items, Refusal, StorageId};
use bm_levels::LeveledBlocks;
use std::alloc::Global;

/// Appends the storages of the good replicas at a slot.
pub(crate) fn push_places(
    arena: &Arena,
    slot: Slot,
    into: &mut Vec<StorageId>,
) -> Result<(), Refusal>
    ensures items { OnOk result (into.new.items ≡ into.old.items
        ++ storages_at (λ _ m. replicas.is_good m.tag) (replicas_at arena.now slot)) }
    ensures refused { IfErr result (λ e. e ≡ Memory) }
{
    for index in 0..arena.triplet_count(slot) {
        if let Some((storage, marks)) = arena.triplet_at(slot, index) {
            if marks.tag.is_good() {
                into.push(storage)?;
            }
        }
    }
    Ok(())
}

/// The storages of the block's good replicas, ascending. May answer `Memory`.
pub fn places(
    alloc: Global,
    blocks: &LeveledBlocks,
    id: BlockId,
) -> Result<Items<StorageId>, Refusal>
    ensures places { (pending : Map by_replica ℕ)
        → IfOk result (λ v. v ≡ queries.places (holdings_with blocks.now.arena pending) id) }
    ensures refused { IfErr result (λ e. e ≡ Memory) }
{
    let arena = blocks.arena();
    arena.show_invariant();
    let mut storages = Vec::new(alloc);
    if let Some(slot) = arena.find(id) {
        push_places(arena, slot, &mut storages)?;
    }
    storages.sort()?;
    Ok(Items::from_vec(storages))
}

/// Whether a block is known. Takes no memory.
pub fn knows_block(blocks: &LeveledBlocks, id: BlockId) -> bool
    ensures { (pending : Map by_replica ℕ)
        → result ≡ refusals.knows_block (holdings_with blocks.now.arena pending) id }
{
    let arena = blocks.arena();
    match arena.find(id) {
        Some(slot) => arena.info(slot).is_some(),
        None => false,
    }
}

/// Whether a replica at a slot is stray.
fn has_stray(arena: &Arena, slot: Slot) -> bool
    ensures { result ≡ list_any (λ r. replicas.is_stray r.1.tag) (replicas_at arena.now slot) }
{
    for index in 0..arena.triplet_count(slot) {
        if let Some((_, marks)) = arena.triplet_at(slot, index) {
            if marks.tag.is_stray() {
                return true;
            }
        }
    }
    false
}

/// Whether a stray replica of the number exists. Takes no memory.
pub fn is_still_stored(blocks: &LeveledBlocks, id: BlockId) -> bool
    ensures { (pending : Map by_replica ℕ)
        → result ≡ refusals.is_still_stored (holdings_with blocks.now.arena pending) id }
{
    let arena = blocks.arena();
    arena.show_invariant();
    match arena.find(id) {
        Some(slot) => has_stray(arena, slot),
        None => false,
    }
}
