// The rows of the table that readers see.
ghost use Rattle.std.specs.Prelude.{◌≡◌, ◌++◌, ◌∷◌, [], ℕ, Some, IsSome, IfOk, IfErr, OnOk, map, take, All};
ghost use Rattle.bm_base.specs.Words.{Map, keys, by_replica};
ghost use Rattle.bm_base.specs.declared.refusal.Refusal.TheVariants.{Memory};
ghost use Rattle.bm_base.specs.declared.limits.TheConstants.{MAX_PLACES};
ghost use Rattle.bm_arena.specs.Contents.{block_at, slot_of};
ghost use Rattle.bm_arena.specs.HeldMaps.{blocks_of};
ghost use Rattle.bm_levels.specs.IndexedLevels.{indexed_slots};
ghost use Rattle.bm_levels.specs.SlotHoldings.{holdings_with};
ghost use Rattle.bm_queries.specs.ListedElements.{known_on, with_slot, HasItsSlot};
ghost use Rattle.bm_base.specs.Machine.Queries as queries;
ghost use Rattle.bm_base.specs.Promises.Versions as versions;

use crate::block_queries::push_places;
use bm_arena::{Arena, Slot};
use bm_base::{BlockId, Items, Places, Refusal, StorageId};
use bm_levels::LeveledBlocks;
use std::alloc::Global;

/// Appends the block at a slot, with the slot, if it is known.
fn push_known(arena: &Arena, slot: Slot, into: &mut Vec<(BlockId, Slot)>) -> Result<(), Refusal>
    requires { IsSome (block_at arena.now slot) }
    ensures items { OnOk result (into.new.items ≡ into.old.items
        ++ known_on arena.now (slot ∷ [])) }
    ensures refused { IfErr result (λ e. e ≡ Memory) }
{
    if arena.info(slot).is_some() {
        into.push((arena.id_of(slot), slot))?;
    }
    Ok(())
}

/// The known blocks with their slots, in the order of the arena.
fn gather_known_blocks(alloc: Global, arena: &Arena) -> Result<Vec<(BlockId, Slot)>, Refusal>
    ensures items { IfOk result (λ v. v.items ≡ known_on arena.now (indexed_slots arena.now)) }
    ensures refused { IfErr result (λ e. e ≡ Memory) }
{
    arena.show_invariant();
    let mut known = Vec::with_capacity(alloc, arena.count())?;
    for index in 0..arena.count() {
        if let Some(slot) = arena.slot_at(index) {
            push_known(arena, slot, &mut known)?;
        }
    }
    Ok(known)
}

/// The known blocks with their slots, ascending.
fn known_blocks(alloc: Global, arena: &Arena) -> Result<Vec<(BlockId, Slot)>, Refusal>
    ensures blocks { IfOk result
        (λ v. v.items ≡ map (with_slot arena.now) (keys (blocks_of arena.now))) }
    ensures slots { IfOk result (λ v. All (HasItsSlot arena.now) v.items) }
    ensures refused { IfErr result (λ e. e ≡ Memory) }
{
    arena.show_invariant();
    let mut known = gather_known_blocks(alloc, arena)?;
    known.sort_by_key(|one| one.0)?;
    Ok(known)
}

/// The first `MAX_PLACES` of a block's places. `storages` is a scratch buffer.
fn first_places(
    arena: &Arena,
    id: BlockId,
    slot: Slot,
    storages: &mut Vec<StorageId>,
) -> Result<Places, Refusal>
    requires { slot_of arena.now id ≡ Some slot }
    ensures places { (pending : Map by_replica ℕ)
        → IfOk result (λ p. p
        ≡ take MAX_PLACES (queries.places (holdings_with arena.now pending) id)) }
    ensures refused { IfErr result (λ e. e ≡ Memory) }
{
    arena.show_invariant();
    storages.clear();
    push_places(arena, slot, storages)?;
    storages.sort()?;
    Ok(Places::first_of(storages.as_slice()))
}

/// For each known block, ascending, the first `MAX_PLACES` of its places. The blocks are sorted
/// before the rows are made, so no row moves. May answer `Memory`.
pub fn table_rows(
    alloc: Global,
    blocks: &LeveledBlocks,
) -> Result<Items<(BlockId, Places)>, Refusal>
    ensures rows { (pending : Map by_replica ℕ)
        → IfOk result (λ v. v ≡ versions.table (holdings_with blocks.now.arena pending)) }
    ensures refused { IfErr result (λ e. e ≡ Memory) }
{
    let arena = blocks.arena();
    let known = known_blocks(alloc, arena)?;
    let mut rows = Vec::with_capacity(alloc, known.len())?;
    let mut storages = Vec::new(alloc);
    for (id, slot) in &known {
        let places = first_places(arena, *id, *slot, &mut storages)?;
        rows.push((*id, places))?;
    }
    Ok(Items::from_vec(rows))
}
