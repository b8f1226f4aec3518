// Replicas that are found corrupt.

use crate::dice::Dice;
use bm_base::{BlockId, Call, Event, Refusal, StorageId};
use bm_manager::Manager;
use std::alloc::Global;

/// Reports one good replica as corrupt for each of `count` blocks, which are at equal distances
/// among all `blocks`. The first block and the replicas are drawn. A block without a good replica
/// is skipped.
pub fn corrupt_calls(
    alloc: Global,
    dice: &mut Dice,
    manager: &Manager,
    count: u32,
    blocks: u32,
) -> Result<Vec<Call>, Refusal> {
    let mut calls = Vec::new(alloc);
    let first = dice.draw_below(blocks.max(1));
    for number in 0..count {
        let id = block_at(first, number, count, blocks);
        let places = manager.places(id)?;
        if let Some(storage) = draw_storage(dice, places.as_slice()) {
            calls.push(Call::Apply(Event::Corrupt { storage, id }))?;
        }
    }
    Ok(calls)
}

/// Returns block `number` of `count` blocks at equal distances among all `blocks`, from `first` on,
/// cyclically.
fn block_at(first: u32, number: u32, count: u32, blocks: u32) -> BlockId {
    let distance = (u64::from(number) * u64::from(blocks))
        .checked_div(u64::from(count))
        .unwrap_or(0);
    BlockId(
        u64::from(first)
            .saturating_add(distance)
            .checked_rem(u64::from(blocks))
            .unwrap_or(0),
    )
}

/// Draws one of the storages, if there are any.
fn draw_storage(dice: &mut Dice, storages: &[StorageId]) -> Option<StorageId> {
    let count = u32::try_from(storages.len()).unwrap_or(u32::MAX);
    if count == 0 {
        return None;
    }
    storages.get(dice.draw_below(count) as usize).copied()
}
