// The keys of slots: the level of the block, and its number.
ghost use Rattle.std.specs.Prelude.{◌≡◌};
ghost use Rattle.bm_parts.specs.BoundedWishes as before;
ghost use Rattle.bm_round_scan.specs.ScannedSlots as scanned;

use bm_arena::{Arena, Slot};
use bm_levels::LevelIndex;
use bm_parts::sort_key::Key;

/// Represents the level of a block that has none: one more than the greatest.
const NO_LEVEL: u32 = 5;

/// The level and the number of the block at a slot: the key of its wish, if the slot is settled.
pub(crate) fn key_of(level_index: &LevelIndex, arena: &Arena, slot: Slot) -> Key
    ensures { result ≡ scanned.key_at level_index.now arena.now slot }
{
    let level = match level_index.level(slot) {
        Some(level) => level.number(),
        None => NO_LEVEL,
    };
    (level as u64, arena.number_of(slot).0)
}

/// Whether a key comes before a bound, if there is one.
pub(crate) fn is_before(bound: Option<Key>, key: Key) -> bool
    ensures { result ≡ before.is_before bound key }
{
    match bound {
        Some(bound) => key.0.cmp(&bound.0).then(key.1.cmp(&bound.1)).is_lt(),
        None => true,
    }
}
