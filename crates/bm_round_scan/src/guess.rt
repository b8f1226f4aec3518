// A guess of the wishes that a round needs.
ghost use Rattle.std.specs.Prelude.{◌<◌};

use bm_arena::Slot;
use bm_base::Level;
use bm_levels::LeveledBlocks;
use bm_parts::sort_key::Key;
use bm_pending::PendingTransfers;
use std::alloc::{AllocError, Global};

/// A bound pays only if blocks that need copies outnumber unsettled ones by this factor.
const REQUESTS_PER_UNSETTLED: usize = 4;

/// With this number of samples before the bound, it is off by about a tenth.
const SAMPLES_BEFORE: usize = 128;

/// A bound before which about `most` blocks have wishes; a block with a pending transfer counts as
/// one without a wish. Only a guess: nothing but the time of a round may depend on it.
///
/// `None` if fewer blocks have wishes. Also `None` if unsettled blocks are more than a quarter of
/// those at a level at which copies are wanted. A round scans all unsettled blocks whatever the
/// bound is, and twice if the wishes before the bound do not fill it.
///
/// It takes about `samples` samples, evenly spread over the slots at a level at which copies are
/// wanted; up to four times that number if few come before the bound. So its cost does not depend
/// on the number of blocks. It takes no sample if those slots are no more than `most`.
pub fn likely_bound(
    alloc: Global,
    blocks: &LeveledBlocks,
    pending: &PendingTransfers,
    most: usize,
    samples: usize,
) -> Result<Option<Key>, AllocError> {
    let count = blocks.level_index().count_needing_copies();
    if count <= most {
        return Ok(None);
    }
    if blocks.level_index().unsettled_count() > count / REQUESTS_PER_UNSETTLED {
        return Ok(None);
    }
    let of_all = count / samples.max(1);
    let step = (most / SAMPLES_BEFORE)
        .min(of_all)
        .max(of_all / 4)
        .saturating_add(1);
    let mut keys = Vec::new(alloc);
    push_keys(blocks, pending, Level::Highest, step, &mut keys)?;
    push_keys(blocks, pending, Level::VeryUnderReplicated, step, &mut keys)?;
    push_keys(blocks, pending, Level::UnderReplicated, step, &mut keys)?;
    push_keys(blocks, pending, Level::BadlyDistributed, step, &mut keys)?;
    keys.sort()?;
    Ok(keys.get(most / step).copied())
}

/// Appends the key of every `step`-th slot of a level.
fn push_keys(
    blocks: &LeveledBlocks,
    pending: &PendingTransfers,
    level: Level,
    step: usize,
    into: &mut Vec<Key>,
) -> Result<(), AllocError>
    requires { 0 < step }
{
    for member in blocks.level_index().at_level(level).iter().step_by(step) {
        push_key(blocks, pending, level, *member as usize, into)?;
    }
    Ok(())
}

/// Appends the level and the number of the block at a slot, unless it has a pending transfer.
fn push_key(
    blocks: &LeveledBlocks,
    pending: &PendingTransfers,
    level: Level,
    slot: Slot,
    into: &mut Vec<Key>,
) -> Result<(), AllocError> {
    let id = blocks.arena().number_of(slot);
    if pending.count_of(id) == 0 {
        into.push((level.number() as u64, id.0))?;
    }
    Ok(())
}
