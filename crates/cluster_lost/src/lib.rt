//! The blocks that are lost with nodes and storages.
//!
//! The manager lists the missing blocks before the losses and after them. [`lost_blocks`] subtracts
//! the first list from the second. Its contract states the result in an operator's words: the
//! blocks whose usable replicas were all on lost storages.
//!
//! A [`block_pass::BlockPass`] computes the losses of many failures at once: it tallies all blocks
//! as they are, and as they would be if the nodes of one row were lost.
#![tactic(auto)]

pub mod block_pass;
pub mod sources;
pub mod tally;

ghost use Rattle.std.specs.Prelude.{◌≡◌, List, IfOk, not, filter};
ghost use Rattle.bm_base.specs.Words.{has, State};
ghost use Rattle.bm_base.specs.declared.event.Event.{Event};
ghost use Rattle.bm_base.specs.Maps.Map as map_of;
ghost use Rattle.cluster_lost.specs.Losses as law;

use bm_base::{BlockId, Items};
use bm_maps::NumberMap;
use std::alloc::{AllocError, Global};

/// After losses without a round between, a known block is missing exactly if no usable replica of
/// it was on a storage that stays.
pub fn missing_has_no_replica_left()
    ensures { law.missing_has_no_replica_left }
{}

/// The lost blocks, ascending, from the blocks that are missing before the losses and after them.
pub fn lost_blocks(
    alloc: Global,
    before: &[BlockId],
    after: &[BlockId],
) -> Result<Items<BlockId>, AllocError>
    ensures { IfOk result (λ lost. (M : State) (es : List Event)
        → law.AreMissing M es before.now after.now → lost ≡ law.lost_blocks M es) }
{
    let known = set_of(alloc, before)?;
    let lost = new_blocks(alloc, &known, after)?;
    Ok(Items::from_vec(lost))
}

/// A set of these blocks, which are ascending.
fn set_of(alloc: Global, blocks: &[BlockId]) -> Result<NumberMap<bool>, AllocError>
    ensures { IfOk result (λ set. (b : _)
        → map_of.contains_key set.map b ≡ has blocks.now b) }
{
    let mut set = NumberMap::new(alloc);
    for block in blocks {
        set.insert(number_of(block), true)?;
    }
    Ok(set)
}

fn number_of(block: &BlockId) -> u64
    ensures { result ≡ block.now }
{
    block.0
}

/// Those of these blocks that are not in the set.
fn new_blocks(
    alloc: Global,
    set: &NumberMap<bool>,
    blocks: &[BlockId],
) -> Result<Vec<BlockId>, AllocError>
    ensures { IfOk result (λ v. v.items
        ≡ filter (λ b. not (map_of.contains_key set.now.map b)) blocks.now) }
{
    blocks
        .iter()
        .filter(|block| is_new(set, block))
        .copied()
        .collect(alloc)
}

fn is_new(set: &NumberMap<bool>, block: &BlockId) -> bool
    ensures { result ≡ not (map_of.contains_key set.now.map block.now) }
{
    set.get(block.0).is_none()
}
