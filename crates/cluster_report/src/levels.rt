// The blocks counted by level, and the most urgent ones.
ghost use Rattle.std.specs.Prelude.{◌≡◌, ◌++◌, IfOk, map, count_by, sum_by, is_none, if◌then◌else◌};
ghost use Rattle.bm_base.specs.Words.{is_at, level};
ghost use Rattle.cluster_report.specs.Levels.{all_at, bytes_at, level_bytes, leveled, levels_counted, urgent_first};
ghost use Rattle.cluster_report.specs.Catalogues.{len_in};

use crate::catalogue::Catalogue;
use bm_base::{BlockId, Level};
use bm_manager::Manager;
use std::alloc::{AllocError, Global};

/// A block and its level, if it has one.
#[derive(Clone, Copy)]
pub struct Leveled {
    pub block: BlockId,
    pub level: Option<Level>,
}

/// The number of blocks at each level.
#[derive(Clone, Copy)]
pub struct LevelCounts {
    pub highest: usize,
    pub very_under_replicated: usize,
    pub under_replicated: usize,
    pub badly_distributed: usize,
    pub missing: usize,
    /// The blocks that need no copy.
    pub none: usize,
}

/// The bytes of the blocks at each level.
#[derive(Clone, Copy)]
pub struct LevelBytes {
    pub highest: u128,
    pub very_under_replicated: u128,
    pub under_replicated: u128,
    pub badly_distributed: u128,
    pub missing: u128,
    pub none: u128,
}

/// The level of each of these blocks. Makes one query for each.
pub fn query_levels(
    alloc: Global,
    manager: &Manager,
    blocks: &[u64],
) -> Result<Vec<Leveled>, AllocError>
    ensures { IfOk result (λ v. v.items
        ≡ map (leveled manager.now.cluster manager.now.holdings) blocks.now) }
{
    let mut levels = Vec::new(alloc);
    for number in blocks {
        let block = BlockId(*number);
        let level = find_level(manager, block);
        levels.push(Leveled { block, level })?;
    }
    Ok(levels)
}

/// The level of a block; none of an unknown block.
#[tactic(auto, unfolding(bm_base::specs::Machine::Levels::level, bm_base::specs::Machine::Refusals::block_refusal, bm_base::specs::Machine::Refusals::knows_block))]
fn find_level(manager: &Manager, block: BlockId) -> Option<Level>
    ensures { result ≡ level manager.now.cluster manager.now.holdings block }
{
    match manager.level(block) {
        Ok(level) => level,
        Err(_) => None,
    }
}

/// Counts these blocks by level, and adds the number of missing blocks. Reads each level five
/// times. Takes no memory.
pub fn count_levels(levels: &[Leveled], missing: usize) -> LevelCounts
    ensures { result ≡ levels_counted levels.now missing }
{
    LevelCounts {
        highest: count_at(levels, Level::Highest),
        very_under_replicated: count_at(levels, Level::VeryUnderReplicated),
        under_replicated: count_at(levels, Level::UnderReplicated),
        badly_distributed: count_at(levels, Level::BadlyDistributed),
        missing,
        none: count_none(levels),
    }
}

/// The bytes of these blocks by level, and of the missing ones.
pub fn level_bytes(catalogue: &Catalogue, levels: &[Leveled], missing: &[BlockId]) -> LevelBytes
    ensures { result ≡ level_bytes (len_in catalogue.now) levels.now missing.now }
{
    LevelBytes {
        highest: bytes_at(catalogue, levels, Level::Highest),
        very_under_replicated: bytes_at(catalogue, levels, Level::VeryUnderReplicated),
        under_replicated: bytes_at(catalogue, levels, Level::UnderReplicated),
        badly_distributed: bytes_at(catalogue, levels, Level::BadlyDistributed),
        missing: catalogue.bytes_of(missing),
        none: bytes_at_none(catalogue, levels),
    }
}

fn bytes_at(catalogue: &Catalogue, levels: &[Leveled], urgency: Level) -> u128
    ensures { result ≡ bytes_at (len_in catalogue.now) urgency levels.now }
{
    let mut total = 0u128;
    for found in levels {
        total += u128::from(len_if(catalogue, found, is_at_level(found, urgency)));
    }
    total
}

fn bytes_at_none(catalogue: &Catalogue, levels: &[Leveled]) -> u128
    ensures { result ≡ sum_by (λ l. if is_none l.level then len_in catalogue.now l.block else 0)
        levels.now }
{
    let mut total = 0u128;
    for found in levels {
        total += u128::from(len_if(catalogue, found, has_none(found)));
    }
    total
}

/// The length of a block if it counts; else 0.
fn len_if(catalogue: &Catalogue, found: &Leveled, counts: bool) -> u64
    ensures { result ≡ (if counts then len_in catalogue.now found.now.block else 0) }
{
    if counts {
        catalogue.len_of(found.block)
    } else {
        0
    }
}

fn count_at(levels: &[Leveled], urgency: Level) -> usize
    ensures { result ≡ count_by (λ l. is_at urgency l.level) levels.now }
{
    levels
        .iter()
        .filter(|found| is_at_level(found, urgency))
        .count()
}

fn count_none(levels: &[Leveled]) -> usize
    ensures { result ≡ count_by (λ l. is_none l.level) levels.now }
{
    levels.iter().filter(|found| has_none(found)).count()
}

/// Whether a block has no level.
fn has_none(found: &Leveled) -> bool
    ensures { result ≡ is_none found.now.level }
{
    found.level.is_none()
}

/// Whether a block is at this level.
fn is_at_level(found: &Leveled, urgency: Level) -> bool
    ensures { result ≡ is_at urgency found.now.level }
{
    is_at(found.level, urgency)
}

/// Whether the level is this one.
fn is_at(found: Option<Level>, urgency: Level) -> bool
    ensures { result ≡ is_at urgency found }
{
    match found {
        Some(level) => level.number() == urgency.number(),
        None => false,
    }
}

/// The blocks that need a copy and have a source, by level and then in their order.
pub fn urgent_first(alloc: Global, levels: &[Leveled]) -> Result<Vec<Leveled>, AllocError>
    ensures { IfOk result (λ v. v.items ≡ urgent_first levels.now) }
{
    let urgent = all_at(alloc, levels, Level::Highest)?;
    let urgent = append_all_at(alloc, urgent, levels, Level::VeryUnderReplicated)?;
    let urgent = append_all_at(alloc, urgent, levels, Level::UnderReplicated)?;
    append_all_at(alloc, urgent, levels, Level::BadlyDistributed)
}

/// Appends the blocks at one level.
fn append_all_at(
    alloc: Global,
    mut urgent: Vec<Leveled>,
    levels: &[Leveled],
    urgency: Level,
) -> Result<Vec<Leveled>, AllocError>
    ensures { IfOk result (λ v. v.items
        ≡ urgent.items ++ all_at urgency levels.now) }
{
    let mut more = all_at(alloc, levels, urgency)?;
    urgent.append(&mut more)?;
    Ok(urgent)
}

/// The blocks at one level.
fn all_at(alloc: Global, levels: &[Leveled], urgency: Level) -> Result<Vec<Leveled>, AllocError>
    ensures { IfOk result (λ v. v.items ≡ all_at urgency levels.now) }
{
    levels
        .iter()
        .filter(|found| is_at_level(found, urgency))
        .copied()
        .collect(alloc)
}
