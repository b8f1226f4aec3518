// The files with blocks that are missing, or would be after one more failure.
ghost use Rattle.std.specs.Prelude.{◌≡◌, IfOk, get_or, replicate};
ghost use Rattle.bm_base.specs.Words.{is_at};
ghost use Rattle.cluster_pages.specs.AtRisk.{AreAtRisk, AreCounts, highest_of, rows_of, rows_without, with_one, with_counted};

use bm_base::{BlockId, Items, Level};
use cluster_names::{FileIndex, Files};
use cluster_report::levels::Leveled;
use std::alloc::{AllocError, Global};

/// The index of a file, and the number of its blocks at risk.
#[derive(Clone, Copy)]
pub struct FileRow {
    pub file: usize,
    pub blocks: usize,
}

/// The files at risk, in the order of the input.
#[derive(Drop)]
pub struct AtRisk {
    /// The files with a missing block.
    pub lost: Items<FileRow>,
    /// The files with a block at the highest level that are not lost.
    pub endangered: Items<FileRow>,
}

/// The files at risk by these missing blocks, and by the urgent ones at the highest level.
pub fn files_at_risk(
    alloc: Global,
    files: &Files,
    missing: &[BlockId],
    urgent: &[Leveled],
) -> Result<AtRisk, AllocError>
    ensures { IfOk result (λ risk. AreAtRisk files.now missing.now urgent.now risk) }
{
    let highest = highest_of(alloc, urgent)?;
    let missing_counts = count_by_file(alloc, files, missing)?;
    let highest_counts = count_by_file(alloc, files, highest.as_slice())?;
    let lost = rows_of(alloc, missing_counts.as_slice())?;
    let both = rows_of(alloc, highest_counts.as_slice())?;
    let endangered = rows_without(alloc, missing_counts.as_slice(), both.as_slice())?;
    Ok(AtRisk {
        lost: Items::from_vec(lost),
        endangered: Items::from_vec(endangered),
    })
}

/// The blocks at the highest level.
fn highest_of(alloc: Global, urgent: &[Leveled]) -> Result<Vec<BlockId>, AllocError>
    ensures { IfOk result (λ v. v.items ≡ highest_of urgent.now) }
{
    urgent
        .iter()
        .filter(|found| is_highest(found))
        .map(block_of)
        .collect(alloc)
}

fn block_of(found: &Leveled) -> BlockId
    ensures { result ≡ found.now.block }
{
    found.block
}

fn is_highest(found: &Leveled) -> bool
    ensures { result ≡ is_at Level.Highest found.now.level }
{
    match found.level {
        Some(level) => level.number() == Level::Highest.number(),
        None => false,
    }
}

/// The number of these blocks in each file.
fn count_by_file(alloc: Global, files: &Files, blocks: &[BlockId]) -> Result<Vec<usize>, AllocError>
    ensures { IfOk result (λ counts. AreCounts files.now blocks.now counts.items) }
{
    let mut counts = no_counts(alloc, files.file_count())?;
    for block in blocks {
        count_in_file(&mut counts, files.find_block(*block));
    }
    Ok(counts)
}

fn no_counts(alloc: Global, files: usize) -> Result<Vec<usize>, AllocError>
    ensures { IfOk result (λ counts. counts.items ≡ replicate files 0) }
{
    vec![in alloc; 0usize; files]
}

/// Counts a block in its file, if it has one.
fn count_in_file(counts: &mut Vec<usize>, found: Option<FileIndex>)
    ensures { counts.new.items ≡ with_counted found counts.old.items }
{
    if let Some(found) = found {
        add_one(counts.as_mut_slice(), found.file);
    }
}

/// Adds 1 to the count at an index, if there is one.
fn add_one(counts: &mut [usize], index: usize)
    ensures { counts.new ≡ with_one counts.old index }
{
    if index < counts.len() {
        counts[index] = counts[index].saturating_add(1);
    }
}

/// The files whose count is not 0.
fn rows_of(alloc: Global, counts: &[usize]) -> Result<Vec<FileRow>, AllocError>
    ensures { IfOk result (λ v. v.items ≡ rows_of counts.now) }
{
    counts
        .iter()
        .enumerate()
        .map(|(file, blocks)| FileRow {
            file,
            blocks: *blocks,
        })
        .filter(|row| row.blocks > 0)
        .collect(alloc)
}

/// The files among these that have none of the counted blocks.
fn rows_without(
    alloc: Global,
    counts: &[usize],
    rows: &[FileRow],
) -> Result<Vec<FileRow>, AllocError>
    ensures { IfOk result (λ v. v.items ≡ rows_without counts.now rows.now) }
{
    rows.iter()
        .filter(|row| count_at(counts, row.file) == 0)
        .copied()
        .collect(alloc)
}

fn count_at(counts: &[usize], index: usize) -> usize
    ensures { result ≡ get_or counts.now index 0 }
{
    counts.get(index).copied().unwrap_or(0)
}
