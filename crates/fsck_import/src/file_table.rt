// The table of files: the path, the index in the file and the number of each block.
ghost use Rattle.std.specs.Prelude.{◌≡◌, ◌++◌, IfOk, OnOk, option_to_list, slice_get, string_bytes, flat_map};
ghost use Rattle.fsck_import.specs.FileTables.{file_line, row_text, files_text};

use bm_base::BlockId;
use cluster_names::{FileIndex, Files};
use std::alloc::{AllocError, Global};

/// One row for each block, in the order of the text.
#[tactic(auto, unfolding(crate::specs::FileTables::files_text))]
pub fn files_text(alloc: Global, files: &Files) -> Result<String, AllocError>
    ensures { IfOk result (λ s. string_bytes s ≡ files_text files.now) }
{
    let mut text = String::new(alloc);
    write_rows(&mut text, files)?;
    Ok(text)
}

fn write_rows(text: &mut String, files: &Files) -> Result<(), AllocError>
    ensures { OnOk result (string_bytes text.new ≡ string_bytes text.old
        ++ flat_map (file_line files.now.paths) files.now.file_indices) }
{
    for index in 0..files.block_count() {
        write_row_at(text, files, index)?;
    }
    Ok(())
}

/// The row of the block at an index.
#[tactic(auto, using(crate::proofs::WriteLemmas::with_part, crate::proofs::WriteLemmas::without_part))]
fn write_row_at(text: &mut String, files: &Files, index: usize) -> Result<(), AllocError>
    ensures { OnOk result (string_bytes text.new ≡ string_bytes text.old
        ++ flat_map (file_line files.now.paths) (option_to_list (slice_get files.now.file_indices index))) }
{
    match files.get(index) {
        Some((block, found)) => write_block(text, files, block, found),
        None => Ok(()),
    }
}

/// The row of a block with its file.
#[tactic(auto, using(crate::proofs::WriteLemmas::without_text))]
fn write_block(
    text: &mut String,
    files: &Files,
    block: BlockId,
    found: FileIndex,
) -> Result<(), AllocError>
    ensures { OnOk result (string_bytes text.new ≡ string_bytes text.old
        ++ file_line files.now.paths (block, found)) }
{
    match files.path(found.file) {
        Some(path) => write_row(text, path, found.index, block),
        None => Ok(()),
    }
}

#[tactic(auto, unfolding(crate::specs::FileTables::row_text))]
fn write_row(text: &mut String, path: &str, index: u64, block: BlockId) -> Result<(), AllocError>
    ensures { OnOk result (string_bytes text.new ≡ string_bytes text.old
        ++ row_text block index path.now) }
{
    let number = block.0;
    write!(text, "{path}\t{index}\t{number}\n")
}
