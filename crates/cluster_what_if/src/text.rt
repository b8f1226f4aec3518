// The answer as text: a line for each fact.
ghost use Rattle.std.specs.Prelude.{◌≡◌, ◌++◌, [], OnOk, nat_le, option_map, option_copied, string_bytes, flat_map};
ghost use Rattle.cluster_names.specs.Rows.{shown, name_or_number};
ghost use Rattle.cluster_what_if.specs.Text.{node_words, node_line, storage_line, lost_text, change_line, levels_text, end_with, block_line, blocks_text, files_text, yes_or_no, fits_line, copies_text, answer_text};

use crate::answers::Answer;
use bm_base::{BlockId, NodeId, Rack, StorageId};
use cluster_input::loaded_cluster::Loaded;
use cluster_losses::cluster_counts::ClusterCounts;
use cluster_losses::loss_events::Lost;
use cluster_names::{Files, Names};
use cluster_pages::files_at_risk::FileRow;
use cluster_pages::text::first_of;
use cluster_pages::text_parts::write_files;
use cluster_report::levels::LevelCounts;
use cluster_report::text_parts::write_count;
use std::alloc::AllocError;

/// The lost nodes and storages, as they are before the loss.
#[tactic(auto, unfolding(crate::specs::Text::lost_text))]
pub fn write_lost(text: &mut String, loaded: &Loaded, lost: &Lost) -> Result<(), AllocError>
    ensures { OnOk result (string_bytes text.new ≡ string_bytes text.old
        ++ lost_text loaded.now.names loaded.now.session.book.topology.cluster lost.now) }
{
    write_nodes(text, "drain", loaded, lost.drained.as_slice())?;
    write_storages(text, &loaded.names, lost.storages.as_slice())?;
    write_nodes(text, "lose", loaded, lost.nodes.as_slice())
}

fn write_storages(
    text: &mut String,
    names: &Names,
    storages: &[StorageId],
) -> Result<(), AllocError>
    ensures { OnOk result (string_bytes text.new ≡ string_bytes text.old
        ++ flat_map (storage_line names.now) storages.now) }
{
    for storage in storages {
        write_storage_line(text, names, *storage)?;
    }
    Ok(())
}

#[tactic(auto, unfolding(crate::specs::Text::storage_line))]
fn write_storage_line(
    text: &mut String,
    names: &Names,
    storage: StorageId,
) -> Result<(), AllocError>
    ensures { OnOk result (string_bytes text.new ≡ string_bytes text.old
        ++ storage_line names.now storage) }
{
    text.push_str("lose storage ")?;
    write_storage(text, names, storage)?;
    text.push_str("\n")
}

fn write_nodes(
    text: &mut String,
    what: &str,
    loaded: &Loaded,
    nodes: &[NodeId],
) -> Result<(), AllocError>
    ensures { OnOk result (string_bytes text.new ≡ string_bytes text.old
        ++ flat_map (node_line what.now loaded.now.names
        loaded.now.session.book.topology.cluster) nodes.now) }
{
    for node in nodes {
        let rack = loaded.session.book.rack_of(*node);
        write_node_line(text, what, &loaded.names, *node, rack)?;
    }
    Ok(())
}

#[tactic(auto, unfolding(crate::specs::Text::node_words))]
fn write_node_line(
    text: &mut String,
    what: &str,
    names: &Names,
    node: NodeId,
    rack: Rack,
) -> Result<(), AllocError>
    ensures { OnOk result (string_bytes text.new ≡ string_bytes text.old
        ++ node_words what.now names.now node rack) }
{
    write!(text, "{what} node ")?;
    write_name(text, names.host(node), node.0)?;
    text.push_str(" rack ")?;
    write_name(text, names.rack(rack), rack.0)?;
    text.push_str("\n")
}

/// The name of a node, or its number.
pub fn write_node(text: &mut String, names: &Names, node: NodeId) -> Result<(), AllocError>
    ensures { OnOk result (string_bytes text.new ≡ string_bytes text.old
        ++ name_or_number [] names.now.nodes node) }
{
    write_name(text, names.host(node), node.0)
}

/// The name of a rack, or its number.
pub fn write_rack(text: &mut String, names: &Names, rack: Rack) -> Result<(), AllocError>
    ensures { OnOk result (string_bytes text.new ≡ string_bytes text.old
        ++ name_or_number [] names.now.racks rack) }
{
    write_name(text, names.rack(rack), rack.0)
}

/// The name of a storage, or its number.
fn write_storage(text: &mut String, names: &Names, storage: StorageId) -> Result<(), AllocError>
    ensures { OnOk result (string_bytes text.new ≡ string_bytes text.old
        ++ name_or_number [] names.now.storages storage) }
{
    write_name(text, names.storage(storage), storage.0)
}

/// A name, or the number of what has none.
fn write_name(text: &mut String, name: Option<&str>, number: u32) -> Result<(), AllocError>
    ensures { OnOk result (string_bytes text.new ≡ string_bytes text.old
        ++ shown (option_copied name.entry) [] number) }
{
    match name {
        Some(name) => text.push_str(name),
        None => write!(text, "{number}"),
    }
}

/// The blocks before and after, the lost blocks, and the bytes to copy.
#[tactic(auto, unfolding(crate::specs::Text::answer_text))]
pub fn write_answer(
    text: &mut String,
    files: &Files,
    most: usize,
    answer: &Answer,
) -> Result<(), AllocError>
    ensures { OnOk result (string_bytes text.new ≡ string_bytes text.old
        ++ answer_text files.now most answer.now) }
{
    let after = &answer.without.after;
    write_levels(text, &answer.before.levels, &after.levels)?;
    write_lost_files(text, files, most, answer.risk.lost.as_slice())?;
    write_lost_blocks(text, files, most, answer.without.lost.as_slice())?;
    write_copies(text, after)
}

#[tactic(auto, unfolding(crate::specs::Text::levels_text))]
fn write_levels(
    text: &mut String,
    before: &LevelCounts,
    after: &LevelCounts,
) -> Result<(), AllocError>
    ensures { OnOk result (string_bytes text.new ≡ string_bytes text.old
        ++ levels_text before.now after.now) }
{
    write_change(text, "level highest", before.highest, after.highest)?;
    write_change(
        text,
        "level very_under_replicated",
        before.very_under_replicated,
        after.very_under_replicated,
    )?;
    write_change(
        text,
        "level under_replicated",
        before.under_replicated,
        after.under_replicated,
    )?;
    write_change(
        text,
        "level badly_distributed",
        before.badly_distributed,
        after.badly_distributed,
    )?;
    write_change(text, "level missing", before.missing, after.missing)?;
    write_change(text, "level none", before.none, after.none)
}

#[tactic(auto, unfolding(crate::specs::Text::change_line))]
fn write_change(
    text: &mut String,
    what: &str,
    before: usize,
    after: usize,
) -> Result<(), AllocError>
    ensures { OnOk result (string_bytes text.new ≡ string_bytes text.old
        ++ change_line what.now before after) }
{
    write!(text, "{what} before {before} after {after}\n")
}

/// How many files are lost, and the first of them.
#[tactic(auto, unfolding(crate::specs::Text::files_text))]
fn write_lost_files(
    text: &mut String,
    files: &Files,
    most: usize,
    rows: &[FileRow],
) -> Result<(), AllocError>
    ensures { OnOk result (string_bytes text.new ≡ string_bytes text.old
        ++ files_text files.now most rows.now) }
{
    if files.file_count() == 0 {
        return Ok(());
    }
    write_count(text, "lost files", rows.len() as u128)?;
    write_files(text, "lost file", files, first_of(rows, most))
}

/// How many blocks are lost, and the first of them.
#[tactic(auto, unfolding(crate::specs::Text::blocks_text))]
fn write_lost_blocks(
    text: &mut String,
    files: &Files,
    most: usize,
    lost: &[BlockId],
) -> Result<(), AllocError>
    ensures { OnOk result (string_bytes text.new ≡ string_bytes text.old
        ++ blocks_text files.now most lost.now) }
{
    write_count(text, "lost blocks", lost.len() as u128)?;
    write_blocks(text, files, first_of(lost, most))
}

fn write_blocks(text: &mut String, files: &Files, blocks: &[BlockId]) -> Result<(), AllocError>
    ensures { OnOk result (string_bytes text.new ≡ string_bytes text.old
        ++ flat_map (block_line files.now) blocks.now) }
{
    for block in blocks {
        write_block(text, files, *block)?;
    }
    Ok(())
}

#[tactic(auto, unfolding(crate::specs::Text::block_line))]
fn write_block(text: &mut String, files: &Files, block: BlockId) -> Result<(), AllocError>
    ensures { OnOk result (string_bytes text.new ≡ string_bytes text.old
        ++ block_line files.now block) }
{
    let number = block.0;
    write!(text, "lost block {number}")?;
    write_end(text, files.path_of(block))
}

/// The end of a line: the file of a block, if it is known, and the index of the block there.
pub fn write_end(text: &mut String, place: Option<(&str, u64)>) -> Result<(), AllocError>
    ensures { OnOk result (string_bytes text.new ≡ string_bytes text.old
        ++ end_with (option_map (λ p. (p.0.now, p.1)) place.entry)) }
{
    match place {
        Some((path, index)) => write!(text, " index {index} file {path}\n"),
        None => text.push_str("\n"),
    }
}

/// The bytes to copy, and whether they fit.
#[tactic(auto, unfolding(crate::specs::Text::copies_text))]
fn write_copies(text: &mut String, after: &ClusterCounts) -> Result<(), AllocError>
    ensures { OnOk result (string_bytes text.new ≡ string_bytes text.old
        ++ copies_text after.now) }
{
    write_count(text, "bytes to copy", after.lacking)?;
    write_count(text, "free bytes", after.free)?;
    write_fits(text, after)
}

#[tactic(auto, unfolding(crate::specs::Text::fits_line))]
fn write_fits(text: &mut String, after: &ClusterCounts) -> Result<(), AllocError>
    ensures { OnOk result (string_bytes text.new ≡ string_bytes text.old ++ fits_line after.now) }
{
    let fits = fits_word(after);
    write!(text, "free bytes suffice {fits}\n")
}

/// Whether the bytes to copy are at most the free bytes.
pub fn fits_word(after: &ClusterCounts) -> &'static str
    ensures { result.now ≡ yes_or_no (nat_le after.now.lacking after.now.free) }
{
    if after.lacking <= after.free {
        "yes"
    } else {
        "no"
    }
}
