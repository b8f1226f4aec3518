// The lines of a report.
ghost use Rattle.std.specs.Prelude.{◌≡◌, ◌++◌, [], Some, slice_get, OnOk, option_copied, option_map, string_bytes, sum_by, flat_map};
ghost use Rattle.bm_base.specs.Words.{option_map_or};
ghost use Rattle.cluster_names.specs.Rows.{shown};
ghost use Rattle.cluster_pages.specs.Text.{amount_line, total_line, share, thousandths, bytes_on, state_word, level_word, held_text, place_text, use_text, node_line, storage_line, node_text, end_with, missing_line, urgent_line, urgent_text, file_line};

use crate::files_at_risk::FileRow;
use bm_base::{BlockId, Level};
use cluster_names::{Files, Names};
use cluster_report::levels::Leveled;
use cluster_report::nodes::{NodeRow, NodeState, StorageRow};
use std::alloc::AllocError;

/// A count, its bytes, and its part of the total.
#[tactic(auto, unfolding(crate::specs::Text::amount_line))]
pub fn write_amount(
    text: &mut String,
    what: &str,
    count: usize,
    bytes: u128,
    total: u128,
) -> Result<(), AllocError>
    ensures { OnOk result (string_bytes text.new ≡ string_bytes text.old
        ++ amount_line what.now count bytes total) }
{
    write!(text, "{what} {count} bytes {bytes} ")?;
    write_share(text, count as u128, total)?;
    text.push_str("\n")
}

/// A total and its bytes.
#[tactic(auto, unfolding(crate::specs::Text::total_line))]
pub fn write_total(
    text: &mut String,
    what: &str,
    count: u128,
    bytes: u128,
) -> Result<(), AllocError>
    ensures { OnOk result (string_bytes text.new ≡ string_bytes text.old
        ++ total_line what.now count bytes) }
{
    write!(text, "{what} {count} bytes {bytes}\n")
}

/// A part of a total in per cent, with one decimal.
pub fn write_share(text: &mut String, count: u128, total: u128) -> Result<(), AllocError>
    ensures { OnOk result (string_bytes text.new ≡ string_bytes text.old ++ share count total) }
{
    let thousandths = thousandths(count, total);
    let whole = thousandths / 10;
    let tenth = thousandths % 10;
    write!(text, "{whole}.{tenth}%")
}

/// A part of a total in thousandths, rounded down; 0 if the total is 0.
pub fn thousandths(count: u128, total: u128) -> u128
    ensures { result ≡ thousandths count total }
{
    count.saturating_mul(1000) / total.max(1)
}

/// Appends a line for each node and for each of its storages; `all` is the number of all replicas.
pub fn write_nodes(
    text: &mut String,
    names: &Names,
    all: u128,
    nodes: &[NodeRow],
) -> Result<(), AllocError>
    ensures { OnOk result (string_bytes text.new ≡ string_bytes text.old
        ++ flat_map (node_text names.now all) nodes.now) }
{
    for node in nodes {
        write_node(text, names, all, node)?;
    }
    Ok(())
}

/// A node, and then its storages.
#[tactic(auto, unfolding(crate::specs::Text::node_text))]
fn write_node(text: &mut String, names: &Names, all: u128, row: &NodeRow) -> Result<(), AllocError>
    ensures { OnOk result (string_bytes text.new ≡ string_bytes text.old
        ++ node_text names.now all row.now) }
{
    write_node_line(text, names, all, row)?;
    write_storages(text, names, all, row.storages.as_slice())
}

#[tactic(auto, unfolding(crate::specs::Text::node_line))]
fn write_node_line(
    text: &mut String,
    names: &Names,
    all: u128,
    row: &NodeRow,
) -> Result<(), AllocError>
    ensures { OnOk result (string_bytes text.new ≡ string_bytes text.old
        ++ node_line names.now all row.now) }
{
    let storages = row.storages.as_slice();
    write_place(text, names, row)?;
    write_use(text, row)?;
    write_held(
        text,
        all,
        replicas_on(storages),
        bytes_on(storages),
        remaining_on(storages),
    )
}

/// A node and its rack.
#[tactic(auto, unfolding(crate::specs::Text::place_text))]
fn write_place(text: &mut String, names: &Names, row: &NodeRow) -> Result<(), AllocError>
    ensures { OnOk result (string_bytes text.new ≡ string_bytes text.old
        ++ place_text names.now row.now) }
{
    text.push_str("node ")?;
    write_name(text, names.host(row.node), row.node.0)?;
    text.push_str(" rack ")?;
    write_name(text, names.rack(row.rack), row.rack.0)
}

/// The state of a node, and its number of storages.
#[tactic(auto, unfolding(crate::specs::Text::use_text))]
fn write_use(text: &mut String, row: &NodeRow) -> Result<(), AllocError>
    ensures { OnOk result (string_bytes text.new ≡ string_bytes text.old ++ use_text row.now) }
{
    let state = state_word(row.state);
    let count = row.storages.as_slice().len();
    write!(text, " {state} storages {count}")
}

/// A name, or the number if there is none.
fn write_name(text: &mut String, name: Option<&str>, number: u32) -> Result<(), AllocError>
    ensures { OnOk result (string_bytes text.new ≡ string_bytes text.old
        ++ shown (option_copied name.entry) [] number) }
{
    match name {
        Some(name) => text.push_str(name),
        None => write!(text, "{number}"),
    }
}

/// The replicas, their bytes and their part of all replicas, and the free bytes.
#[tactic(auto, unfolding(crate::specs::Text::held_text))]
fn write_held(
    text: &mut String,
    all: u128,
    replicas: u128,
    bytes: u128,
    remaining: u128,
) -> Result<(), AllocError>
    ensures { OnOk result (string_bytes text.new ≡ string_bytes text.old
        ++ held_text all replicas bytes remaining) }
{
    write!(text, " replicas {replicas} bytes {bytes} ")?;
    write_share(text, replicas, all)?;
    write!(text, " remaining {remaining}\n")
}

/// Returns the word for a node's state.
pub fn state_word(state: NodeState) -> &'static str
    ensures { result.now ≡ state_word state }
{
    match state {
        NodeState::Live => "live",
        NodeState::Draining => "draining",
        NodeState::Retired => "retired",
    }
}

/// The number of replicas on these storages.
pub fn replicas_on(rows: &[StorageRow]) -> u128
    ensures { result ≡ sum_by (λ s. s.replicas) rows.now }
{
    let mut total = 0u128;
    for row in rows {
        total += row.replicas as u128;
    }
    total
}

/// The bytes of the blocks of these replicas.
pub fn bytes_on(rows: &[StorageRow]) -> u128
    ensures { result ≡ bytes_on rows.now }
{
    let mut total = 0u128;
    for row in rows {
        total = total.saturating_add(row.bytes);
    }
    total
}

/// The free bytes on these storages.
pub fn remaining_on(rows: &[StorageRow]) -> u128
    ensures { result ≡ sum_by (λ s. s.remaining) rows.now }
{
    let mut total = 0u128;
    for row in rows {
        total += u128::from(row.remaining);
    }
    total
}

fn write_storages(
    text: &mut String,
    names: &Names,
    all: u128,
    rows: &[StorageRow],
) -> Result<(), AllocError>
    ensures { OnOk result (string_bytes text.new ≡ string_bytes text.old
        ++ flat_map (storage_line names.now all) rows.now) }
{
    for row in rows {
        write_storage_line(text, names, all, row)?;
    }
    Ok(())
}

#[tactic(auto, unfolding(crate::specs::Text::storage_line))]
fn write_storage_line(
    text: &mut String,
    names: &Names,
    all: u128,
    row: &StorageRow,
) -> Result<(), AllocError>
    ensures { OnOk result (string_bytes text.new ≡ string_bytes text.old
        ++ storage_line names.now all row.now) }
{
    text.push_str("storage ")?;
    write_name(text, names.storage(row.storage), row.storage.0)?;
    write_held(
        text,
        all,
        row.replicas as u128,
        row.bytes,
        u128::from(row.remaining),
    )
}

/// Appends a line for each missing block, with its file if that is known.
pub fn write_missing(text: &mut String, files: &Files, blocks: &[BlockId]) -> Result<(), AllocError>
    ensures { OnOk result (string_bytes text.new ≡ string_bytes text.old
        ++ flat_map (missing_line files.now) blocks.now) }
{
    for block in blocks {
        write_missing_line(text, files, *block)?;
    }
    Ok(())
}

#[tactic(auto, unfolding(crate::specs::Text::missing_line))]
fn write_missing_line(text: &mut String, files: &Files, block: BlockId) -> Result<(), AllocError>
    ensures { OnOk result (string_bytes text.new ≡ string_bytes text.old
        ++ missing_line files.now block) }
{
    let number = block.0;
    write!(text, "missing block {number}")?;
    write_end(text, files.path_of(block))
}

/// The end of a line: the file of a block, if it is known, and the index of the block there.
fn write_end(text: &mut String, place: Option<(&str, u64)>) -> Result<(), AllocError>
    ensures { OnOk result (string_bytes text.new ≡ string_bytes text.old
        ++ end_with (option_map (λ p. (p.0.now, p.1)) place.entry)) }
{
    match place {
        Some((path, index)) => write!(text, " index {index} file {path}\n"),
        None => text.push_str("\n"),
    }
}

/// Appends a line for each block that has a level, with its file if that is known.
pub fn write_urgent(text: &mut String, files: &Files, blocks: &[Leveled]) -> Result<(), AllocError>
    ensures { OnOk result (string_bytes text.new ≡ string_bytes text.old
        ++ flat_map (urgent_line files.now) blocks.now) }
{
    for found in blocks {
        write_urgent_line(text, files, found)?;
    }
    Ok(())
}

#[tactic(auto, unfolding(crate::specs::Text::urgent_line))]
fn write_urgent_line(text: &mut String, files: &Files, found: &Leveled) -> Result<(), AllocError>
    ensures { OnOk result (string_bytes text.new ≡ string_bytes text.old
        ++ urgent_line files.now found.now) }
{
    match found.level {
        None => Ok(()),
        Some(level) => write_level_line(text, files, found.block, level),
    }
}

fn write_level_line(
    text: &mut String,
    files: &Files,
    block: BlockId,
    level: Level,
) -> Result<(), AllocError>
    ensures { OnOk result (string_bytes text.new ≡ string_bytes text.old
        ++ urgent_text files.now block (Some level)) }
{
    let number = block.0;
    let urgency = level_word(level);
    write!(text, "urgent block {number} level {urgency}")?;
    write_end(text, files.path_of(block))
}

/// Returns the word for a level.
pub fn level_word(level: Level) -> &'static str
    ensures { result.now ≡ level_word level }
{
    match level {
        Level::Highest => "highest",
        Level::VeryUnderReplicated => "very_under_replicated",
        Level::UnderReplicated => "under_replicated",
        Level::BadlyDistributed => "badly_distributed",
        Level::NoUsableReplica => "missing",
    }
}

/// Appends a line for each file, which begins with `what`.
pub fn write_files(
    text: &mut String,
    what: &str,
    files: &Files,
    rows: &[FileRow],
) -> Result<(), AllocError>
    ensures { OnOk result (string_bytes text.new ≡ string_bytes text.old
        ++ flat_map (file_line what.now files.now) rows.now) }
{
    for row in rows {
        write_file_line(text, what, files, row)?;
    }
    Ok(())
}

#[tactic(auto, unfolding(crate::specs::Text::file_line))]
fn write_file_line(
    text: &mut String,
    what: &str,
    files: &Files,
    row: &FileRow,
) -> Result<(), AllocError>
    ensures { OnOk result (string_bytes text.new ≡ string_bytes text.old
        ++ file_line what.now files.now row.now) }
{
    let blocks = row.blocks;
    let path = path_at(files, row.file);
    write!(text, "{what} blocks {blocks} file {path}\n")
}

/// The path of a file by its index; nothing where there is none.
pub fn path_at(files: &Files, file: usize) -> &str
    ensures { result.now ≡ option_map_or (λ path. path) (slice_get files.now.paths file) [] }
{
    match files.path(file) {
        Some(path) => path,
        None => "",
    }
}
