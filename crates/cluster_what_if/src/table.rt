// The text of a table: a row for each rack or node that is lost alone.
ghost use Rattle.std.specs.Prelude.{◌≡◌, ◌++◌, IfOk, OnOk, string_bytes, flat_map};
ghost use Rattle.cluster_what_if.specs.Table.{kind_word, heading, files_head, end_of_heading, row_name, row_start, files_number, lost_text, needs_text, row_text, table_text};

use crate::columns::{write_level_heads, write_level_numbers};
use crate::findings::Table;
use crate::text::{fits_word, write_node, write_rack};
use bm_base::{NodeId, Rack};
use cluster_input::loaded_cluster::Loaded;
use cluster_losses::applied_losses::Outcome;
use cluster_losses::cluster_counts::ClusterCounts;
use cluster_losses::loss::Kind;
use cluster_losses::single_losses::Row;
use cluster_names::{Files, Names};
use std::alloc::{AllocError, Global};

/// The heading, and a line for each row.
#[tactic(auto, unfolding(crate::specs::Table::table_text))]
pub fn write_table(
    alloc: Global,
    text: &mut String,
    names: &Names,
    files: &Files,
    table: &Table,
) -> Result<(), AllocError>
    ensures { OnOk result (string_bytes text.new ≡ string_bytes text.old
        ++ table_text names.now files.now table.now) }
{
    write_heading(text, files, table.kind)?;
    write_rows(alloc, text, names, files, table.kind, table.rows.as_slice())
}

#[tactic(auto, unfolding(crate::specs::Table::heading))]
fn write_heading(text: &mut String, files: &Files, kind: Kind) -> Result<(), AllocError>
    ensures { OnOk result (string_bytes text.new ≡ string_bytes text.old
        ++ heading files.now kind) }
{
    let what = kind_word(kind);
    write!(text, "{what:<28}  nodes ")?;
    write_files_head(text, files)?;
    write_end_of_heading(text)
}

/// The word above the names of the rows: rack or node.
pub fn kind_word(kind: Kind) -> &'static str
    ensures { result.now ≡ kind_word kind }
{
    match kind {
        Kind::Rack => "rack",
        _ => "node",
    }
}

/// The head of the column of lost files; nothing if no file is known.
fn write_files_head(text: &mut String, files: &Files) -> Result<(), AllocError>
    ensures { OnOk result (string_bytes text.new ≡ string_bytes text.old ++ files_head files.now) }
{
    if files.file_count() == 0 {
        return Ok(());
    }
    text.push_str("lost_files ")
}

#[tactic(auto, unfolding(crate::specs::Table::end_of_heading))]
fn write_end_of_heading(text: &mut String) -> Result<(), AllocError>
    ensures { OnOk result (string_bytes text.new ≡ string_bytes text.old ++ end_of_heading) }
{
    text.push_str("lost_blocks ")?;
    write_level_heads(text)?;
    text.push_str("       bytes_to_copy           free_bytes suffice\n")
}

fn write_rows(
    alloc: Global,
    text: &mut String,
    names: &Names,
    files: &Files,
    kind: Kind,
    rows: &[Row],
) -> Result<(), AllocError>
    ensures { OnOk result (string_bytes text.new ≡ string_bytes text.old
        ++ flat_map (row_text names.now files.now kind) rows.now) }
{
    for row in rows {
        write_row(alloc, text, names, files, kind, row)?;
    }
    Ok(())
}

#[tactic(auto, unfolding(crate::specs::Table::row_text))]
fn write_row(
    alloc: Global,
    text: &mut String,
    names: &Names,
    files: &Files,
    kind: Kind,
    row: &Row,
) -> Result<(), AllocError>
    ensures { OnOk result (string_bytes text.new ≡ string_bytes text.old
        ++ row_text names.now files.now kind row.now) }
{
    write_start(alloc, text, names, kind, row)?;
    write_lost_files(text, files, row.lost_files)?;
    write_lost(text, &row.without)?;
    write_needs(text, &row.without.after)
}

/// The name of a row, and the number of its nodes.
#[tactic(auto, unfolding(crate::specs::Table::row_start))]
fn write_start(
    alloc: Global,
    text: &mut String,
    names: &Names,
    kind: Kind,
    row: &Row,
) -> Result<(), AllocError>
    ensures { OnOk result (string_bytes text.new ≡ string_bytes text.old
        ++ row_start names.now kind row.now) }
{
    let name = name_of(alloc, names, kind, row.number)?;
    let name = name.as_str();
    let nodes = row.nodes;
    write!(text, "{name:<28} {nodes:>6} ")
}

/// The name of a row.
fn name_of(alloc: Global, names: &Names, kind: Kind, number: u32) -> Result<String, AllocError>
    ensures { IfOk result (λ s. string_bytes s ≡ row_name names.now kind number) }
{
    let mut name = String::new(alloc);
    match kind {
        Kind::Rack => write_rack(&mut name, names, Rack(number))?,
        _ => write_node(&mut name, names, NodeId(number))?,
    }
    Ok(name)
}

/// The number of lost files; nothing if no file is known.
fn write_lost_files(text: &mut String, files: &Files, lost: usize) -> Result<(), AllocError>
    ensures { OnOk result (string_bytes text.new ≡ string_bytes text.old
        ++ files_number files.now lost) }
{
    if files.file_count() == 0 {
        return Ok(());
    }
    write!(text, "{lost:>10} ")
}

/// The lost blocks, and the blocks at each level.
#[tactic(auto, unfolding(crate::specs::Table::lost_text))]
fn write_lost(text: &mut String, without: &Outcome) -> Result<(), AllocError>
    ensures { OnOk result (string_bytes text.new ≡ string_bytes text.old
        ++ lost_text without.now) }
{
    let lost = without.lost.len();
    write!(text, "{lost:>11} ")?;
    write_level_numbers(text, &without.after.levels)
}

/// The bytes to copy, the free bytes, and whether these suffice.
#[tactic(auto, unfolding(crate::specs::Table::needs_text))]
fn write_needs(text: &mut String, after: &ClusterCounts) -> Result<(), AllocError>
    ensures { OnOk result (string_bytes text.new ≡ string_bytes text.old ++ needs_text after.now) }
{
    let lacking = after.lacking;
    let free = after.free;
    let fits = fits_word(after);
    write!(text, "{lacking:>20} {free:>20} {fits:>7}\n")
}
