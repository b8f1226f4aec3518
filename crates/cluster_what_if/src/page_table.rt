// The page of a table: a row for each rack or node that is lost alone.
use crate::findings::Table;
use crate::page::write_part;
use crate::table::kind_word;
use crate::text::fits_word;
use bm_base::{NodeId, Rack};
use cluster_losses::cluster_counts::ClusterCounts;
use cluster_losses::loss::Kind;
use cluster_losses::single_losses::Row;
use cluster_names::{Files, Names};
use cluster_pages::page_frame::write_head;
use cluster_pages::page_parts::{
    begin_table, end_table, write_bar_cell, write_bytes, write_cell, write_host, write_number_cell,
    write_rack,
};
use cluster_pages::text_parts::thousandths;
use cluster_report::levels::LevelCounts;
use std::alloc::{AllocError, Global};

const FIRST_HEADS: &str =
    "<th></th><th class=\"n\">nodes</th><th class=\"n\">lost blocks</th><th></th>";

const FILES_HEAD: &str = "<th class=\"n\">lost files</th>";

const OTHER_HEADS: &str = "<th class=\"n\">highest</th><th class=\"n\">very under-replicated</th>\
<th class=\"n\">under-replicated</th><th class=\"n\">badly distributed</th>\
<th class=\"n\">bytes to copy</th><th></th><th class=\"n\">free bytes</th><th>suffice</th>";

/// The greatest numbers of all rows, to which the bars are scaled.
#[derive(Clone, Copy)]
struct Greatest {
    lost: u128,
    lacking: u128,
}

/// The page but for its end.
pub fn write_table_page(
    alloc: Global,
    text: &mut String,
    names: &Names,
    files: &Files,
    table: &Table,
) -> Result<(), AllocError> {
    let what = kind_word(table.kind);
    let title = format!(in alloc; "What if a {what} is lost")?;
    write_head(text, title.as_str())?;
    let has_files = files.file_count() > 0;
    let files_head = if has_files { FILES_HEAD } else { "" };
    let heads = format!(in alloc; "{FIRST_HEADS}{files_head}{OTHER_HEADS}")?;
    begin_table(text, "Each alone, the worst first", heads.as_str())?;
    let rows = table.rows.as_slice();
    let greatest = greatest_of(rows);
    for row in rows {
        write_row(text, names, has_files, table.kind, greatest, row)?;
    }
    end_table(text)?;
    text.push_str("<p class=\"none\">Bars are parts of the greatest row.</p>\n")
}

fn greatest_of(rows: &[Row]) -> Greatest {
    let mut greatest = Greatest {
        lost: 0,
        lacking: 0,
    };
    for row in rows {
        greatest.lost = greatest.lost.max(row.without.lost.len() as u128);
        greatest.lacking = greatest.lacking.max(row.without.after.lacking);
    }
    greatest
}

fn write_row(
    text: &mut String,
    names: &Names,
    has_files: bool,
    kind: Kind,
    greatest: Greatest,
    row: &Row,
) -> Result<(), AllocError> {
    text.push_str("<tr><td>")?;
    match kind {
        Kind::Rack => write_rack(text, names, Rack(row.number))?,
        _ => write_host(text, names, NodeId(row.number))?,
    }
    text.push_str("</td>")?;
    write_number_cell(text, row.nodes as u128)?;
    write_part(text, row.without.lost.len() as u128, greatest.lost, true)?;
    if has_files {
        write_number_cell(text, row.lost_files as u128)?;
    }
    write_level_cells(text, &row.without.after.levels)?;
    write_needs(text, &row.without.after, greatest.lacking)?;
    text.push_str("</tr>\n")
}

/// The blocks at each of the first four levels.
pub fn write_level_cells(text: &mut String, levels: &LevelCounts) -> Result<(), AllocError> {
    write_number_cell(text, levels.highest as u128)?;
    write_number_cell(text, levels.very_under_replicated as u128)?;
    write_number_cell(text, levels.under_replicated as u128)?;
    write_number_cell(text, levels.badly_distributed as u128)
}

/// The bytes to copy with a bar of them, the free bytes, and whether these suffice.
fn write_needs(text: &mut String, after: &ClusterCounts, most: u128) -> Result<(), AllocError> {
    text.push_str("<td class=\"n\">")?;
    write_bytes(text, after.lacking)?;
    text.push_str("</td>")?;
    write_bar_cell(text, thousandths(after.lacking, most), false)?;
    text.push_str("<td class=\"n\">")?;
    write_bytes(text, after.free)?;
    text.push_str("</td>")?;
    write_cell(text, fits_word(after))
}
