// The findings as one self-contained page with tables, bars and a picture.
use crate::answers::Answer;
use crate::findings::{Findings, Losses};
use crate::page_rounds::{write_mended, write_mended_facts};
use crate::page_table::write_table_page;
use crate::text::fits_word;
use bm_base::BlockId;
use cluster_losses::cluster_counts::ClusterCounts;
use cluster_names::{Files, Names};
use cluster_pages::page_frame::{write_foot, write_head};
use cluster_pages::page_parts::{
    begin_table, end_table, write_bar_cell, write_bytes, write_escaped, write_fact,
    write_file_table, write_number_cell, write_place, write_rest,
};
use cluster_pages::text::{all_blocks, first_of};
use cluster_pages::text_parts::thousandths;
use cluster_report::levels::LevelCounts;
use std::alloc::{AllocError, Global};

/// The page of the findings, with at most `most` blocks and files of each list.
pub fn found_page(
    alloc: Global,
    names: &Names,
    files: &Files,
    most: usize,
    found: &Findings,
) -> Result<String, AllocError> {
    let mut text = String::new(alloc);
    match found {
        Findings::Losses(losses) => write_losses(alloc, &mut text, names, files, most, losses)?,
        Findings::Table(table) => write_table_page(alloc, &mut text, names, files, table)?,
    }
    write_foot(&mut text)?;
    Ok(text)
}

fn write_losses(
    alloc: Global,
    text: &mut String,
    names: &Names,
    files: &Files,
    most: usize,
    losses: &Losses,
) -> Result<(), AllocError> {
    let answer = &losses.answer;
    write_head(text, "What if")?;
    write_named(text, losses.named.as_str())?;
    write_facts(text, files, losses)?;
    write_levels(text, &answer.before.levels, &answer.without.after.levels)?;
    write_lists(text, files, most, answer)?;
    if let Some(mended) = &losses.mended {
        write_mended(alloc, text, names, files, most, mended)?;
    }
    Ok(())
}

/// The lost and drained nodes and storages: an item for each line.
fn write_named(text: &mut String, named: &str) -> Result<(), AllocError> {
    text.push_str("<ul>\n")?;
    for line in named.lines() {
        text.push_str("<li>")?;
        write_escaped(text, line)?;
        text.push_str("</li>\n")?;
    }
    text.push_str("</ul>\n")
}

/// The numbers that come first on the page.
fn write_facts(text: &mut String, files: &Files, losses: &Losses) -> Result<(), AllocError> {
    let answer = &losses.answer;
    text.push_str("<h2>In short</h2>\n<dl>\n")?;
    write_fact(text, "lost blocks", answer.without.lost.len() as u128)?;
    if files.file_count() > 0 {
        write_fact(text, "lost files", answer.risk.lost.len() as u128)?;
    }
    write_needs(text, &answer.without.after)?;
    if let Some(mended) = &losses.mended {
        write_mended_facts(text, mended)?;
    }
    text.push_str("</dl>\n")
}

/// The bytes to copy, the free bytes, and whether these suffice.
fn write_needs(text: &mut String, after: &ClusterCounts) -> Result<(), AllocError> {
    write_bytes_fact(text, "bytes to copy", after.lacking)?;
    write_bytes_fact(text, "free bytes", after.free)?;
    let fits = fits_word(after);
    write!(
        text,
        "<div><dt>free bytes suffice</dt><dd>{fits}</dd></div>\n"
    )
}

/// Bytes within a list of facts: in the greatest unit, and exactly.
pub fn write_bytes_fact(text: &mut String, what: &str, bytes: u128) -> Result<(), AllocError> {
    write!(text, "<div><dt>{what}</dt><dd>")?;
    write_bytes(text, bytes)?;
    write!(text, "<small>{bytes}</small></dd></div>\n")
}

const LEVEL_HEADS: &str = "<th></th><th class=\"n\">before</th><th></th>\
<th class=\"n\">after</th><th></th>";

/// The blocks at each level before and after. Bars are parts of all blocks.
fn write_levels(
    text: &mut String,
    before: &LevelCounts,
    after: &LevelCounts,
) -> Result<(), AllocError> {
    let (old, new) = (all_blocks(before), all_blocks(after));
    begin_table(text, "Blocks by level, before and after", LEVEL_HEADS)?;
    begin_level(text, "missing", before.missing, old, true)?;
    end_level(text, after.missing, new, true)?;
    begin_level(text, "highest", before.highest, old, true)?;
    end_level(text, after.highest, new, true)?;
    begin_level(
        text,
        "very under-replicated",
        before.very_under_replicated,
        old,
        false,
    )?;
    end_level(text, after.very_under_replicated, new, false)?;
    begin_level(
        text,
        "under-replicated",
        before.under_replicated,
        old,
        false,
    )?;
    end_level(text, after.under_replicated, new, false)?;
    begin_level(
        text,
        "badly distributed",
        before.badly_distributed,
        old,
        false,
    )?;
    end_level(text, after.badly_distributed, new, false)?;
    begin_level(text, "none: enough replicas", before.none, old, false)?;
    end_level(text, after.none, new, false)?;
    end_table(text)
}

fn begin_level(
    text: &mut String,
    what: &str,
    before: usize,
    all: u128,
    is_bad: bool,
) -> Result<(), AllocError> {
    write!(text, "<tr><td>{what}</td>")?;
    write_part(text, before as u128, all, is_bad)
}

fn end_level(text: &mut String, after: usize, all: u128, is_bad: bool) -> Result<(), AllocError> {
    write_part(text, after as u128, all, is_bad)?;
    text.push_str("</tr>\n")
}

/// A number, and its part of a total as a bar.
pub fn write_part(
    text: &mut String,
    part: u128,
    total: u128,
    is_bad: bool,
) -> Result<(), AllocError> {
    write_number_cell(text, part)?;
    write_bar_cell(text, thousandths(part, total), is_bad)
}

/// The lost files, if files are known, and the lost blocks.
fn write_lists(
    text: &mut String,
    files: &Files,
    most: usize,
    answer: &Answer,
) -> Result<(), AllocError> {
    if files.file_count() > 0 {
        write_file_table(text, "Lost files", files, most, answer.risk.lost.as_slice())?;
    }
    write_lost_blocks(text, files, most, answer.without.lost.as_slice())
}

fn write_lost_blocks(
    text: &mut String,
    files: &Files,
    most: usize,
    blocks: &[BlockId],
) -> Result<(), AllocError> {
    begin_table(
        text,
        "Lost blocks",
        "<th class=\"n\">block</th><th>file</th>",
    )?;
    for block in first_of(blocks, most) {
        text.push_str("<tr>")?;
        write_number_cell(text, u128::from(block.0))?;
        write_place(text, files, *block)?;
        text.push_str("</tr>\n")?;
    }
    end_table(text)?;
    write_rest(text, blocks.len(), most)
}
