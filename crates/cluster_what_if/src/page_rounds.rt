// The part of a page about the repair.
use crate::findings::Mended;
use crate::page::write_bytes_fact;
use crate::page_table::write_level_cells;
use crate::repair_picture::picture_of;
use crate::repair_text::{count_with, reason_word};
use crate::shown_rows::shown_rows;
use bm_base::NodeId;
use cluster_names::{Files, Names};
use cluster_pages::page_parts::{
    begin_table, end_table, write_cell, write_fact, write_host, write_number_cell, write_place,
    write_rest,
};
use cluster_pages::text::first_of;
use cluster_pages::text_parts::level_word;
use cluster_repair::links::MICROS;
use cluster_repair::reasons::{Reason, Unmended};
use cluster_repair::repair::{Pace, Repair, retirement_of};
use cluster_repair::rows::Row;
use std::alloc::{AllocError, Global};

/// The rounds, all copies, and the blocks that stay unrepaired.
pub fn write_mended_facts(text: &mut String, mended: &Mended) -> Result<(), AllocError> {
    let datanodes = &mended.repair.datanodes;
    let seconds = datanodes.last_arrival.div_ceil(MICROS);
    write_fact(text, "rounds", u128::from(mended.repair.rounds))?;
    write_fact(text, "seconds", u128::from(seconds))?;
    write_fact(text, "copies", u128::from(datanodes.copies))?;
    write_bytes_fact(text, "bytes copied", datanodes.bytes)?;
    write_fact(text, "unmended blocks", mended.unmended.len() as u128)
}

/// The picture and the table of the rounds, when drained nodes can be switched off, and the blocks
/// that stay unrepaired.
pub fn write_mended(
    alloc: Global,
    text: &mut String,
    names: &Names,
    files: &Files,
    most: usize,
    mended: &Mended,
) -> Result<(), AllocError> {
    let repair = &mended.repair;
    write_model(text, mended.pace)?;
    text.push_str("<div class=\"picture\">\n")?;
    text.push_str(picture_of(alloc, mended)?.as_str())?;
    text.push_str("</div>\n")?;
    write_left(text, repair.datanodes.on_way.sent.len())?;
    write_rounds(alloc, text, repair.rows.rows.as_slice())?;
    write_retirements(text, names, repair)?;
    write_unmended(text, files, most, mended.unmended.as_slice())
}

fn write_model(text: &mut String, pace: Pace) -> Result<(), AllocError> {
    let interval = pace.interval;
    let bandwidth = pace.bandwidth;
    text.push_str("<h2>How it is repaired</h2>\n")?;
    write!(
        text,
        "<p>By a model: a round at most every {interval} s; each node sends and receives \
         {bandwidth} bytes a second.</p>\n"
    )
}

fn write_left(text: &mut String, left: usize) -> Result<(), AllocError> {
    if left == 0 {
        return Ok(());
    }
    write!(text, "<p>Stopped with {left} copies on their way.</p>\n")
}

const ROUND_HEADS: &str = "<th class=\"n\">round</th><th class=\"n\">seconds</th>\
<th class=\"n\">highest</th><th class=\"n\">very under-replicated</th>\
<th class=\"n\">under-replicated</th><th class=\"n\">badly distributed</th>\
<th class=\"n\">missing</th><th class=\"n\">commanded</th><th class=\"n\">on their way</th>";

/// The rows of rounds, in a part of the page that opens on demand.
fn write_rounds(alloc: Global, text: &mut String, rows: &[Row]) -> Result<(), AllocError> {
    text.push_str("<details><summary>Table of the rounds</summary>\n")?;
    begin_table(text, "Rounds", ROUND_HEADS)?;
    let shown = shown_rows(alloc, rows)?;
    for row in &shown {
        write_round(text, row)?;
    }
    end_table(text)?;
    text.push_str("</details>\n")
}

fn write_round(text: &mut String, row: &Row) -> Result<(), AllocError> {
    text.push_str("<tr>")?;
    write_number_cell(text, u128::from(row.round))?;
    write_number_cell(text, u128::from(row.seconds))?;
    write_level_cells(text, &row.levels)?;
    write_number_cell(text, row.levels.missing as u128)?;
    write_number_cell(text, row.commanded as u128)?;
    write_number_cell(text, row.on_way as u128)?;
    text.push_str("</tr>\n")
}

/// When each drained node can be switched off; nothing if none drains.
fn write_retirements(text: &mut String, names: &Names, repair: &Repair) -> Result<(), AllocError> {
    if repair.drained.is_empty() {
        return Ok(());
    }
    begin_table(
        text,
        "When drained nodes can be switched off",
        "<th>node</th><th>when</th>",
    )?;
    for node in &repair.drained {
        text.push_str("<tr><td>")?;
        write_host(text, names, *node)?;
        text.push_str("</td><td>")?;
        write_when(text, repair, *node)?;
        text.push_str("</td></tr>\n")?;
    }
    end_table(text)
}

fn write_when(text: &mut String, repair: &Repair, node: NodeId) -> Result<(), AllocError> {
    match retirement_of(repair.retired.as_slice(), node) {
        Some(retirement) => {
            let rounds = retirement.rounds;
            let seconds = retirement.seconds;
            write!(text, "retired after {rounds} rounds, {seconds} seconds")
        }
        None => text.push_str("not retired"),
    }
}

/// The blocks that stay unrepaired: how many for each reason, and the first of them.
fn write_unmended(
    text: &mut String,
    files: &Files,
    most: usize,
    unmended: &[Unmended],
) -> Result<(), AllocError> {
    begin_table(
        text,
        "Blocks that stay as they are",
        "<th class=\"n\">block</th><th>level</th><th>why</th><th>file</th>",
    )?;
    for one in first_of(unmended, most) {
        write_unmended_row(text, files, one)?;
    }
    end_table(text)?;
    write_rest(text, unmended.len(), most)?;
    write_reasons(text, unmended)
}

fn write_unmended_row(text: &mut String, files: &Files, one: &Unmended) -> Result<(), AllocError> {
    text.push_str("<tr>")?;
    write_number_cell(text, u128::from(one.block.0))?;
    write_cell(text, level_word(one.level))?;
    write_cell(text, reason_word(one.reason))?;
    write_place(text, files, one.block)?;
    text.push_str("</tr>\n")
}

fn write_reasons(text: &mut String, unmended: &[Unmended]) -> Result<(), AllocError> {
    if unmended.is_empty() {
        return Ok(());
    }
    text.push_str("<dl>\n")?;
    write_fact(
        text,
        "no source",
        count_with(unmended, Reason::NoSource) as u128,
    )?;
    write_fact(
        text,
        "no target",
        count_with(unmended, Reason::NoTarget) as u128,
    )?;
    write_fact(
        text,
        "no space",
        count_with(unmended, Reason::NoSpace) as u128,
    )?;
    text.push_str("</dl>\n")
}
