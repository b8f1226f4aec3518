// The report as one self-contained HTML page with tables, bars and a chart.
use crate::chart::write_chart;
use crate::output::ClusterReport;
use crate::page_frame::{write_foot, write_head};
use crate::page_parts::{
    begin_table, end_table, write_amount_row, write_bytes, write_cell, write_escaped, write_fact,
    write_file_table, write_host, write_number_cell, write_place, write_rack, write_rest,
    write_share_cells,
};
use crate::text::{all_blocks, all_replicas, first_of};
use crate::text_parts::{bytes_on, level_word, remaining_on, replicas_on, state_word};
use bm_base::BlockId;
use cluster_input::loaded_cluster::Loaded;
use cluster_names::{Files, Names};
use cluster_report::levels::Leveled;
use cluster_report::nodes::{NodeRow, StorageRow};
use cluster_report::report::Report;
use std::alloc::{AllocError, Global};

/// The page of a report, with at most `most` blocks and files of each list.
pub fn make_page(
    alloc: Global,
    loaded: &Loaded,
    most: usize,
    cluster: &ClusterReport,
) -> Result<String, AllocError> {
    let report = &cluster.report;
    let mut text = String::new(alloc);
    write_head(&mut text, "The state of the cluster")?;
    write_summary(&mut text, &loaded.files, cluster)?;
    write_levels(&mut text, report)?;
    write_tags(&mut text, report)?;
    write_nodes(&mut text, &loaded.names, report)?;
    write_storages(&mut text, &loaded.names, report.nodes.as_slice())?;
    write_files(&mut text, &loaded.files, most, cluster)?;
    write_missing(&mut text, &loaded.files, most, report.missing.as_slice())?;
    write_urgent(&mut text, &loaded.files, most, report.urgent.as_slice())?;
    write_foot(&mut text)?;
    Ok(text)
}

/// The most important numbers.
fn write_summary(
    text: &mut String,
    files: &Files,
    cluster: &ClusterReport,
) -> Result<(), AllocError> {
    let report = &cluster.report;
    text.push_str("<dl>\n")?;
    write_fact(text, "nodes", report.nodes.as_slice().len() as u128)?;
    write_fact(text, "blocks", all_blocks(&report.levels))?;
    write_fact(text, "replicas", all_replicas(&report.tags))?;
    write_fact(text, "missing blocks", report.levels.missing as u128)?;
    write_fact(
        text,
        "blocks that want copies",
        report.urgent.as_slice().len() as u128,
    )?;
    if files.file_count() > 0 {
        let lost = cluster.risk.lost.as_slice().len();
        let endangered = cluster.risk.endangered.as_slice().len();
        write_fact(text, "lost files", lost as u128)?;
        write_fact(text, "endangered files", endangered as u128)?;
    }
    write_fact(text, "replicas in excess", report.excess as u128)?;
    write_fact(text, "copies on their way", report.transfers as u128)?;
    write_fact(text, "accepted calls", u128::from(report.calls))?;
    write_fact(text, "rounds", u128::from(report.round))?;
    text.push_str("</dl>\n")
}

const AMOUNT_HEADS: &str = "<th></th><th class=\"n\">count</th><th class=\"n\">bytes</th>\
<th class=\"n\">part</th><th></th>";

fn write_levels(text: &mut String, report: &Report) -> Result<(), AllocError> {
    let (levels, bytes) = (&report.levels, &report.level_bytes);
    let all = all_blocks(levels);
    begin_table(text, "Blocks by level", AMOUNT_HEADS)?;
    write_amount_row(text, "missing", levels.missing, bytes.missing, all, true)?;
    write_amount_row(text, "highest", levels.highest, bytes.highest, all, true)?;
    write_amount_row(
        text,
        "very under-replicated",
        levels.very_under_replicated,
        bytes.very_under_replicated,
        all,
        false,
    )?;
    write_amount_row(
        text,
        "under-replicated",
        levels.under_replicated,
        bytes.under_replicated,
        all,
        false,
    )?;
    write_amount_row(
        text,
        "badly distributed",
        levels.badly_distributed,
        bytes.badly_distributed,
        all,
        false,
    )?;
    write_amount_row(
        text,
        "none: enough replicas",
        levels.none,
        bytes.none,
        all,
        false,
    )?;
    end_table(text)
}

fn write_tags(text: &mut String, report: &Report) -> Result<(), AllocError> {
    let (tags, bytes) = (&report.tags, &report.tag_bytes);
    let all = all_replicas(tags);
    begin_table(text, "Replicas", AMOUNT_HEADS)?;
    write_amount_row(text, "good", tags.good, bytes.good, all, false)?;
    write_amount_row(text, "stale", tags.stale, bytes.stale, all, true)?;
    write_amount_row(text, "bad", tags.bad, bytes.bad, all, true)?;
    write_amount_row(text, "stray, of unknown length", tags.stray, 0, all, true)?;
    end_table(text)
}

const NODE_HEADS: &str = "<th>rack</th><th>node</th><th>state</th><th class=\"n\">storages</th>\
<th class=\"n\">replicas</th><th class=\"n\">bytes</th><th class=\"n\">free</th>\
<th class=\"n\">filled</th><th></th>";

fn write_nodes(text: &mut String, names: &Names, report: &Report) -> Result<(), AllocError> {
    begin_table(text, "Nodes", NODE_HEADS)?;
    for row in report.nodes.as_slice() {
        write_node(text, names, row)?;
    }
    end_table(text)?;
    write_chart(text, names, report.nodes.as_slice())
}

fn write_node(text: &mut String, names: &Names, row: &NodeRow) -> Result<(), AllocError> {
    let storages = row.storages.as_slice();
    let (bytes, remaining) = (bytes_on(storages), remaining_on(storages));
    text.push_str("<tr><td class=\"rack\">")?;
    write_rack(text, names, row.rack)?;
    text.push_str("</td><td>")?;
    write_host(text, names, row.node)?;
    text.push_str("</td>")?;
    write_cell(text, state_word(row.state))?;
    write_number_cell(text, storages.len() as u128)?;
    write_number_cell(text, replicas_on(storages))?;
    text.push_str("<td class=\"n\">")?;
    write_bytes(text, bytes)?;
    text.push_str("</td><td class=\"n\">")?;
    write_bytes(text, remaining)?;
    text.push_str("</td>")?;
    write_share_cells(text, bytes, bytes.saturating_add(remaining), false)?;
    text.push_str("</tr>\n")
}

const STORAGE_HEADS: &str = "<th>node</th><th>storage</th><th class=\"n\">replicas</th>\
<th class=\"n\">bytes</th><th class=\"n\">free</th><th class=\"n\">filled</th><th></th>";

/// The storages, in a part of the page that opens by a click.
fn write_storages(text: &mut String, names: &Names, nodes: &[NodeRow]) -> Result<(), AllocError> {
    text.push_str("<details><summary>Storages of the nodes</summary>\n")?;
    begin_table(text, "Storages", STORAGE_HEADS)?;
    for node in nodes {
        write_storages_of(text, names, node)?;
    }
    end_table(text)?;
    text.push_str("</details>\n")
}

fn write_storages_of(text: &mut String, names: &Names, node: &NodeRow) -> Result<(), AllocError> {
    for row in node.storages.as_slice() {
        text.push_str("<tr><td>")?;
        write_host(text, names, node.node)?;
        text.push_str("</td>")?;
        write_storage(text, names, row)?;
        text.push_str("</tr>\n")?;
    }
    Ok(())
}

/// The cells of a storage after that of its node.
fn write_storage(text: &mut String, names: &Names, row: &StorageRow) -> Result<(), AllocError> {
    text.push_str("<td class=\"path\">")?;
    match names.storage(row.storage) {
        Some(name) => write_escaped(text, name)?,
        None => {
            let number = row.storage.0;
            write!(text, "{number}")?;
        }
    }
    text.push_str("</td>")?;
    write_number_cell(text, row.replicas as u128)?;
    let remaining = u128::from(row.remaining);
    text.push_str("<td class=\"n\">")?;
    write_bytes(text, row.bytes)?;
    text.push_str("</td><td class=\"n\">")?;
    write_bytes(text, remaining)?;
    text.push_str("</td>")?;
    write_share_cells(text, row.bytes, row.bytes.saturating_add(remaining), false)
}

/// The files at risk; nothing if no file is known.
fn write_files(
    text: &mut String,
    files: &Files,
    most: usize,
    cluster: &ClusterReport,
) -> Result<(), AllocError> {
    if files.file_count() == 0 {
        return Ok(());
    }
    write_file_table(
        text,
        "Lost files",
        files,
        most,
        cluster.risk.lost.as_slice(),
    )?;
    write_file_table(
        text,
        "Endangered files",
        files,
        most,
        cluster.risk.endangered.as_slice(),
    )
}

fn write_missing(
    text: &mut String,
    files: &Files,
    most: usize,
    blocks: &[BlockId],
) -> Result<(), AllocError> {
    begin_table(
        text,
        "Missing blocks",
        "<th class=\"n\">block</th><th>file</th>",
    )?;
    for block in first_of(blocks, most) {
        text.push_str("<tr>")?;
        write_number_cell(text, u128::from(block.0))?;
        write_place(text, files, *block)?;
        text.push_str("</tr>\n")?;
    }
    end_table(text)?;
    write_rest(text, blocks.len(), most)
}

fn write_urgent(
    text: &mut String,
    files: &Files,
    most: usize,
    blocks: &[Leveled],
) -> Result<(), AllocError> {
    begin_table(
        text,
        "Blocks that want copies, the most urgent first",
        "<th class=\"n\">block</th><th>level</th><th>file</th>",
    )?;
    for found in first_of(blocks, most) {
        text.push_str("<tr>")?;
        write_number_cell(text, u128::from(found.block.0))?;
        let word = match found.level {
            Some(level) => level_word(level),
            None => "none",
        };
        write_cell(text, word)?;
        write_place(text, files, found.block)?;
        text.push_str("</tr>\n")?;
    }
    end_table(text)?;
    write_rest(text, blocks.len(), most)
}
