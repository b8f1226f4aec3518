// The text of a report.
ghost use Rattle.std.specs.Prelude.{◌≡◌, ◌++◌, take, IfOk, OnOk, string_bytes};
ghost use Rattle.cluster_pages.specs.Text.{report_text, cluster_text, levels_text, lacking_text, other_text, tags_text, work_text, risk_text, files_text, all_blocks, all_block_bytes, all_replicas, all_replica_bytes};

use crate::files_at_risk::AtRisk;
use crate::text_parts::{
    write_amount, write_files, write_missing, write_nodes, write_total, write_urgent,
};
use cluster_names::{Files, Names};
use cluster_report::levels::{LevelBytes, LevelCounts};
use cluster_report::report::Report;
use cluster_report::tag_counts::{TagBytes, TagCounts};
use cluster_report::text_parts::write_count;
use std::alloc::{AllocError, Global};

/// The text of a report: a line for each fact, with at most `most` blocks and files of each list.
#[tactic(auto, unfolding(crate::specs::Text::report_text))]
pub fn report_text(
    alloc: Global,
    names: &Names,
    files: &Files,
    most: usize,
    report: &Report,
    risk: &AtRisk,
) -> Result<String, AllocError>
    ensures { IfOk result (λ s. string_bytes s
        ≡ report_text names.now files.now most report.now risk.now) }
{
    let mut text = String::new(alloc);
    write_cluster(&mut text, names, report)?;
    write_levels(&mut text, &report.levels, &report.level_bytes)?;
    write_tags(&mut text, &report.tags, &report.tag_bytes)?;
    write_work(&mut text, files, most, report)?;
    write_known_files(&mut text, files, most, risk)?;
    Ok(text)
}

/// The numbers of accepted calls and of rounds, and the nodes.
#[tactic(auto, unfolding(crate::specs::Text::cluster_text))]
fn write_cluster(text: &mut String, names: &Names, report: &Report) -> Result<(), AllocError>
    ensures { OnOk result (string_bytes text.new ≡ string_bytes text.old
        ++ cluster_text names.now report.now) }
{
    let nodes = report.nodes.as_slice();
    write_count(text, "calls", u128::from(report.calls))?;
    write_count(text, "rounds", u128::from(report.round))?;
    write_count(text, "nodes", nodes.len() as u128)?;
    write_nodes(text, names, all_replicas(&report.tags), nodes)
}

/// The number of blocks, and of those at each level.
#[tactic(auto, unfolding(crate::specs::Text::levels_text))]
fn write_levels(
    text: &mut String,
    levels: &LevelCounts,
    bytes: &LevelBytes,
) -> Result<(), AllocError>
    ensures { OnOk result (string_bytes text.new ≡ string_bytes text.old
        ++ levels_text levels.now bytes.now) }
{
    write_lacking(text, levels, bytes)?;
    write_other(text, levels, bytes)
}

/// The number of blocks, and of those that lack replicas.
#[tactic(auto, unfolding(crate::specs::Text::lacking_text))]
fn write_lacking(
    text: &mut String,
    levels: &LevelCounts,
    bytes: &LevelBytes,
) -> Result<(), AllocError>
    ensures { OnOk result (string_bytes text.new ≡ string_bytes text.old
        ++ lacking_text levels.now bytes.now) }
{
    let all = all_blocks(levels);
    write_total(text, "blocks", all, all_block_bytes(bytes))?;
    write_amount(text, "level highest", levels.highest, bytes.highest, all)?;
    write_amount(
        text,
        "level very_under_replicated",
        levels.very_under_replicated,
        bytes.very_under_replicated,
        all,
    )?;
    write_amount(
        text,
        "level under_replicated",
        levels.under_replicated,
        bytes.under_replicated,
        all,
    )
}

#[tactic(auto, unfolding(crate::specs::Text::other_text))]
fn write_other(
    text: &mut String,
    levels: &LevelCounts,
    bytes: &LevelBytes,
) -> Result<(), AllocError>
    ensures { OnOk result (string_bytes text.new ≡ string_bytes text.old
        ++ other_text levels.now bytes.now) }
{
    let all = all_blocks(levels);
    write_amount(
        text,
        "level badly_distributed",
        levels.badly_distributed,
        bytes.badly_distributed,
        all,
    )?;
    write_amount(text, "level missing", levels.missing, bytes.missing, all)?;
    write_amount(text, "level none", levels.none, bytes.none, all)
}

/// The number of replicas, and of those of each tag.
#[tactic(auto, unfolding(crate::specs::Text::tags_text))]
fn write_tags(text: &mut String, tags: &TagCounts, bytes: &TagBytes) -> Result<(), AllocError>
    ensures { OnOk result (string_bytes text.new ≡ string_bytes text.old
        ++ tags_text tags.now bytes.now) }
{
    let all = all_replicas(tags);
    write_total(text, "replicas", all, all_replica_bytes(bytes))?;
    write_amount(text, "good", tags.good, bytes.good, all)?;
    write_amount(text, "stale", tags.stale, bytes.stale, all)?;
    write_amount(text, "bad", tags.bad, bytes.bad, all)?;
    write_amount(text, "stray", tags.stray, 0, all)
}

/// The numbers of excess replicas and of pending copies, and the first blocks that need copies.
#[tactic(auto, unfolding(crate::specs::Text::work_text))]
fn write_work(
    text: &mut String,
    files: &Files,
    most: usize,
    report: &Report,
) -> Result<(), AllocError>
    ensures { OnOk result (string_bytes text.new ≡ string_bytes text.old
        ++ work_text files.now most report.now) }
{
    write_count(text, "excess", report.excess as u128)?;
    write_count(text, "transfers", report.transfers as u128)?;
    write_missing(text, files, first_of(report.missing.as_slice(), most))?;
    write_urgent(text, files, first_of(report.urgent.as_slice(), most))
}

/// The files at risk; nothing if no file is known.
fn write_known_files(
    text: &mut String,
    files: &Files,
    most: usize,
    risk: &AtRisk,
) -> Result<(), AllocError>
    ensures { OnOk result (string_bytes text.new ≡ string_bytes text.old
        ++ files_text files.now most risk.now) }
{
    if files.file_count() == 0 {
        return Ok(());
    }
    write_risk(text, files, most, risk)
}

#[tactic(auto, unfolding(crate::specs::Text::risk_text))]
fn write_risk(
    text: &mut String,
    files: &Files,
    most: usize,
    risk: &AtRisk,
) -> Result<(), AllocError>
    ensures { OnOk result (string_bytes text.new ≡ string_bytes text.old
        ++ risk_text files.now most risk.now) }
{
    let lost = risk.lost.as_slice();
    let endangered = risk.endangered.as_slice();
    write_count(text, "lost files", lost.len() as u128)?;
    write_files(text, "lost", files, first_of(lost, most))?;
    write_count(text, "endangered files", endangered.len() as u128)?;
    write_files(text, "endangered", files, first_of(endangered, most))
}

/// The first entries of a list, at most `most`.
pub fn first_of<T>(items: &[T], most: usize) -> &[T]
    ensures { result.now ≡ take most items.now }
{
    match items.split_at_checked(most) {
        Some((first, _)) => first,
        None => items,
    }
}

/// Returns the number of blocks, with and without a level.
pub fn all_blocks(levels: &LevelCounts) -> u128
    ensures { result ≡ all_blocks levels.now }
{
    levels.highest as u128
        + levels.very_under_replicated as u128
        + levels.under_replicated as u128
        + levels.badly_distributed as u128
        + levels.missing as u128
        + levels.none as u128
}

/// Returns the bytes of all blocks, each counted once; at most 2^128 - 1.
pub fn all_block_bytes(bytes: &LevelBytes) -> u128
    ensures { result ≡ all_block_bytes bytes.now }
{
    bytes
        .highest
        .saturating_add(bytes.very_under_replicated)
        .saturating_add(bytes.under_replicated)
        .saturating_add(bytes.badly_distributed)
        .saturating_add(bytes.missing)
        .saturating_add(bytes.none)
}

/// Returns the bytes of all replicas; at most 2^128 - 1. Stray replicas count none.
pub fn all_replica_bytes(bytes: &TagBytes) -> u128
    ensures { result ≡ all_replica_bytes bytes.now }
{
    bytes
        .good
        .saturating_add(bytes.stale)
        .saturating_add(bytes.bad)
}

/// Returns the number of replicas of all tags.
pub fn all_replicas(tags: &TagCounts) -> u128
    ensures { result ≡ all_replicas tags.now }
{
    tags.good as u128 + tags.stale as u128 + tags.bad as u128 + tags.stray as u128
}
