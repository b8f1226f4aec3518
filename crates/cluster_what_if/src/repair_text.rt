// The repair as text.
ghost use Rattle.std.specs.Prelude.{◌≡◌, ◌++◌, OnOk, string_bytes, flat_map};
ghost use Rattle.cluster_what_if.specs.RepairText.{count_with, retired_text, same_reason, reason_word, model_line, rounds_heading, round_line, rounds_text, copies_text, left_line, retirement_text, retirement_line, reasons_text, unmended_line, unmended_text, repair_text};

use crate::columns::{write_level_heads, write_level_numbers};
use crate::findings::Mended;
use crate::shown_rows::shown_rows;
use crate::text::{write_end, write_node};
use bm_base::NodeId;
use cluster_names::{Files, Names};
use cluster_pages::text::first_of;
use cluster_pages::text_parts::level_word;
use cluster_repair::links::MICROS;
use cluster_repair::reasons::{Reason, Unmended};
use cluster_repair::repair::{Pace, Repair, Retirement, retirement_of};
use cluster_repair::rows::Row;
use cluster_report::text_parts::write_count;
use std::alloc::{AllocError, Global};

/// The table of rounds, and the result, with at most `most` of the blocks that stay unrepaired.
#[tactic(auto, unfolding(crate::specs::RepairText::repair_text))]
pub fn write_repair(
    alloc: Global,
    text: &mut String,
    names: &Names,
    files: &Files,
    most: usize,
    mended: &Mended,
) -> Result<(), AllocError>
    ensures { OnOk result (string_bytes text.new ≡ string_bytes text.old
        ++ repair_text names.now files.now most mended.now) }
{
    write_model(text, mended.pace)?;
    write_rounds(alloc, text, mended.repair.rows.rows.as_slice())?;
    write_copies(text, &mended.repair)?;
    write_retirements(text, names, &mended.repair)?;
    write_unmended(text, files, most, mended.unmended.as_slice())
}

/// How fast DataNodes are, and how often rounds come.
#[tactic(auto, unfolding(crate::specs::RepairText::model_line))]
fn write_model(text: &mut String, pace: Pace) -> Result<(), AllocError>
    ensures { OnOk result (string_bytes text.new ≡ string_bytes text.old ++ model_line pace) }
{
    let interval = pace.interval;
    let bandwidth = pace.bandwidth;
    write!(text, "model: a round at most every {interval} s; ")?;
    write!(
        text,
        "each node sends and receives {bandwidth} bytes a second\n"
    )
}

/// The table of rounds: its heading, and a line for each row that is shown.
#[tactic(auto, unfolding(crate::specs::RepairText::rounds_text))]
fn write_rounds(alloc: Global, text: &mut String, rows: &[Row]) -> Result<(), AllocError>
    ensures { OnOk result (string_bytes text.new ≡ string_bytes text.old ++ rounds_text rows.now) }
{
    write_rounds_heading(text)?;
    let shown = shown_rows(alloc, rows)?;
    write_round_lines(text, shown.as_slice())
}

#[tactic(auto, unfolding(crate::specs::RepairText::rounds_heading))]
fn write_rounds_heading(text: &mut String) -> Result<(), AllocError>
    ensures { OnOk result (string_bytes text.new ≡ string_bytes text.old ++ rounds_heading) }
{
    text.push_str("   round    seconds ")?;
    write_level_heads(text)?;
    text.push_str("  missing commanded    on_way\n")
}

fn write_round_lines(text: &mut String, rows: &[Row]) -> Result<(), AllocError>
    ensures { OnOk result (string_bytes text.new ≡ string_bytes text.old
        ++ flat_map round_line rows.now) }
{
    for row in rows {
        write_round_line(text, row)?;
    }
    Ok(())
}

/// A round, its time, and the counts after it.
#[tactic(auto, unfolding(crate::specs::RepairText::round_line))]
fn write_round_line(text: &mut String, row: &Row) -> Result<(), AllocError>
    ensures { OnOk result (string_bytes text.new ≡ string_bytes text.old ++ round_line row.now) }
{
    let round = row.round;
    let seconds = row.seconds;
    write!(text, "{round:>8} {seconds:>10} ")?;
    write_level_numbers(text, &row.levels)?;
    let missing = row.levels.missing;
    let commanded = row.commanded;
    let on_way = row.on_way;
    write!(text, "{missing:>9} {commanded:>9} {on_way:>9}\n")
}

/// The rounds, and all copies.
#[tactic(auto, unfolding(crate::specs::RepairText::copies_text))]
fn write_copies(text: &mut String, repair: &Repair) -> Result<(), AllocError>
    ensures { OnOk result (string_bytes text.new ≡ string_bytes text.old
        ++ copies_text repair.now) }
{
    write_count(text, "rounds", u128::from(repair.rounds))?;
    write_left(text, repair.datanodes.on_way.sent.len())?;
    let seconds = repair.datanodes.last_arrival.div_ceil(MICROS);
    write_count(text, "seconds", u128::from(seconds))?;
    write_count(text, "copies", u128::from(repair.datanodes.copies))?;
    write_count(text, "bytes copied", repair.datanodes.bytes)
}

/// The copies on their way when the rounds were stopped, if any.
fn write_left(text: &mut String, left: usize) -> Result<(), AllocError>
    ensures { OnOk result (string_bytes text.new ≡ string_bytes text.old ++ left_line left) }
{
    if left == 0 {
        return Ok(());
    }
    write_count(text, "stopped with copies on way", left as u128)
}

/// When each drained node can be switched off.
fn write_retirements(text: &mut String, names: &Names, repair: &Repair) -> Result<(), AllocError>
    ensures { OnOk result (string_bytes text.new ≡ string_bytes text.old
        ++ flat_map (retirement_line names.now repair.now.retired.items)
        repair.now.drained.items) }
{
    for node in &repair.drained {
        write_retirement(text, names, repair.retired.as_slice(), *node)?;
    }
    Ok(())
}

#[tactic(auto, unfolding(crate::specs::RepairText::retirement_line))]
fn write_retirement(
    text: &mut String,
    names: &Names,
    retired: &[Retirement],
    node: NodeId,
) -> Result<(), AllocError>
    ensures { OnOk result (string_bytes text.new ≡ string_bytes text.old
        ++ retirement_line names.now retired.now node) }
{
    text.push_str("node ")?;
    write_node(text, names, node)?;
    write_when(text, retirement_of(retired, node))
}

/// After how many rounds and seconds a node can be switched off, if it can be.
fn write_when(text: &mut String, retirement: Option<Retirement>) -> Result<(), AllocError>
    ensures { OnOk result (string_bytes text.new ≡ string_bytes text.old
        ++ retirement_text retirement) }
{
    match retirement {
        Some(retirement) => write_retired(text, retirement),
        None => text.push_str(" not retired\n"),
    }
}

#[tactic(auto, unfolding(crate::specs::RepairText::retired_text))]
fn write_retired(text: &mut String, retirement: Retirement) -> Result<(), AllocError>
    ensures { OnOk result (string_bytes text.new ≡ string_bytes text.old
        ++ retired_text retirement) }
{
    let rounds = retirement.rounds;
    let seconds = retirement.seconds;
    write!(text, " retired after {rounds} rounds, {seconds} seconds\n")
}

/// The blocks that stay unrepaired: how many for each reason, and the first of them.
#[tactic(auto, unfolding(crate::specs::RepairText::unmended_text))]
fn write_unmended(
    text: &mut String,
    files: &Files,
    most: usize,
    unmended: &[Unmended],
) -> Result<(), AllocError>
    ensures { OnOk result (string_bytes text.new ≡ string_bytes text.old
        ++ unmended_text files.now most unmended.now) }
{
    write_reasons(text, unmended)?;
    write_unmended_lines(text, files, first_of(unmended, most))
}

#[tactic(auto, unfolding(crate::specs::RepairText::reasons_text))]
fn write_reasons(text: &mut String, unmended: &[Unmended]) -> Result<(), AllocError>
    ensures { OnOk result (string_bytes text.new ≡ string_bytes text.old
        ++ reasons_text unmended.now) }
{
    let no_source = count_with(unmended, Reason::NoSource);
    let no_target = count_with(unmended, Reason::NoTarget);
    let no_space = count_with(unmended, Reason::NoSpace);
    write_count(text, "unmended blocks", unmended.len() as u128)?;
    write_count(text, "no source", no_source as u128)?;
    write_count(text, "no target", no_target as u128)?;
    write_count(text, "no space", no_space as u128)
}

/// How many of these blocks stay unrepaired for this reason.
#[tactic(auto, unfolding(crate::specs::RepairText::count_with))]
pub fn count_with(unmended: &[Unmended], reason: Reason) -> usize
    ensures { result ≡ count_with reason unmended.now }
{
    unmended
        .iter()
        .filter(|one| has_reason(one, reason))
        .count()
}

fn has_reason(unmended: &Unmended, reason: Reason) -> bool
    ensures { result ≡ same_reason unmended.now.reason reason }
{
    is_same(unmended.reason, reason)
}

fn is_same(reason: Reason, other: Reason) -> bool
    ensures { result ≡ same_reason reason other }
{
    match reason {
        Reason::NoSource => matches!(other, Reason::NoSource),
        Reason::NoTarget => matches!(other, Reason::NoTarget),
        Reason::NoSpace => matches!(other, Reason::NoSpace),
    }
}

fn write_unmended_lines(
    text: &mut String,
    files: &Files,
    unmended: &[Unmended],
) -> Result<(), AllocError>
    ensures { OnOk result (string_bytes text.new ≡ string_bytes text.old
        ++ flat_map (unmended_line files.now) unmended.now) }
{
    for one in unmended {
        write_unmended_line(text, files, one)?;
    }
    Ok(())
}

/// A block with its level, why it stays unrepaired, and its file.
#[tactic(auto, unfolding(crate::specs::RepairText::unmended_line))]
fn write_unmended_line(
    text: &mut String,
    files: &Files,
    unmended: &Unmended,
) -> Result<(), AllocError>
    ensures { OnOk result (string_bytes text.new ≡ string_bytes text.old
        ++ unmended_line files.now unmended.now) }
{
    let block = unmended.block.0;
    let level = level_word(unmended.level);
    let reason = reason_word(unmended.reason);
    write!(text, "unmended block {block} level {level} {reason}")?;
    write_end(text, files.path_of(unmended.block))
}

/// Returns the word for a reason.
pub fn reason_word(reason: Reason) -> &'static str
    ensures { result.now ≡ reason_word reason }
{
    match reason {
        Reason::NoSource => "no source",
        Reason::NoTarget => "no target",
        Reason::NoSpace => "no space",
    }
}
