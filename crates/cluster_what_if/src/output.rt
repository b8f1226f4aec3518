// Prints the findings.
ghost use Rattle.std.specs.Prelude.{◌≡◌, ◌++◌, IfOk, OnOk, string_bytes};
ghost use Rattle.bm_base.specs.Words.{Appends};
ghost use Rattle.cluster_what_if.specs.Output.{losses_text, mended_text, found_text};

use crate::findings::{Findings, Losses, Mended};
use crate::repair_picture::picture_of;
use crate::repair_text::write_repair;
use crate::table::write_table;
use crate::text::write_answer;
use cluster_names::{Files, Names};
use cluster_pages::output::{PrintFault, write_flushed};
use std::alloc::{AllocError, Global};
use std::io::Write;

/// Prints the lines of the findings, with at most `most` blocks and files of each list. Nothing is
/// written before all of the text was made.
pub fn print_lines<W: Write>(
    alloc: Global,
    writer: &mut W,
    names: &Names,
    files: &Files,
    most: usize,
    found: &Findings,
) -> Result<(), PrintFault>
    ensures { OnOk result (Appends (W.contents writer.old) (W.contents writer.new)
        (found_text names.now files.now most found.now)) }
{
    let text = found_text(alloc, names, files, most, found)?;
    print_text(writer, &text)
}

/// Prints the picture of the rounds.
pub fn print_picture<W: Write>(
    alloc: Global,
    writer: &mut W,
    found: &Findings,
) -> Result<(), PrintFault> {
    let text = picture_text(alloc, found)?;
    print_text(writer, &text)
}

fn print_text<W: Write>(writer: &mut W, text: &String) -> Result<(), PrintFault>
    ensures { OnOk result (Appends (W.contents writer.old) (W.contents writer.new)
        (string_bytes text.now)) }
{
    match write_flushed(writer, text.as_bytes()) {
        Ok(()) => Ok(()),
        Err(error) => Err(PrintFault::Write(error)),
    }
}

/// The picture of the rounds; nothing if there are none.
fn picture_text(alloc: Global, found: &Findings) -> Result<String, AllocError> {
    match found {
        Findings::Losses(losses) => match &losses.mended {
            Some(mended) => picture_of(alloc, mended),
            None => Ok(String::new(alloc)),
        },
        Findings::Table(_) => Ok(String::new(alloc)),
    }
}

/// The lines of the findings.
fn found_text(
    alloc: Global,
    names: &Names,
    files: &Files,
    most: usize,
    found: &Findings,
) -> Result<String, AllocError>
    ensures { IfOk result (λ s. string_bytes s ≡ found_text names.now files.now most found.now) }
{
    let mut text = String::new(alloc);
    match found {
        Findings::Losses(losses) => write_losses(alloc, &mut text, names, files, most, losses)?,
        Findings::Table(table) => write_table(alloc, &mut text, names, files, table)?,
    }
    Ok(text)
}

#[tactic(auto, unfolding(crate::specs::Output::losses_text))]
fn write_losses(
    alloc: Global,
    text: &mut String,
    names: &Names,
    files: &Files,
    most: usize,
    losses: &Losses,
) -> Result<(), AllocError>
    ensures { OnOk result (string_bytes text.new ≡ string_bytes text.old
        ++ losses_text names.now files.now most losses.now) }
{
    text.push_str(losses.named.as_str())?;
    write_answer(text, files, most, &losses.answer)?;
    write_mended(alloc, text, names, files, most, &losses.mended)
}

/// Writes the repair, if it was asked for.
fn write_mended(
    alloc: Global,
    text: &mut String,
    names: &Names,
    files: &Files,
    most: usize,
    mended: &Option<Mended>,
) -> Result<(), AllocError>
    ensures { OnOk result (string_bytes text.new ≡ string_bytes text.old
        ++ mended_text names.now files.now most mended.now) }
{
    match mended {
        Some(mended) => write_repair(alloc, text, names, files, most, mended),
        None => Ok(()),
    }
}
