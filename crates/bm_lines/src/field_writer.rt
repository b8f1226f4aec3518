// The fields of a line, one after another.
ghost use Rattle.std.specs.Prelude.{◌≡◌, ◌++◌, ◌<◌, ◌^◌, All, OnOk, codes, decimal, string_bytes};
ghost use Rattle.bm_base.specs.Words.{FitsStamp};
ghost use Rattle.bm_lines.specs.CallText.{number_text, list_text, stamp_text, with_commas, remaining_text, run_text, entry_text};
ghost use Rattle.bm_lines.specs.FittingNumbers.{FitsRemaining, FitsEntry};

use bm_base::{Entry, Remaining, Stamp, StorageId};
use std::alloc::AllocError;

/// A field that is a number of 64 bits.
pub fn write_number(line: &mut String, name: &str, number: u64) -> Result<(), AllocError>
    ensures text { OnOk result (string_bytes line.new ≡ string_bytes line.old
        ++ number_text name.now number) }
    ensures fits { OnOk result (number < 2 ^ 64) }
{
    write!(line, ",\"{name}\":{number}")
}

/// A field that is a number of 32 bits.
pub fn write_small(line: &mut String, name: &str, number: u32) -> Result<(), AllocError>
    ensures text { OnOk result (string_bytes line.new ≡ string_bytes line.old
        ++ number_text name.now number) }
    ensures fits { OnOk result (number < 2 ^ 32) }
{
    write!(line, ",\"{name}\":{number}")
}

/// The fields of a stamp.
pub fn write_stamp(line: &mut String, stamp: &Stamp) -> Result<(), AllocError>
    ensures text { OnOk result (string_bytes line.new ≡ string_bytes line.old
        ++ stamp_text stamp.now) }
    ensures fits { OnOk result (FitsStamp stamp.now) }
{
    write_number(line, "gen", stamp.generation.0)?;
    write_number(line, "len", stamp.len)
}

/// The field of a list of storages.
#[tactic(auto, unfolding(crate::specs::CallText::list_text))]
pub fn write_storages(line: &mut String, storages: &[StorageId]) -> Result<(), AllocError>
    ensures text { OnOk result (string_bytes line.new ≡ string_bytes line.old
        ++ list_text (codes "storages") decimal storages.now) }
    ensures fits { OnOk result (All (λ s. s < 2 ^ 32) storages.now) }
{
    line.push_str(",\"storages\":[")?;
    push_storages(line, storages)?;
    line.push_str("]")?;
    Ok(())
}

fn push_storages(line: &mut String, storages: &[StorageId]) -> Result<(), AllocError>
    ensures text { OnOk result (string_bytes line.new ≡ string_bytes line.old
        ++ with_commas decimal storages.now) }
    ensures fits { OnOk result (All (λ s. s < 2 ^ 32) storages.now) }
{
    let Some((first, others)) = storages.split_first() else {
        return Ok(());
    };
    push_storage(line, *first)?;
    for storage in others {
        line.push_str(",")?;
        push_storage(line, *storage)?;
    }
    Ok(())
}

fn push_storage(line: &mut String, storage: StorageId) -> Result<(), AllocError>
    ensures text { OnOk result (string_bytes line.new ≡ string_bytes line.old ++ decimal storage) }
    ensures fits { OnOk result (storage < 2 ^ 32) }
{
    let number = storage.0;
    write!(line, "{number}")
}

/// The field of what remains on storages.
pub fn write_remaining(line: &mut String, remaining: &[Remaining]) -> Result<(), AllocError>
    ensures text { OnOk result (string_bytes line.new ≡ string_bytes line.old
        ++ list_text (codes "remaining") remaining_text remaining.now) }
    ensures fits { OnOk result (All FitsRemaining remaining.now) }
{
    line.push_str(",\"remaining\":[")?;
    push_remaining(line, remaining)?;
    line.push_str("]")?;
    Ok(())
}

fn push_remaining(line: &mut String, remaining: &[Remaining]) -> Result<(), AllocError>
    ensures text { OnOk result (string_bytes line.new ≡ string_bytes line.old
        ++ with_commas remaining_text remaining.now) }
    ensures fits { OnOk result (All FitsRemaining remaining.now) }
{
    let Some((first, others)) = remaining.split_first() else {
        return Ok(());
    };
    push_free_space(line, first)?;
    for free in others {
        line.push_str(",")?;
        push_free_space(line, free)?;
    }
    Ok(())
}

#[tactic(auto, unfolding(crate::specs::CallText::remaining_text))]
fn push_free_space(line: &mut String, free: &Remaining) -> Result<(), AllocError>
    ensures text { OnOk result (string_bytes line.new ≡ string_bytes line.old
        ++ remaining_text free.now) }
    ensures fits { OnOk result (FitsRemaining free.now) }
{
    let storage = free.storage.0;
    let remaining = free.remaining;
    write!(line, "[{storage},{remaining}]")
}

/// The field of the entries of a report.
pub fn write_entries(line: &mut String, entries: &[Entry]) -> Result<(), AllocError>
    ensures text { OnOk result (string_bytes line.new ≡ string_bytes line.old
        ++ list_text (codes "blocks") entry_text entries.now) }
    ensures fits { OnOk result (All FitsEntry entries.now) }
{
    line.push_str(",\"blocks\":[")?;
    push_entries(line, entries)?;
    line.push_str("]")?;
    Ok(())
}

fn push_entries(line: &mut String, entries: &[Entry]) -> Result<(), AllocError>
    ensures text { OnOk result (string_bytes line.new ≡ string_bytes line.old
        ++ with_commas entry_text entries.now) }
    ensures fits { OnOk result (All FitsEntry entries.now) }
{
    let Some((first, others)) = entries.split_first() else {
        return Ok(());
    };
    push_entry(line, first)?;
    for entry in others {
        line.push_str(",")?;
        push_entry(line, entry)?;
    }
    Ok(())
}

/// An entry of one block is written with three numbers, every other with four.
#[tactic(auto, unfolding(crate::specs::CallText::entry_text))]
fn push_entry(line: &mut String, entry: &Entry) -> Result<(), AllocError>
    ensures text { OnOk result (string_bytes line.new ≡ string_bytes line.old
        ++ entry_text entry.now) }
    ensures fits { OnOk result (FitsEntry entry.now) }
{
    line.push_str("[")?;
    push_run(line, entry.from.0, entry.to.0)?;
    let generation = entry.stamp.generation.0;
    let len = entry.stamp.len;
    write!(line, ",{generation},{len}]")
}

/// A block, or the first and the last block of a run.
fn push_run(line: &mut String, from: u64, to: u64) -> Result<(), AllocError>
    ensures { OnOk result (string_bytes line.new ≡ string_bytes line.old ++ run_text from to) }
{
    if from == to {
        write!(line, "{from}")
    } else {
        write!(line, "{from},{to}")
    }
}
