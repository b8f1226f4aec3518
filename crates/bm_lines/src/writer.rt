// The line that asks for a call.
ghost use Rattle.std.specs.Prelude.{◌≡◌, ◌++◌, true, Some, IfOk, OnOk, string_bytes};
ghost use Rattle.bm_base.specs.declared.event.Event.TheVariants.{Register, Heartbeat, SetReplication, Restamp, Received, Deleted, FullReport};
ghost use Rattle.bm_lines.specs.CallText.{has_op, event_op, call_op, event_fields, call_fields, line_text};
ghost use Rattle.bm_lines.specs.Parser.CallOf.{call_of};
ghost use Rattle.bm_lines.specs.Lines.{IsPart};
ghost use Rattle.bm_lines.specs.FittingNumbers.{FitsWhole, FitsWholeEvent};

use crate::field_writer::{
    write_entries, write_number, write_remaining, write_small, write_stamp, write_storages,
};
use bm_base::{BlockId, Call, Entry, Event, NodeId, Rack, Remaining, Stamp, StorageId};
use std::alloc::{AllocError, Global};

/// Whether there is an op that asks for the call: there is none for `Calls` and `Rounds`.
pub fn has_op(call: &Call) -> bool
    ensures { result ≡ has_op call.now }
{
    !matches!(call, Call::Calls | Call::Rounds)
}

/// The line that asks for the call, without its line end. It may be longer than `MAX_LINE` if the
/// call has a long list, and then the tool answers `refused 21 LongLine`: the caller has to watch
/// its length. An item of a report takes at most 86 bytes with its comma, so 48,000 entries always
/// fit.
pub fn line_of(alloc: Global, call: &Call) -> Result<String, AllocError>
    requires { has_op call.now ≡ true }
    ensures text { IfOk result (λ s. string_bytes s ≡ line_text call.now) }
    // The line is read as the call,
    ensures asks { IfOk result (λ s. call_of (string_bytes s) ≡ Some call.now) }
    // and it contains no line end.
    ensures one_line { IfOk result (λ s. IsPart (string_bytes s)) }
{
    let line = line_text(alloc, call)?;
    Ok(line)
}

#[tactic(auto, unfolding(crate::specs::CallText::line_text))]
fn line_text(alloc: Global, call: &Call) -> Result<String, AllocError>
    ensures text { IfOk result (λ s. string_bytes s ≡ line_text call.now) }
    ensures fits { OnOk result (FitsWhole call.now) }
{
    let op = call_op(call);
    let mut line = format!(in alloc; "{{\"op\":\"{op}\"")?;
    write_fields(&mut line, call)?;
    line.push_str("}")?;
    Ok(line)
}

/// The op that asks for a call.
fn call_op(call: &Call) -> &'static str
    ensures { result.now ≡ call_op call.now }
{
    match call {
        Call::Apply(event) => event_op(event),
        Call::Round => "round",
        Call::Replicas => "list_replicas",
        Call::Corrupt => "list_corrupt",
        Call::Missing => "list_missing",
        Call::Excess => "list_excess",
        Call::BlocksOn(_) => "list_storage",
        Call::Places(_) => "list_places",
        Call::LevelOf(_) => "level",
        Call::Retired(_) => "retired",
        Call::Calls | Call::Rounds => "",
    }
}

fn event_op(event: &Event) -> &'static str
    ensures { result.now ≡ event_op event.now }
{
    match event {
        Event::Register { .. } => "register",
        Event::Heartbeat { .. } => "heartbeat",
        Event::Dead { .. } => "dead",
        Event::StorageFailed { .. } => "storage_failed",
        Event::Drain { .. } => "drain",
        Event::Undrain { .. } => "undrain",
        Event::AddBlock { .. } => "add",
        Event::DeleteBlock { .. } => "delete",
        Event::SetReplication { .. } => "set_replication",
        Event::Restamp { .. } => "restamp",
        Event::Received { .. } => "received",
        Event::Deleted { .. } => "deleted",
        Event::Corrupt { .. } => "corrupt",
        Event::FullReport { .. } => "report",
    }
}

/// The fields of a call, in the order of docs/FORMATS.md.
fn write_fields(line: &mut String, call: &Call) -> Result<(), AllocError>
    ensures text { OnOk result (string_bytes line.new ≡ string_bytes line.old
        ++ call_fields call.now) }
    ensures fits { OnOk result (FitsWhole call.now) }
{
    match call {
        Call::Apply(event) => write_event(line, event),
        Call::BlocksOn(storage) => write_small(line, "storage", storage.0),
        Call::Places(id) | Call::LevelOf(id) => write_number(line, "id", id.0),
        Call::Retired(node) => write_small(line, "node", node.0),
        _ => Ok(()),
    }
}

fn write_event(line: &mut String, event: &Event) -> Result<(), AllocError>
    ensures text { OnOk result (string_bytes line.new ≡ string_bytes line.old
        ++ event_fields event.now) }
    ensures fits { OnOk result (FitsWholeEvent event.now) }
{
    match event {
        Event::Register {
            node,
            rack,
            storages,
        } => write_register(line, *node, *rack, storages.as_slice()),
        Event::Heartbeat { node, remaining } => {
            write_heartbeat(line, *node, remaining.as_slice())
        }
        Event::Dead { node } | Event::Drain { node } | Event::Undrain { node } => {
            write_small(line, "node", node.0)
        }
        Event::StorageFailed { storage } => write_small(line, "storage", storage.0),
        Event::AddBlock { id, stamp, repl } => {
            write_number(line, "id", id.0)?;
            write_stamp(line, stamp)?;
            write_small(line, "repl", *repl)
        }
        Event::DeleteBlock { id } => write_number(line, "id", id.0),
        Event::SetReplication { id, repl } => write_set_replication(line, *id, *repl),
        Event::Restamp { id, stamp } => write_block(line, *id, stamp),
        Event::Received { storage, id, stamp } => write_received(line, *storage, *id, stamp),
        Event::Deleted { storage, id } | Event::Corrupt { storage, id } => {
            write_replica(line, *storage, *id)
        }
        Event::FullReport { storage, entries } => write_report(line, *storage, entries.as_slice()),
    }
}

fn write_register(
    line: &mut String,
    node: NodeId,
    rack: Rack,
    storages: &[StorageId],
) -> Result<(), AllocError>
    ensures text { OnOk result (string_bytes line.new ≡ string_bytes line.old
        ++ event_fields (Register node rack storages.now)) }
    ensures fits { OnOk result (FitsWholeEvent (Register node rack storages.now)) }
{
    write_small(line, "node", node.0)?;
    write_small(line, "rack", rack.0)?;
    write_storages(line, storages)
}

fn write_heartbeat(
    line: &mut String,
    node: NodeId,
    remaining: &[Remaining],
) -> Result<(), AllocError>
    ensures text { OnOk result (string_bytes line.new ≡ string_bytes line.old
        ++ event_fields (Heartbeat node remaining.now)) }
    ensures fits { OnOk result (FitsWholeEvent (Heartbeat node remaining.now)) }
{
    write_small(line, "node", node.0)?;
    write_remaining(line, remaining)
}

fn write_set_replication(line: &mut String, id: BlockId, repl: u32) -> Result<(), AllocError>
    ensures text { OnOk result (string_bytes line.new ≡ string_bytes line.old
        ++ event_fields (SetReplication id repl)) }
    ensures fits { OnOk result (FitsWholeEvent (SetReplication id repl)) }
{
    write_number(line, "id", id.0)?;
    write_small(line, "repl", repl)
}

fn write_received(
    line: &mut String,
    storage: StorageId,
    id: BlockId,
    stamp: &Stamp,
) -> Result<(), AllocError>
    ensures text { OnOk result (string_bytes line.new ≡ string_bytes line.old
        ++ event_fields (Received storage id stamp.now)) }
    ensures fits { OnOk result (FitsWholeEvent (Received storage id stamp.now)) }
{
    write_small(line, "storage", storage.0)?;
    write_block(line, id, stamp)
}

fn write_report(line: &mut String, storage: StorageId, entries: &[Entry]) -> Result<(), AllocError>
    ensures text { OnOk result (string_bytes line.new ≡ string_bytes line.old
        ++ event_fields (FullReport storage entries.now)) }
    ensures fits { OnOk result (FitsWholeEvent (FullReport storage entries.now)) }
{
    write_small(line, "storage", storage.0)?;
    write_entries(line, entries)
}

/// A block and its stamp.
fn write_block(line: &mut String, id: BlockId, stamp: &Stamp) -> Result<(), AllocError>
    ensures text { OnOk result (string_bytes line.new ≡ string_bytes line.old
        ++ event_fields (Restamp id stamp.now)) }
    ensures fits { OnOk result (FitsWholeEvent (Restamp id stamp.now)) }
{
    write_number(line, "id", id.0)?;
    write_stamp(line, stamp)
}

/// The storage and the block of a replica.
fn write_replica(line: &mut String, storage: StorageId, id: BlockId) -> Result<(), AllocError>
    ensures text { OnOk result (string_bytes line.new ≡ string_bytes line.old
        ++ event_fields (Deleted storage id)) }
    ensures fits { OnOk result (FitsWholeEvent (Deleted storage id)) }
{
    write_small(line, "storage", storage.0)?;
    write_number(line, "id", id.0)
}
