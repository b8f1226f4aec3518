// The call that a line asks for.
ghost use Rattle.std.specs.Prelude.{◌≡◌, true, false, IfOk, option_map};
ghost use Rattle.bm_base.specs.Words.{IfFound};
ghost use Rattle.serde_json.specs.View.{view};
ghost use Rattle.bm_lines.specs.CallText.{has_op};
ghost use Rattle.bm_lines.specs.Parser.CallOf.{call_for, call_of_value, call_of, view_of};
ghost use Rattle.bm_lines.specs.Parser.Op.{has_list};

use super::canonical::canonical_call;
use super::fields::{block_field, node_field, rack_field, repl_field, stamp_field, storage_field};
use super::lists::list_field;
use super::op::{Op, op_of};
use bm_base::{Call, Entry, Event, Items, Remaining, StorageId};
use serde_json::Value;
use std::alloc::{AllocError, Global};

/// The call that a line asks for; `None` if it asks for none.
pub fn call_of(alloc: Global, line: &[u8]) -> Result<Option<Call>, AllocError>
    ensures call { IfOk result (λ o. o ≡ call_of line.now) }
    // `line_of` can write the call again: it requires only this.
    ensures has_op { IfFound result (λ k. has_op k ≡ true) }
{
    match canonical_call(alloc, line)? {
        Some(call) => Ok(Some(call)),
        None => read_call(alloc, line),
    }
}

/// The call that a line of any form asks for.
#[inline(never)]
fn read_call(alloc: Global, line: &[u8]) -> Result<Option<Call>, AllocError>
    ensures call { IfOk result (λ o. o ≡ call_of line.now) }
    ensures has_op { IfFound result (λ k. has_op k ≡ true) }
{
    match parse_value(alloc, line)? {
        Some(value) => call_of_value(alloc, &value),
        None => Ok(None),
    }
}

/// The value that `serde_json` reads from a line.
fn parse_value(alloc: Global, line: &[u8]) -> Result<Option<Value>, AllocError>
    ensures { IfOk result (λ o. option_map view o ≡ view_of line.now) }
{
    match Value::from_slice(alloc, line) {
        Ok(value) => Ok(Some(value)),
        Err(error) => {
            if error.is_memory() {
                Err(AllocError)
            } else {
                Ok(None)
            }
        }
    }
}

fn call_of_value(alloc: Global, value: &Value) -> Result<Option<Call>, AllocError>
    ensures { IfOk result (λ o. o ≡ call_of_value (view value.now)) }
{
    match value.get("op").and_then(Value::as_str).and_then(op_of) {
        Some(op) => call_for(alloc, op, value),
        None => Ok(None),
    }
}

/// The call of this name with the fields of the object; `None` if one is missing.
fn call_for(alloc: Global, op: Op, value: &Value) -> Result<Option<Call>, AllocError>
    ensures { IfOk result (λ o. o ≡ call_for op (view value.now)) }
{
    match op {
        Op::Register => register(alloc, value),
        Op::Heartbeat => heartbeat(alloc, value),
        Op::Report => report(alloc, value),
        _ => Ok(call_without_list(op, value)),
    }
}

fn register(alloc: Global, value: &Value) -> Result<Option<Call>, AllocError>
    ensures { IfOk result (λ o. o ≡ call_for Op.Register (view value.now)) }
{
    let (Some(node), Some(rack)) = (node_field(value), rack_field(value)) else {
        return Ok(None);
    };
    match list_field::<StorageId>(alloc, value, "storages")? {
        Some(storages) => Ok(Some(Call::Apply(Event::Register {
            node,
            rack,
            storages: Items::from_vec(storages),
        }))),
        None => Ok(None),
    }
}

fn heartbeat(alloc: Global, value: &Value) -> Result<Option<Call>, AllocError>
    ensures { IfOk result (λ o. o ≡ call_for Op.Heartbeat (view value.now)) }
{
    let Some(node) = node_field(value) else {
        return Ok(None);
    };
    match list_field::<Remaining>(alloc, value, "remaining")? {
        Some(remaining) => Ok(Some(Call::Apply(Event::Heartbeat {
            node,
            remaining: Items::from_vec(remaining),
        }))),
        None => Ok(None),
    }
}

fn report(alloc: Global, value: &Value) -> Result<Option<Call>, AllocError>
    ensures { IfOk result (λ o. o ≡ call_for Op.Report (view value.now)) }
{
    let Some(storage) = storage_field(value) else {
        return Ok(None);
    };
    match list_field::<Entry>(alloc, value, "blocks")? {
        Some(entries) => Ok(Some(Call::Apply(Event::FullReport {
            storage,
            entries: Items::from_vec(entries),
        }))),
        None => Ok(None),
    }
}

/// The call of a name none of whose fields is a list.
fn call_without_list(op: Op, value: &Value) -> Option<Call>
    requires { has_list op ≡ false }
    ensures { result ≡ call_for op (view value.now) }
{
    match op {
        Op::Register | Op::Heartbeat | Op::Report => None,
        Op::Dead => Some(Call::Apply(Event::Dead {
            node: node_field(value)?,
        })),
        Op::StorageFailed => Some(Call::Apply(Event::StorageFailed {
            storage: storage_field(value)?,
        })),
        Op::Drain => Some(Call::Apply(Event::Drain {
            node: node_field(value)?,
        })),
        Op::Undrain => Some(Call::Apply(Event::Undrain {
            node: node_field(value)?,
        })),
        Op::Add => Some(Call::Apply(Event::AddBlock {
            id: block_field(value)?,
            stamp: stamp_field(value)?,
            repl: repl_field(value)?,
        })),
        Op::Delete => Some(Call::Apply(Event::DeleteBlock {
            id: block_field(value)?,
        })),
        Op::SetReplication => Some(Call::Apply(Event::SetReplication {
            id: block_field(value)?,
            repl: repl_field(value)?,
        })),
        Op::Restamp => Some(Call::Apply(Event::Restamp {
            id: block_field(value)?,
            stamp: stamp_field(value)?,
        })),
        Op::Received => Some(Call::Apply(Event::Received {
            storage: storage_field(value)?,
            id: block_field(value)?,
            stamp: stamp_field(value)?,
        })),
        Op::Deleted => Some(Call::Apply(Event::Deleted {
            storage: storage_field(value)?,
            id: block_field(value)?,
        })),
        Op::Corrupt => Some(Call::Apply(Event::Corrupt {
            storage: storage_field(value)?,
            id: block_field(value)?,
        })),
        Op::Round => Some(Call::Round),
        Op::ListReplicas => Some(Call::Replicas),
        Op::ListCorrupt => Some(Call::Corrupt),
        Op::ListMissing => Some(Call::Missing),
        Op::ListExcess => Some(Call::Excess),
        Op::ListStorage => Some(Call::BlocksOn(storage_field(value)?)),
        Op::ListPlaces => Some(Call::Places(block_field(value)?)),
        Op::Level => Some(Call::LevelOf(block_field(value)?)),
        Op::Retired => Some(Call::Retired(node_field(value)?)),
    }
}
