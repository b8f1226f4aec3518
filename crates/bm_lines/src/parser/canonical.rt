// Reads lines with a frequent op in canonical form, as `line_of` writes them, from their bytes
// alone. All other lines are left to `serde_json`.
ghost use Rattle.std.specs.Prelude.{◌≡◌, ◌++◌, true, IfSome, codes};
ghost use Rattle.bm_base.specs.Words.{IfFound, FitsStamp};
ghost use Rattle.bm_lines.specs.CallText.{has_op, line_text, stamp_text};
ghost use Rattle.bm_lines.specs.FittingNumbers.{FitsWhole};
ghost use Rattle.bm_lines.specs.Parser.Canonical.{Asks, op_text};

use super::canonical_lists::list_then;
use super::canonical_numbers::{after, number_then, small_then};
use super::op::Op;
use bm_base::{BlockId, Call, Entry, Event, Gen, Items, NodeId, Remaining, Stamp, StorageId};
use std::alloc::{AllocError, Global};

/// The call that a line asks for, if the line is in canonical form, as `line_of` writes it, with a
/// frequent op. A line for which this is `None` may still ask for a call.
pub fn canonical_call(alloc: Global, line: &[u8]) -> Result<Option<Call>, AllocError>
    ensures text { IfFound result (λ k. line.now ≡ line_text k) }
    ensures fits { IfFound result FitsWhole }
    ensures has_op { IfFound result (λ k. has_op k ≡ true) }
{
    let Some(behind) = after(line, b"{\"op\":\"") else {
        return Ok(None);
    };
    match op_then(behind) {
        Some((op, fields)) => call_with(alloc, op, fields),
        None => Ok(None),
    }
}

/// The op that these bytes begin with, and the bytes after its quote.
#[inline(always)]
fn op_then(bytes: &[u8]) -> Option<(Op, &[u8])>
    ensures { IfSome result (λ p. bytes.now ≡ (op_text p.0 ++ codes "\"") ++ p.1.now) }
{
    if let Some(fields) = after(bytes, b"received\"") {
        return Some((Op::Received, fields));
    }
    if let Some(fields) = after(bytes, b"add\"") {
        return Some((Op::Add, fields));
    }
    if let Some(fields) = after(bytes, b"deleted\"") {
        return Some((Op::Deleted, fields));
    }
    if let Some(fields) = after(bytes, b"list_places\"") {
        return Some((Op::ListPlaces, fields));
    }
    if let Some(fields) = after(bytes, b"heartbeat\"") {
        return Some((Op::Heartbeat, fields));
    }
    rare_op_then(bytes)
}

#[inline(always)]
fn rare_op_then(bytes: &[u8]) -> Option<(Op, &[u8])>
    ensures { IfSome result (λ p. bytes.now ≡ (op_text p.0 ++ codes "\"") ++ p.1.now) }
{
    if let Some(fields) = after(bytes, b"report\"") {
        return Some((Op::Report, fields));
    }
    if let Some(fields) = after(bytes, b"delete\"") {
        return Some((Op::Delete, fields));
    }
    if let Some(fields) = after(bytes, b"corrupt\"") {
        return Some((Op::Corrupt, fields));
    }
    if let Some(fields) = after(bytes, b"restamp\"") {
        return Some((Op::Restamp, fields));
    }
    if let Some(fields) = after(bytes, b"set_replication\"") {
        return Some((Op::SetReplication, fields));
    }
    let fields = after(bytes, b"level\"")?;
    Some((Op::Level, fields))
}

/// The call of this op with these fields, which end the line.
#[inline(always)]
fn call_with(alloc: Global, op: Op, fields: &[u8]) -> Result<Option<Call>, AllocError>
    ensures { IfFound result (Asks (op_text op) fields.now) }
{
    match op {
        Op::Add => Ok(add(fields)),
        Op::Received => Ok(read_received(fields)),
        Op::Deleted => Ok(read_deleted(fields)),
        Op::Corrupt => Ok(corrupt(fields)),
        Op::Delete => Ok(delete(fields)),
        Op::SetReplication => Ok(set_replication(fields)),
        Op::Restamp => Ok(restamp(fields)),
        Op::Report => report(alloc, fields),
        Op::Heartbeat => heartbeat(alloc, fields),
        Op::ListPlaces => Ok(places(fields)),
        Op::Level => Ok(level(fields)),
        _ => Ok(None),
    }
}

pub fn add(fields: &[u8]) -> Option<Call>
    ensures { IfSome result (λ k. Asks (codes "add") fields.now k) }
{
    let (id, fields) = number_then(fields, b",\"id\":")?;
    let Some((stamp, fields)) = stamp_then(fields) else {
        return None;
    };
    let (repl, fields) = small_then(fields, b",\"repl\":")?;
    is_end(fields).then_some(Call::Apply(Event::AddBlock {
        id: BlockId(id),
        stamp,
        repl,
    }))
}

fn read_received(fields: &[u8]) -> Option<Call>
    ensures { IfSome result (λ k. Asks (codes "received") fields.now k) }
{
    let (storage, fields) = small_then(fields, b",\"storage\":")?;
    let (id, fields) = number_then(fields, b",\"id\":")?;
    let Some((stamp, fields)) = stamp_then(fields) else {
        return None;
    };
    is_end(fields).then_some(Call::Apply(Event::Received {
        storage: StorageId(storage),
        id: BlockId(id),
        stamp,
    }))
}

fn read_deleted(fields: &[u8]) -> Option<Call>
    ensures { IfSome result (λ k. Asks (codes "deleted") fields.now k) }
{
    let (storage, fields) = small_then(fields, b",\"storage\":")?;
    let (id, fields) = number_then(fields, b",\"id\":")?;
    is_end(fields).then_some(Call::Apply(Event::Deleted {
        storage: StorageId(storage),
        id: BlockId(id),
    }))
}

pub fn corrupt(fields: &[u8]) -> Option<Call>
    ensures { IfSome result (λ k. Asks (codes "corrupt") fields.now k) }
{
    let (storage, fields) = small_then(fields, b",\"storage\":")?;
    let (id, fields) = number_then(fields, b",\"id\":")?;
    is_end(fields).then_some(Call::Apply(Event::Corrupt {
        storage: StorageId(storage),
        id: BlockId(id),
    }))
}

pub fn delete(fields: &[u8]) -> Option<Call>
    ensures { IfSome result (λ k. Asks (codes "delete") fields.now k) }
{
    let (id, fields) = number_then(fields, b",\"id\":")?;
    is_end(fields).then_some(Call::Apply(Event::DeleteBlock { id: BlockId(id) }))
}

pub fn set_replication(fields: &[u8]) -> Option<Call>
    ensures { IfSome result (λ k. Asks (codes "set_replication") fields.now k) }
{
    let (id, fields) = number_then(fields, b",\"id\":")?;
    let (repl, fields) = small_then(fields, b",\"repl\":")?;
    is_end(fields).then_some(Call::Apply(Event::SetReplication {
        id: BlockId(id),
        repl,
    }))
}

pub fn restamp(fields: &[u8]) -> Option<Call>
    ensures { IfSome result (λ k. Asks (codes "restamp") fields.now k) }
{
    let (id, fields) = number_then(fields, b",\"id\":")?;
    let Some((stamp, fields)) = stamp_then(fields) else {
        return None;
    };
    is_end(fields).then_some(Call::Apply(Event::Restamp {
        id: BlockId(id),
        stamp,
    }))
}

pub fn places(fields: &[u8]) -> Option<Call>
    ensures { IfSome result (λ k. Asks (codes "list_places") fields.now k) }
{
    let (id, fields) = number_then(fields, b",\"id\":")?;
    is_end(fields).then_some(Call::Places(BlockId(id)))
}

pub fn level(fields: &[u8]) -> Option<Call>
    ensures { IfSome result (λ k. Asks (codes "level") fields.now k) }
{
    let (id, fields) = number_then(fields, b",\"id\":")?;
    is_end(fields).then_some(Call::LevelOf(BlockId(id)))
}

pub fn report(alloc: Global, fields: &[u8]) -> Result<Option<Call>, AllocError>
    ensures { IfFound result (Asks (codes "report") fields.now) }
{
    let Some((storage, fields)) = small_then(fields, b",\"storage\":") else {
        return Ok(None);
    };
    let Some((entries, end)) = list_then::<Entry>(alloc, fields, b"blocks")? else {
        return Ok(None);
    };
    if !is_end(end) {
        return Ok(None);
    }
    Ok(Some(Call::Apply(Event::FullReport {
        storage: StorageId(storage),
        entries: Items::from_vec(entries),
    })))
}

pub fn heartbeat(alloc: Global, fields: &[u8]) -> Result<Option<Call>, AllocError>
    ensures { IfFound result (Asks (codes "heartbeat") fields.now) }
{
    let Some((node, fields)) = small_then(fields, b",\"node\":") else {
        return Ok(None);
    };
    let Some((remaining, end)) = list_then::<Remaining>(alloc, fields, b"remaining")? else {
        return Ok(None);
    };
    if !is_end(end) {
        return Ok(None);
    }
    Ok(Some(Call::Apply(Event::Heartbeat {
        node: NodeId(node),
        remaining: Items::from_vec(remaining),
    })))
}

/// The fields of a stamp, and the bytes after them.
#[inline(always)]
fn stamp_then(fields: &[u8]) -> Option<(Stamp, &[u8])>
    ensures text { IfSome result (λ p. fields.now ≡ stamp_text p.0 ++ p.1.now) }
    ensures fits { IfSome result (λ p. FitsStamp p.0) }
{
    let (generation, fields) = number_then(fields, b",\"gen\":")?;
    let (len, fields) = number_then(fields, b",\"len\":")?;
    let generation = Gen(generation);
    Some((Stamp { generation, len }, fields))
}

/// Whether this is the end of an object.
#[inline(always)]
fn is_end(fields: &[u8]) -> bool
    ensures { result ≡ true → fields.now ≡ codes "}" }
{
    fields == b"}".as_slice()
}
