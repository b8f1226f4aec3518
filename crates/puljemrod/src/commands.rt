// A round by functions of its own: its commands are kept, and copied out as rows.
ghost use Rattle.std.specs.Prelude.{◌≡◌, ◌++◌, ◌==◌, ◌-◌, ◌^◌, if◌then◌else◌, length, take, drop, min, flat_map};
ghost use Rattle.bm_base.specs.declared.call.Call.TheVariants.{Round};
ghost use Rattle.puljemrod.specs.Calls.{AfterCall};
ghost use Rattle.puljemrod.specs.CommandRows.{copy_row, delete_row, copies_for, deletes_for, copies_in, deletes_in, round_in, nodes_by_answer, round_by_answer};

use crate::calls::make_call;
use crate::copies::{Row, copy_rows};
use crate::handle::Slot;
use bm_answers::LineAnswer;
use bm_base::{Answer, Call, Delete, NodeCommands, NodeId, Transfer};
use std::alloc::Global;

/// Copy a block from a storage of a node to another storage.
#[repr(C)]
#[derive(Clone, Copy)]
pub struct CopyRow {
    pub node: u32,
    pub source: u32,
    pub target: u32,
    pub block: u64,
    pub generation: u64,
    pub len: u64,
}

/// Delete a block from a storage of a node.
#[repr(C)]
#[derive(Clone, Copy)]
pub struct DeleteRow {
    pub node: u32,
    pub storage: u32,
    pub block: u64,
}

impl Row<NodeId, Transfer> for CopyRow {
    ghost row_of = { copy_row };

    fn of(node: NodeId, transfer: &Transfer) -> Self {
        CopyRow {
            node: node.0,
            source: transfer.source.0,
            target: transfer.target.0,
            block: transfer.block.0,
            generation: transfer.stamp.generation.0,
            len: transfer.stamp.len,
        }
    }
}

impl Row<NodeId, Delete> for DeleteRow {
    ghost row_of = { delete_row };

    fn of(node: NodeId, delete: &Delete) -> Self {
        DeleteRow {
            node: node.0,
            storage: delete.storage.0,
            block: delete.block.0,
        }
    }
}

/// Makes a round, and keeps its commands.
#[unsafe(no_mangle)]
pub extern "C" fn puljemrod_round(
    alloc: Global,
    slot: &mut Slot,
    round: &mut u64,
    copies: &mut u64,
    deletes: &mut u64,
) -> u32
    ensures called { AfterCall slot.old.handle.kept Round slot.new.handle.kept result }
    ensures round { round.new ≡ (if result == 0 then round_in slot.new.handle.kept else round.old) }
    ensures copies { copies.new
        ≡ (if result == 0 then min (2 ^ 64 - 1) (length (copies_in slot.new.handle.kept)) else copies.old) }
    ensures deletes { deletes.new
        ≡ (if result == 0 then min (2 ^ 64 - 1) (length (deletes_in slot.new.handle.kept)) else deletes.old) }
{
    let code = make_call(alloc, slot, Call::Round);
    if code == 0 {
        count_commands(alloc, slot, round, copies, deletes);
    }
    code
}

fn count_commands(
    alloc: Global,
    slot: &mut Slot,
    round: &mut u64,
    copies: &mut u64,
    deletes: &mut u64,
)
    ensures round { round.new ≡ round_in slot.old.handle.kept }
    ensures copies { copies.new ≡ min (2 ^ 64 - 1) (length (copies_in slot.old.handle.kept)) }
    ensures deletes { deletes.new ≡ min (2 ^ 64 - 1) (length (deletes_in slot.old.handle.kept)) }
    ensures unchanged { slot.new.handle.kept ≡ slot.old.handle.kept }
{
    *round = 0;
    *copies = 0;
    *deletes = 0;
    if let Some(kept) = slot.take(alloc) {
        let nodes = nodes_by_answer(&kept.answer);
        *round = round_by_answer(&kept.answer);
        *copies = count_copies(nodes);
        *deletes = count_deletes(nodes);
        slot.put(kept);
    }
}

fn round_by_answer(answer: &Option<LineAnswer>) -> u64
    ensures { result ≡ round_by_answer answer.now }
{
    match answer {
        Some(LineAnswer::Answered(_, Answer::Commanded(commands))) => commands.round,
        _ => 0,
    }
}

fn nodes_by_answer(answer: &Option<LineAnswer>) -> &[NodeCommands]
    ensures { result.now ≡ nodes_by_answer answer.now }
{
    match answer {
        Some(LineAnswer::Answered(_, Answer::Commanded(commands))) => commands.nodes.as_slice(),
        _ => &[],
    }
}

fn count_copies(nodes: &[NodeCommands]) -> u64
    ensures { result ≡ min (2 ^ 64 - 1) (length (flat_map copies_for nodes.now)) }
{
    let mut count = 0u64;
    for one in nodes {
        count = count.saturating_add(one.transfers.len() as u64);
    }
    count
}

fn count_deletes(nodes: &[NodeCommands]) -> u64
    ensures { result ≡ min (2 ^ 64 - 1) (length (flat_map deletes_for nodes.now)) }
{
    let mut count = 0u64;
    for one in nodes {
        count = count.saturating_add(one.deletes.len() as u64);
    }
    count
}

/// Copies the copy commands from an index on, up to the end of the list or of the array, and
/// returns how many it copied.
#[unsafe(no_mangle)]
pub extern "C" fn puljemrod_copies(
    alloc: Global,
    slot: &mut Slot,
    from: usize,
    out: &mut [CopyRow],
) -> usize
    ensures count { result
        ≡ min (length out.old) (length (drop from (copies_in slot.old.handle.kept))) }
    ensures copied { out.new
        ≡ take result (drop from (copies_in slot.old.handle.kept)) ++ drop result out.old }
    ensures unchanged { slot.new.handle.kept ≡ slot.old.handle.kept }
{
    let Some(kept) = slot.take(alloc) else {
        return 0;
    };
    let count = copy_copies(nodes_by_answer(&kept.answer), from, out);
    slot.put(kept);
    count
}

/// Copies the delete commands from an index on, up to the end of the list or of the array, and
/// returns how many it copied.
#[unsafe(no_mangle)]
pub extern "C" fn puljemrod_deletes(
    alloc: Global,
    slot: &mut Slot,
    from: usize,
    out: &mut [DeleteRow],
) -> usize
    ensures count { result
        ≡ min (length out.old) (length (drop from (deletes_in slot.old.handle.kept))) }
    ensures copied { out.new
        ≡ take result (drop from (deletes_in slot.old.handle.kept)) ++ drop result out.old }
    ensures unchanged { slot.new.handle.kept ≡ slot.old.handle.kept }
{
    let Some(kept) = slot.take(alloc) else {
        return 0;
    };
    let count = copy_deletes(nodes_by_answer(&kept.answer), from, out);
    slot.put(kept);
    count
}

fn copy_copies(nodes: &[NodeCommands], from: usize, out: &mut [CopyRow]) -> usize
    ensures count { result ≡ min (length out.old) (length (drop from (flat_map copies_for nodes.now))) }
    ensures copied { out.new ≡ take result (drop from (flat_map copies_for nodes.now)) ++ drop result out.old }
{
    let mut left = from;
    let mut count = 0;
    for one in nodes {
        let transfers = one.transfers.as_slice();
        count += copy_rows(one.node, transfers, left, &mut out[count..]);
        left = left.saturating_sub(transfers.len());
    }
    count
}

fn copy_deletes(nodes: &[NodeCommands], from: usize, out: &mut [DeleteRow]) -> usize
    ensures count { result ≡ min (length out.old) (length (drop from (flat_map deletes_for nodes.now))) }
    ensures copied { out.new ≡ take result (drop from (flat_map deletes_for nodes.now)) ++ drop result out.old }
{
    let mut left = from;
    let mut count = 0;
    for one in nodes {
        let deletes = one.deletes.as_slice();
        count += copy_rows(one.node, deletes, left, &mut out[count..]);
        left = left.saturating_sub(deletes.len());
    }
    count
}
