// The list of a question, copied out as rows.
ghost use Rattle.std.specs.Prelude.{◌≡◌, ◌++◌, length, take, drop, min};
ghost use Rattle.puljemrod.specs.ListRows.{replica_row, pair_row, number_row, tag_number, replicas_by_answer, pairs_by_answer, numbers_by_answer, replicas_in, pairs_in, numbers_in};

use crate::copies::{Row, copy_list};
use crate::handle::Slot;
use bm_answers::LineAnswer;
use bm_base::{Answer, BlockId, Replica, ReplicaId, StorageId, Tag};
use std::alloc::Global;

/// A replica, with the number of its tag.
#[repr(C)]
#[derive(Clone, Copy)]
pub struct ReplicaRow {
    pub block: u64,
    pub storage: u32,
    pub tag: u32,
}

/// A block and a storage.
#[repr(C)]
#[derive(Clone, Copy)]
pub struct PairRow {
    pub block: u64,
    pub storage: u32,
}

fn tag_number(tag: Tag) -> u32
    ensures { result ≡ tag_number tag }
{
    match tag {
        Tag::Good => 0,
        Tag::Stale => 1,
        Tag::Bad => 2,
        Tag::Stray => 3,
    }
}

impl Row<(), Replica> for ReplicaRow {
    ghost row_of = { replica_row };

    fn of(_common: (), replica: &Replica) -> Self {
        ReplicaRow {
            block: replica.block.0,
            storage: replica.storage.0,
            tag: tag_number(replica.tag),
        }
    }
}

impl Row<(), ReplicaId> for PairRow {
    ghost row_of = { pair_row };

    fn of(_common: (), replica: &ReplicaId) -> Self {
        PairRow {
            block: replica.block.0,
            storage: replica.storage.0,
        }
    }
}

impl Row<(), BlockId> for u64 {
    ghost row_of = { number_row };

    fn of(_common: (), id: &BlockId) -> Self {
        id.0
    }
}

impl Row<(), StorageId> for u64 {
    ghost row_of = { number_row };

    fn of(_common: (), storage: &StorageId) -> Self {
        storage.0 as u64
    }
}

/// Copies the replicas of the stored list from an index on, up to the end of the list or of the
/// array, and returns how many it copied.
#[unsafe(no_mangle)]
pub extern "C" fn puljemrod_replica_rows(
    alloc: Global,
    slot: &mut Slot,
    from: usize,
    out: &mut [ReplicaRow],
) -> usize
    ensures count { result
        ≡ min (length out.old) (length (drop from (replicas_in slot.old.handle.kept))) }
    ensures copied { out.new
        ≡ take result (drop from (replicas_in slot.old.handle.kept)) ++ drop result out.old }
    ensures unchanged { slot.new.handle.kept ≡ slot.old.handle.kept }
{
    let Some(kept) = slot.take(alloc) else {
        return 0;
    };
    let count = copy_replicas(&kept.answer, from, out);
    slot.put(kept);
    count
}

/// Copies the blocks and storages of the stored list from an index on, up to the end of the list or
/// of the array, and returns how many it copied.
#[unsafe(no_mangle)]
pub extern "C" fn puljemrod_pair_rows(
    alloc: Global,
    slot: &mut Slot,
    from: usize,
    out: &mut [PairRow],
) -> usize
    ensures count { result
        ≡ min (length out.old) (length (drop from (pairs_in slot.old.handle.kept))) }
    ensures copied { out.new
        ≡ take result (drop from (pairs_in slot.old.handle.kept)) ++ drop result out.old }
    ensures unchanged { slot.new.handle.kept ≡ slot.old.handle.kept }
{
    let Some(kept) = slot.take(alloc) else {
        return 0;
    };
    let count = copy_pairs(&kept.answer, from, out);
    slot.put(kept);
    count
}

/// Copies the numbers of the stored list, blocks or storages, from an index on, up to the end of
/// the list or of the array. Returns how many it copied.
#[unsafe(no_mangle)]
pub extern "C" fn puljemrod_number_rows(
    alloc: Global,
    slot: &mut Slot,
    from: usize,
    out: &mut [u64],
) -> usize
    ensures count { result
        ≡ min (length out.old) (length (drop from (numbers_in slot.old.handle.kept))) }
    ensures copied { out.new
        ≡ take result (drop from (numbers_in slot.old.handle.kept)) ++ drop result out.old }
    ensures unchanged { slot.new.handle.kept ≡ slot.old.handle.kept }
{
    let Some(kept) = slot.take(alloc) else {
        return 0;
    };
    let count = copy_numbers(&kept.answer, from, out);
    slot.put(kept);
    count
}

fn copy_replicas(answer: &Option<LineAnswer>, from: usize, out: &mut [ReplicaRow]) -> usize
    ensures count { result ≡ min (length out.old) (length (drop from (replicas_by_answer answer.now))) }
    ensures copied { out.new ≡ take result (drop from (replicas_by_answer answer.now)) ++ drop result out.old }
{
    match answer {
        Some(LineAnswer::Answered(_, Answer::Replicas(replicas))) => {
            copy_list((), replicas.as_slice(), from, out)
        }
        _ => 0,
    }
}

fn copy_pairs(answer: &Option<LineAnswer>, from: usize, out: &mut [PairRow]) -> usize
    ensures count { result ≡ min (length out.old) (length (drop from (pairs_by_answer answer.now))) }
    ensures copied { out.new ≡ take result (drop from (pairs_by_answer answer.now)) ++ drop result out.old }
{
    match answer {
        Some(LineAnswer::Answered(_, Answer::ReplicaIds(replicas))) => {
            copy_list((), replicas.as_slice(), from, out)
        }
        _ => 0,
    }
}

fn copy_numbers(answer: &Option<LineAnswer>, from: usize, out: &mut [u64]) -> usize
    ensures count { result ≡ min (length out.old) (length (drop from (numbers_by_answer answer.now))) }
    ensures copied { out.new ≡ take result (drop from (numbers_by_answer answer.now)) ++ drop result out.old }
{
    match answer {
        Some(LineAnswer::Answered(_, Answer::Blocks(blocks))) => {
            copy_list((), blocks.as_slice(), from, out)
        }
        Some(LineAnswer::Answered(_, Answer::Storages(storages))) => {
            copy_list((), storages.as_slice(), from, out)
        }
        _ => 0,
    }
}
