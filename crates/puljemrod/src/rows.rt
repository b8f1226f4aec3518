// Events with a list, whose items C has as rows.
ghost use Rattle.std.specs.Prelude.{◌≡◌, IfOk, map};
ghost use Rattle.bm_base.specs.declared.event.Event.TheVariants.{Register, FullReport};
ghost use Rattle.puljemrod.specs.Rows.{entry_of, remaining_of};

use bm_base::{BlockId, Entry, Event, Gen, Items, NodeId, Rack, Remaining, Stamp, StorageId};
use std::alloc::{AllocError, Global};

/// The blocks from `from` to `to` on a storage, all with one generation and length.
#[repr(C)]
#[derive(Clone, Copy)]
pub struct EntryRow {
    pub from: u64,
    pub to: u64,
    pub generation: u64,
    pub len: u64,
}

/// The free bytes of a storage.
#[repr(C)]
#[derive(Clone, Copy)]
pub struct RemainingRow {
    pub storage: u32,
    pub remaining: u64,
}

pub fn register(alloc: Global, node: u32, rack: u32, storages: &[u32]) -> Result<Event, AllocError>
    ensures { IfOk result (λ event. event ≡ Register node rack storages.now) }
{
    let storages = storages.iter().map(storage_of).collect(alloc)?;
    Ok(Event::Register {
        node: NodeId(node),
        rack: Rack(rack),
        storages: Items::from_vec(storages),
    })
}

pub fn full_report(alloc: Global, storage: u32, rows: &[EntryRow]) -> Result<Event, AllocError>
    ensures { IfOk result (λ event. event ≡ FullReport storage (map entry_of rows.now)) }
{
    let entries = entry_items(alloc, rows)?;
    Ok(Event::FullReport {
        storage: StorageId(storage),
        entries: Items::from_vec(entries),
    })
}

fn storage_of(number: &u32) -> StorageId
    ensures { result ≡ number.now }
{
    StorageId(*number)
}

pub fn remaining_of(row: &RemainingRow) -> Remaining
    ensures { result ≡ remaining_of row.now }
{
    Remaining {
        storage: StorageId(row.storage),
        remaining: row.remaining,
    }
}

fn entry_items(alloc: Global, rows: &[EntryRow]) -> Result<Vec<Entry>, AllocError>
    ensures { IfOk result (λ v. v.items ≡ map entry_of rows.now) }
{
    rows.iter()
        .map(|row| Entry {
            from: BlockId(row.from),
            to: BlockId(row.to),
            stamp: stamp(row.generation, row.len),
        })
        .collect(alloc)
}

pub fn stamp(generation: u64, len: u64) -> Stamp
    ensures { result ≡ record { generation = generation; len = len } }
{
    Stamp {
        generation: Gen(generation),
        len,
    }
}
