// The events, each by a function of its own. There is no safe mode: a replica that is reported
// before its block is added is stray, and the next round orders its delete.
ghost use Rattle.std.specs.Prelude.{map};
ghost use Rattle.puljemrod.specs.Calls.{AfterEvent, AfterListed, AfterBeat};
ghost use Rattle.puljemrod.specs.Rows.{entry_of, remaining_of, stamp};
ghost use Rattle.bm_base.specs.declared.event.Event.TheVariants as event;

use crate::calls::{apply, apply_made};
use crate::codes::CLOSED;
use crate::handle::Slot;
use crate::handle_state::take_heartbeat;
use crate::rows::{EntryRow, RemainingRow, full_report, register, stamp};
use bm_base::{BlockId, Event, NodeId, StorageId};
use std::alloc::Global;

/// A DataNode comes with its storages.
#[unsafe(no_mangle)]
pub extern "C" fn puljemrod_register(
    alloc: Global,
    slot: &mut Slot,
    node: u32,
    rack: u32,
    storages: &[u32],
) -> u32
    ensures { AfterListed slot.old.handle.kept (event.Register node rack storages.now) slot.new.handle.kept result }
{
    apply_made(alloc, slot, register(alloc, node, rack, storages))
}

/// A DataNode is dead.
#[unsafe(no_mangle)]
pub extern "C" fn puljemrod_dead(alloc: Global, slot: &mut Slot, node: u32) -> u32
    ensures { AfterEvent slot.old.handle.kept (event.Dead node) slot.new.handle.kept result }
{
    apply(alloc, slot, Event::Dead { node: NodeId(node) })
}

/// A storage has failed.
#[unsafe(no_mangle)]
pub extern "C" fn puljemrod_storage_failed(alloc: Global, slot: &mut Slot, storage: u32) -> u32
    ensures { AfterEvent slot.old.handle.kept (event.StorageFailed storage) slot.new.handle.kept result }
{
    apply(
        alloc,
        slot,
        Event::StorageFailed {
            storage: StorageId(storage),
        },
    )
}

/// A DataNode is to be decommissioned.
#[unsafe(no_mangle)]
pub extern "C" fn puljemrod_drain(alloc: Global, slot: &mut Slot, node: u32) -> u32
    ensures { AfterEvent slot.old.handle.kept (event.Drain node) slot.new.handle.kept result }
{
    apply(alloc, slot, Event::Drain { node: NodeId(node) })
}

/// A DataNode is not to be decommissioned after all.
#[unsafe(no_mangle)]
pub extern "C" fn puljemrod_undrain(alloc: Global, slot: &mut Slot, node: u32) -> u32
    ensures { AfterEvent slot.old.handle.kept (event.Undrain node) slot.new.handle.kept result }
{
    apply(alloc, slot, Event::Undrain { node: NodeId(node) })
}

/// The free bytes of storages of a DataNode.
#[unsafe(no_mangle)]
pub extern "C" fn puljemrod_heartbeat(
    alloc: Global,
    slot: &mut Slot,
    node: u32,
    remaining: &[RemainingRow],
) -> u32
    ensures { AfterBeat slot.old.handle.kept node (map remaining_of remaining.now) slot.new.handle.kept result }
{
    let Some(mut kept) = slot.take(alloc) else {
        return CLOSED;
    };
    let code = take_heartbeat(alloc, &mut kept, node, remaining);
    slot.put(kept);
    code
}

/// A new block, with `repl` wanted replicas.
#[unsafe(no_mangle)]
pub extern "C" fn puljemrod_add_block(
    alloc: Global,
    slot: &mut Slot,
    id: u64,
    generation: u64,
    len: u64,
    repl: u32,
) -> u32
    ensures { AfterEvent slot.old.handle.kept (event.AddBlock id (stamp generation len) repl) slot.new.handle.kept result }
{
    apply(
        alloc,
        slot,
        Event::AddBlock {
            id: BlockId(id),
            stamp: stamp(generation, len),
            repl,
        },
    )
}

/// A block belongs to no file any more.
#[unsafe(no_mangle)]
pub extern "C" fn puljemrod_delete_block(alloc: Global, slot: &mut Slot, id: u64) -> u32
    ensures { AfterEvent slot.old.handle.kept (event.DeleteBlock id) slot.new.handle.kept result }
{
    apply(alloc, slot, Event::DeleteBlock { id: BlockId(id) })
}

/// Another number of replicas is wanted.
#[unsafe(no_mangle)]
pub extern "C" fn puljemrod_set_replication(
    alloc: Global,
    slot: &mut Slot,
    id: u64,
    repl: u32,
) -> u32
    ensures { AfterEvent slot.old.handle.kept (event.SetReplication id repl) slot.new.handle.kept result }
{
    apply(
        alloc,
        slot,
        Event::SetReplication {
            id: BlockId(id),
            repl,
        },
    )
}

/// A block has a new version.
#[unsafe(no_mangle)]
pub extern "C" fn puljemrod_restamp(
    alloc: Global,
    slot: &mut Slot,
    id: u64,
    generation: u64,
    len: u64,
) -> u32
    ensures { AfterEvent slot.old.handle.kept (event.Restamp id (stamp generation len)) slot.new.handle.kept result }
{
    apply(
        alloc,
        slot,
        Event::Restamp {
            id: BlockId(id),
            stamp: stamp(generation, len),
        },
    )
}

/// A DataNode has received a replica.
#[unsafe(no_mangle)]
pub extern "C" fn puljemrod_received(
    alloc: Global,
    slot: &mut Slot,
    storage: u32,
    id: u64,
    generation: u64,
    len: u64,
) -> u32
    ensures { AfterEvent slot.old.handle.kept (event.Received storage id (stamp generation len)) slot.new.handle.kept result }
{
    apply(
        alloc,
        slot,
        Event::Received {
            storage: StorageId(storage),
            id: BlockId(id),
            stamp: stamp(generation, len),
        },
    )
}

/// A DataNode has deleted a replica.
#[unsafe(no_mangle)]
pub extern "C" fn puljemrod_deleted(alloc: Global, slot: &mut Slot, storage: u32, id: u64) -> u32
    ensures { AfterEvent slot.old.handle.kept (event.Deleted storage id) slot.new.handle.kept result }
{
    apply(
        alloc,
        slot,
        Event::Deleted {
            storage: StorageId(storage),
            id: BlockId(id),
        },
    )
}

/// A replica was found corrupt.
#[unsafe(no_mangle)]
pub extern "C" fn puljemrod_corrupt(alloc: Global, slot: &mut Slot, storage: u32, id: u64) -> u32
    ensures { AfterEvent slot.old.handle.kept (event.Corrupt storage id) slot.new.handle.kept result }
{
    apply(
        alloc,
        slot,
        Event::Corrupt {
            storage: StorageId(storage),
            id: BlockId(id),
        },
    )
}

/// All replicas on a storage; the last entry of a block counts.
#[unsafe(no_mangle)]
pub extern "C" fn puljemrod_full_report(
    alloc: Global,
    slot: &mut Slot,
    storage: u32,
    entries: &[EntryRow],
) -> u32
    ensures { AfterListed slot.old.handle.kept (event.FullReport storage (map entry_of entries.now)) slot.new.handle.kept result }
{
    apply_made(alloc, slot, full_report(alloc, storage, entries))
}
