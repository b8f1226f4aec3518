// The questions, each by a function of its own.
ghost use Rattle.puljemrod.specs.StoredNumbers.{AfterQuestion};
ghost use Rattle.bm_base.specs.declared.call.Call.TheVariants as call;

use crate::calls::make_call;
use crate::handle::Slot;
use crate::stored_number::stored_number;
use bm_base::{BlockId, Call, NodeId, StorageId};
use std::alloc::Global;

fn ask(alloc: Global, slot: &mut Slot, call: Call, number: &mut u64) -> u32
    ensures { AfterQuestion slot.old.handle.kept call slot.new.handle.kept result number.old number.new }
{
    let code = make_call(alloc, slot, call);
    if code == 0 {
        *number = stored_number(alloc, slot);
    }
    code
}

/// The queue of a block, 0 to 4, or `NO_LEVEL`.
#[unsafe(no_mangle)]
pub extern "C" fn puljemrod_level(alloc: Global, slot: &mut Slot, id: u64, level: &mut u64) -> u32
    ensures { AfterQuestion slot.old.handle.kept (call.LevelOf id) slot.new.handle.kept result level.old level.new }
{
    ask(alloc, slot, Call::LevelOf(BlockId(id)), level)
}

/// Whether a DataNode is decommissioned and can be removed: 1 or 0.
#[unsafe(no_mangle)]
pub extern "C" fn puljemrod_retired(
    alloc: Global,
    slot: &mut Slot,
    node: u32,
    is_retired: &mut u64,
) -> u32
    ensures { AfterQuestion slot.old.handle.kept (call.Retired node) slot.new.handle.kept result is_retired.old is_retired.new }
{
    ask(alloc, slot, Call::Retired(NodeId(node)), is_retired)
}

/// The number of accepted calls.
#[unsafe(no_mangle)]
pub extern "C" fn puljemrod_calls(alloc: Global, slot: &mut Slot, calls: &mut u64) -> u32
    ensures { AfterQuestion slot.old.handle.kept call.Calls slot.new.handle.kept result calls.old calls.new }
{
    ask(alloc, slot, Call::Calls, calls)
}

/// The number of the last round.
#[unsafe(no_mangle)]
pub extern "C" fn puljemrod_rounds(alloc: Global, slot: &mut Slot, rounds: &mut u64) -> u32
    ensures { AfterQuestion slot.old.handle.kept call.Rounds slot.new.handle.kept result rounds.old rounds.new }
{
    ask(alloc, slot, Call::Rounds, rounds)
}

/// The list of replicas, which the handle keeps, and their number.
#[unsafe(no_mangle)]
pub extern "C" fn puljemrod_replicas(alloc: Global, slot: &mut Slot, count: &mut u64) -> u32
    ensures { AfterQuestion slot.old.handle.kept call.Replicas slot.new.handle.kept result count.old count.new }
{
    ask(alloc, slot, Call::Replicas, count)
}

/// The corrupt replicas.
#[unsafe(no_mangle)]
pub extern "C" fn puljemrod_corrupt_replicas(alloc: Global, slot: &mut Slot, count: &mut u64) -> u32
    ensures { AfterQuestion slot.old.handle.kept call.Corrupt slot.new.handle.kept result count.old count.new }
{
    ask(alloc, slot, Call::Corrupt, count)
}

/// The replicas in excess.
#[unsafe(no_mangle)]
pub extern "C" fn puljemrod_excess_replicas(alloc: Global, slot: &mut Slot, count: &mut u64) -> u32
    ensures { AfterQuestion slot.old.handle.kept call.Excess slot.new.handle.kept result count.old count.new }
{
    ask(alloc, slot, Call::Excess, count)
}

/// The missing blocks.
#[unsafe(no_mangle)]
pub extern "C" fn puljemrod_missing_blocks(alloc: Global, slot: &mut Slot, count: &mut u64) -> u32
    ensures { AfterQuestion slot.old.handle.kept call.Missing slot.new.handle.kept result count.old count.new }
{
    ask(alloc, slot, Call::Missing, count)
}

/// The blocks on a storage.
#[unsafe(no_mangle)]
pub extern "C" fn puljemrod_blocks_on(
    alloc: Global,
    slot: &mut Slot,
    storage: u32,
    count: &mut u64,
) -> u32
    ensures { AfterQuestion slot.old.handle.kept (call.BlocksOn storage) slot.new.handle.kept result count.old count.new }
{
    ask(alloc, slot, Call::BlocksOn(StorageId(storage)), count)
}

/// The storages of a block's good replicas, those in excess too.
#[unsafe(no_mangle)]
pub extern "C" fn puljemrod_places(alloc: Global, slot: &mut Slot, id: u64, count: &mut u64) -> u32
    ensures { AfterQuestion slot.old.handle.kept (call.Places id) slot.new.handle.kept result count.old count.new }
{
    ask(alloc, slot, Call::Places(BlockId(id)), count)
}
