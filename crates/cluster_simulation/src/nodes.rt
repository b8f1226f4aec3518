// The DataNodes of a made-up cluster: how they register, and the free bytes of their disks.
ghost use Rattle.std.specs.Prelude.{◌≡◌, ◌<◌, ◌^◌, IfOk};
ghost use Rattle.cluster_simulation.specs.Nodes.{registration, capacity_for, remaining_on, heartbeat};

use crate::shape::Shape;
use bm_base::{Call, Event, Gen, Items, NodeId, Rack, Refusal, Remaining, Stamp, StorageId};
use bm_manager::Manager;
use std::alloc::{AllocError, Global};

/// The stamp and the length of every block.
pub const STAMP: Stamp = Stamp {
    generation: Gen(1),
    len: LENGTH,
};

/// 128 MiB.
const LENGTH: u64 = 128 << 20;

/// The least capacity of a disk in replicas: 4 TiB.
const LEAST_CAPACITY: u64 = 32_768;

/// Registers a node with its storages.
pub fn registration(alloc: Global, shape: Shape, node: u32) -> Result<Call, AllocError>
    requires { node < shape.nodes }
    ensures { IfOk result (λ call. call ≡ registration shape node) }
{
    let mut storages = Vec::new(alloc);
    for place in 0..shape.storages {
        storages.push(StorageId(shape.storage_at(node, place)))?;
    }
    Ok(Call::Apply(Event::Register {
        node: NodeId(node),
        rack: Rack(shape.rack_of(node)),
        storages: Items::from_vec(storages),
    }))
}

/// The heartbeat of a node, with the free bytes of its disks, each of which has this capacity.
pub fn heartbeat(
    alloc: Global,
    manager: &Manager,
    shape: Shape,
    capacity: u64,
    node: u32,
) -> Result<Call, Refusal>
    requires { node < shape.nodes }
    ensures { IfOk result (λ call. call ≡ heartbeat manager.now shape capacity node) }
{
    let mut free = Vec::new(alloc);
    for place in 0..shape.storages {
        let storage = StorageId(shape.storage_at(node, place));
        let remaining = remaining_on(manager, capacity, storage)?;
        free.push(Remaining { storage, remaining })?;
    }
    Ok(Call::Apply(Event::Heartbeat {
        node: NodeId(node),
        remaining: Items::from_vec(free),
    }))
}

/// The free bytes of a disk of this capacity.
fn remaining_on(manager: &Manager, capacity: u64, storage: StorageId) -> Result<u64, Refusal>
    ensures { IfOk result (λ free. free ≡ remaining_on manager.now capacity storage) }
{
    let blocks = manager.blocks_on(storage)?;
    let used = (blocks.as_slice().len() as u64).saturating_mul(LENGTH);
    Ok(capacity.saturating_sub(used))
}

/// The capacity of each disk in bytes: twice its even share of `replicas`, at least 4 TiB.
pub fn capacity_for(shape: Shape, replicas: u64) -> u64
    ensures { replicas < 2 ^ 32 → result ≡ capacity_for shape replicas }
{
    let share = replicas.div_ceil(u64::from(shape.all_storages()).max(1));
    share
        .saturating_mul(2)
        .max(LEAST_CAPACITY)
        .saturating_mul(LENGTH)
}
