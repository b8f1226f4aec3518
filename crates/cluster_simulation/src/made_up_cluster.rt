// A made-up cluster: its nodes, and the blocks that are placed on them.
ghost use Rattle.std.specs.Prelude.{◌≡◌, ◌∷◌, map, IfOk, OnOk};
ghost use Rattle.cluster_report.specs.Sessions.{IsInStep};
ghost use Rattle.cluster_simulation.specs.NewBlocks.{addition, notice};

use crate::cluster::Cluster;
use crate::dice::Dice;
use crate::nodes::{STAMP, capacity_for, heartbeat, registration};
use crate::options::Options;
use crate::placement::place;
use crate::shape::Shape;
use bm_base::{BlockId, Call, Event, Refusal, StorageId};
use std::alloc::{AllocError, Global};
use std::sync::Wait;
use std::thread::Threads;

/// Registers all nodes, places all blocks, and reports the free bytes.
pub fn make_up_cluster<R: Threads + Wait + Sync>(
    rt: &R,
    alloc: Global,
    cluster: &mut Cluster,
    options: &Options,
    dice: &mut Dice,
) -> Result<(), Refusal>
    requires { IsInStep cluster.old.session }
    ensures { OnOk result (IsInStep cluster.new.session) }
{
    register_nodes(rt, alloc, cluster, options.shape)?;
    place_blocks(rt, alloc, cluster, options, dice)?;
    report_free(rt, alloc, cluster, options)
}

fn register_nodes<R: Threads + Wait + Sync>(
    rt: &R,
    alloc: Global,
    cluster: &mut Cluster,
    shape: Shape,
) -> Result<(), AllocError>
    requires { IsInStep cluster.old.session }
    ensures { OnOk result (IsInStep cluster.new.session) }
{
    for node in 0..shape.nodes {
        let call = registration(alloc, shape, node)?;
        cluster.make(rt, &call)?;
    }
    Ok(())
}

fn place_blocks<R: Threads + Wait + Sync>(
    rt: &R,
    alloc: Global,
    cluster: &mut Cluster,
    options: &Options,
    dice: &mut Dice,
) -> Result<(), AllocError>
    requires { IsInStep cluster.old.session }
    ensures { OnOk result (IsInStep cluster.new.session) }
{
    for number in 0..options.blocks {
        let id = BlockId(u64::from(number));
        place_block(rt, alloc, cluster, options, dice, id)?;
    }
    Ok(())
}

fn place_block<R: Threads + Wait + Sync>(
    rt: &R,
    alloc: Global,
    cluster: &mut Cluster,
    options: &Options,
    dice: &mut Dice,
    id: BlockId,
) -> Result<(), AllocError>
    requires { IsInStep cluster.old.session }
    ensures { OnOk result (IsInStep cluster.new.session) }
{
    let storages = place(alloc, dice, options.shape, options.replication)?;
    let calls = block_calls(alloc, id, options.replication, storages.as_slice())?;
    cluster.make_all(rt, calls.as_slice())
}

/// Adds a new block to a file, with replicas that DataNodes received.
fn block_calls(
    alloc: Global,
    id: BlockId,
    replication: u32,
    storages: &[StorageId],
) -> Result<Vec<Call>, AllocError>
    ensures { IfOk result (λ calls. calls.items
        ≡ addition id replication ∷ map (notice id) storages.now) }
{
    let mut calls = Vec::new(alloc);
    calls.push(Call::Apply(Event::AddBlock {
        id,
        stamp: STAMP,
        repl: replication,
    }))?;
    for storage in storages {
        calls.push(Call::Apply(Event::Received {
            storage: *storage,
            id,
            stamp: STAMP,
        }))?;
    }
    Ok(calls)
}

fn report_free<R: Threads + Wait + Sync>(
    rt: &R,
    alloc: Global,
    cluster: &mut Cluster,
    options: &Options,
) -> Result<(), Refusal>
    requires { IsInStep cluster.old.session }
    ensures { OnOk result (IsInStep cluster.new.session) }
{
    let shape = options.shape;
    let replicas = u64::from(options.blocks) * u64::from(options.replication);
    let capacity = capacity_for(shape, replicas);
    for node in 0..shape.nodes {
        let call = heartbeat(alloc, &cluster.session.manager, shape, capacity, node)?;
        cluster.make(rt, &call)?;
    }
    Ok(())
}
