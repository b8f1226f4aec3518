// The calls that report the incidents to the manager.
ghost use Rattle.std.specs.Prelude.{◌≡◌, ◌*◌, ◌++◌, OnOk, IfOk, map};
ghost use Rattle.cluster_simulation.specs.Incidents.{numbers_where, any_kills_node, fails_alone, drains_alive, death, failure, drain, reported};

use crate::incident::{Incident, any_drains, any_kills, any_kills_node};
use crate::shape::Shape;
use bm_base::{Call, Event, NodeId, StorageId};
use std::alloc::{AllocError, Global};

/// Returns a death for each lost node, a failure for each disk lost without its node, and a drain
/// for each node that drains and is not lost. Each comes once, however many incidents name it.
pub fn calls_of(
    alloc: Global,
    shape: Shape,
    incidents: &[Incident],
) -> Result<Vec<Call>, AllocError>
    ensures { IfOk result (λ calls. calls.items ≡ reported incidents.now shape) }
{
    let mut calls = Vec::new(alloc);
    push_deaths(&mut calls, shape, incidents)?;
    push_failures(&mut calls, shape, incidents)?;
    push_drains(&mut calls, shape, incidents)?;
    Ok(calls)
}

fn push_deaths(
    calls: &mut Vec<Call>,
    shape: Shape,
    incidents: &[Incident],
) -> Result<(), AllocError>
    ensures { OnOk result (calls.new.items ≡ calls.old.items
        ++ map death (numbers_where (any_kills_node incidents.now shape) shape.nodes)) }
{
    for node in 0..shape.nodes {
        if any_kills_node(incidents, shape, node) {
            calls.push(Call::Apply(Event::Dead { node: NodeId(node) }))?;
        }
    }
    Ok(())
}

fn push_failures(
    calls: &mut Vec<Call>,
    shape: Shape,
    incidents: &[Incident],
) -> Result<(), AllocError>
    ensures { OnOk result (calls.new.items ≡ calls.old.items
        ++ map failure (numbers_where (fails_alone incidents.now shape) (shape.nodes * shape.storages))) }
{
    for storage in 0..shape.all_storages() {
        if fails_alone(incidents, shape, storage) {
            calls.push(Call::Apply(Event::StorageFailed {
                storage: StorageId(storage),
            }))?;
        }
    }
    Ok(())
}

fn push_drains(
    calls: &mut Vec<Call>,
    shape: Shape,
    incidents: &[Incident],
) -> Result<(), AllocError>
    ensures { OnOk result (calls.new.items ≡ calls.old.items
        ++ map drain (numbers_where (drains_alive incidents.now shape) shape.nodes)) }
{
    for node in 0..shape.nodes {
        if drains_alive(incidents, shape, node) {
            calls.push(Call::Apply(Event::Drain { node: NodeId(node) }))?;
        }
    }
    Ok(())
}

/// Whether the disk is lost and its node is not.
fn fails_alone(incidents: &[Incident], shape: Shape, storage: u32) -> bool
    ensures { result ≡ fails_alone incidents.now shape storage }
{
    any_kills(incidents, shape, storage)
        && !any_kills_node(incidents, shape, shape.node_of(storage))
}

/// Whether the node drains and is not lost.
fn drains_alive(incidents: &[Incident], shape: Shape, node: u32) -> bool
    ensures { result ≡ drains_alive incidents.now shape node }
{
    any_drains(incidents, node) && !any_kills_node(incidents, shape, node)
}
