// Placement of a new block's replicas: each on another node, on two racks if there are two.
ghost use Rattle.std.specs.Prelude.{◌<◌, IfSome};

use crate::dice::Dice;
use crate::shape::Shape;
use bm_base::StorageId;
use std::alloc::{AllocError, Global};

/// The rack of the next replica.
#[derive(Clone, Copy)]
enum Wish {
    AnyRack,
    OtherThan(u32),
    SameAs(u32),
}

impl Wish {
    /// The first replica may be on any rack, the second is on another one, the third on the rack of
    /// the second; each further one may be on any rack.
    fn after(shape: Shape, nodes: &[u32]) -> Wish {
        match nodes {
            [first] => Wish::OtherThan(shape.rack_of(*first)),
            [_, second] => Wish::SameAs(shape.rack_of(*second)),
            _ => Wish::AnyRack,
        }
    }

    fn is_suitable(&self, rack: u32) -> bool {
        match self {
            Wish::AnyRack => true,
            Wish::OtherThan(other) => rack != *other,
            Wish::SameAs(same) => rack == *same,
        }
    }
}

/// Draws the storages of a new block's replicas: `replication` of them, or one on each node if
/// there are fewer nodes.
pub fn place(
    alloc: Global,
    dice: &mut Dice,
    shape: Shape,
    replication: u32,
) -> Result<Vec<StorageId>, AllocError> {
    let mut nodes = Vec::new(alloc);
    let mut storages = Vec::new(alloc);
    for _ in 0..replication.min(shape.nodes) {
        let start = dice.draw_below(shape.nodes);
        if let Some(node) = next_node(shape, start, nodes.as_slice()) {
            let place = dice.draw_below(shape.storages);
            nodes.push(node)?;
            storages.push(StorageId(shape.storage_at(node, place)))?;
        }
    }
    Ok(storages)
}

/// The node of the next replica: the first suitable one from `start` on, or else the first without
/// a replica.
fn next_node(shape: Shape, start: u32, nodes: &[u32]) -> Option<u32>
    ensures { IfSome result (λ node. node < shape.nodes) }
{
    match free_node(shape, start, nodes, Wish::after(shape, nodes)) {
        Some(node) => Some(node),
        None => free_node(shape, start, nodes, Wish::AnyRack),
    }
}

/// The first suitable node without a replica, from `start` on, cyclically.
fn free_node(shape: Shape, start: u32, nodes: &[u32], wish: Wish) -> Option<u32>
    ensures { IfSome result (λ node. node < shape.nodes) }
{
    for step in 0..shape.nodes {
        let node = start.wrapping_add(step) % shape.nodes;
        if !nodes.contains(&node) && wish.is_suitable(shape.rack_of(node)) {
            return Some(node);
        }
    }
    None
}
