// Where each storage is, in a table parallel to that of the storages: its node, the rack and
// whether the node drains. So one read answers all that a replica's classification needs.
ghost use Rattle.std.specs.Prelude.{◌≡◌, ◌≤◌, ◌<◌, ℕ, true, length, Some, OnOk, slice_get};
ghost use Rattle.bm_base.specs.declared.storage.StorageInfo.{StorageInfo};
ghost use Rattle.bm_topo.specs.Keys.{HasSmallKeys};
ghost use Rattle.bm_topo.specs.Sound.{cluster_of};
ghost use Rattle.bm_topo.specs.Spots.{AreSpots};
ghost use Rattle.bm_topo.specs.declared.spots.Spot.{Spot};
ghost use Rattle.bm_base.specs.declared.limits.Limits.{Limits};
ghost use Rattle.bm_base.specs.Maps.Map as map;

use crate::index_hints::IndexHints;
use bm_base::{NodeId, Rack, StorageId, StorageInfo};
use bm_maps::NumberMap;
use std::alloc::AllocError;

/// Where a known storage is. A heartbeat changes nothing of it.
#[derive(Clone, Copy)]
pub struct Spot {
    pub storage: StorageId,
    /// Its node.
    pub node: NodeId,
    /// The rack of its node.
    pub rack: Rack,
    /// Whether its node drains.
    pub drains: bool,
}

/// Fills the indices after the last storage.
const NO_SPOT: Spot = Spot {
    storage: StorageId(0),
    node: NodeId(0),
    rack: Rack(0),
    drains: false,
};

/// Makes at least `count` spots, so that a change of the cluster takes no memory for them. The
/// spots that there are stay, also after an `Err`.
pub(crate) fn grow_spots(spots: &mut Vec<Spot>, count: usize) -> Result<(), AllocError>
    ensures enough { OnOk result (count ≤ length spots.new.items) }
    ensures no_fewer { length spots.old.items ≤ length spots.new.items }
    ensures kept { (k : ℕ) (p : Spot) → k < length spots.old.items
        → slice_get spots.new.items k ≡ Some p → slice_get spots.old.items k ≡ Some p }
{
    if count <= spots.len() {
        return Ok(());
    }
    spots.resize(count, NO_SPOT)
}

/// The spot of a storage on an alive node.
pub(crate) fn spot_on(
    storage: StorageId,
    node: NodeId,
    nodes: &NumberMap<Rack>,
    draining: &NumberMap<()>,
    hints: &IndexHints,
) -> Spot
    requires { map.contains_key nodes.now.map node ≡ true }
    ensures storage { result.storage ≡ storage }
    ensures node { result.node ≡ node }
    ensures rack { map.get nodes.now.map node ≡ Some result.rack }
    ensures drains { result.drains ≡ map.contains_key draining.now.map node }
{
    let number = u64::from(node.0);
    let rack = match nodes.get_near(number, hints.of_node(number)) {
        Some(rack) => rack,
        None => unreachable!(),
    };
    Spot {
        storage,
        node,
        rack,
        drains: draining
            .get_near(number, hints.of_draining(number))
            .is_some(),
    }
}

/// Sets the spot of each storage, at its index in the table of the storages. Takes no memory.
pub(crate) fn set_spots(
    spots: &mut Vec<Spot>,
    storages: &NumberMap<StorageInfo>,
    nodes: &NumberMap<Rack>,
    draining: &NumberMap<()>,
    hints: &IndexHints,
)
    requires enough { map.len storages.now.map ≤ length spots.old.items }
    requires small { HasSmallKeys storages.now.map }
    requires alive { (s : ℕ) (i : StorageInfo) → map.get storages.now.map s ≡ Some i
        → map.contains_key nodes.now.map i.node ≡ true }
    ensures each { (limits : Limits) → AreSpots
        (cluster_of limits nodes.now.map draining.now.map storages.now.map)
        spots.new.items (map.len storages.now.map) }
    ensures len { length spots.new.items ≡ length spots.old.items }
{
    set_each(spots.as_mut_slice(), storages, nodes, draining, hints);
}

fn set_each(
    spots: &mut [Spot],
    storages: &NumberMap<StorageInfo>,
    nodes: &NumberMap<Rack>,
    draining: &NumberMap<()>,
    hints: &IndexHints,
)
    requires enough { map.len storages.now.map ≤ length spots.old }
    requires small { HasSmallKeys storages.now.map }
    requires alive { (s : ℕ) (i : StorageInfo) → map.get storages.now.map s ≡ Some i
        → map.contains_key nodes.now.map i.node ≡ true }
    ensures each { (limits : Limits) → AreSpots
        (cluster_of limits nodes.now.map draining.now.map storages.now.map)
        spots.new (map.len storages.now.map) }
    ensures len { length spots.new ≡ length spots.old }
{
    for (index, entry) in storages.entries().iter().enumerate() {
        let storage = StorageId(entry.0 as u32);
        spots[index] = spot_on(storage, entry.1.node, nodes, draining, hints);
    }
}
