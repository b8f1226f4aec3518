// Where a block is held, as far as the class of a target depends on it.
ghost use Rattle.std.specs.Prelude.{◌≡◌};
ghost use Rattle.bm_place.specs.ReplicaSpread as places;

use crate::up_to_two::UpToTwo;
use bm_base::{Rack, StorageId};
use bm_topo::Topology;

/// The racks and the storages that hold a live replica of a block or will, as far as two of each.
#[derive(Clone, Copy)]
pub struct ReplicaSpread {
    pub racks: UpToTwo,
    pub storages: UpToTwo,
}

impl ReplicaSpread {
    /// The racks and storages of these. Iterates once, and takes no memory.
    #[tactic(auto, unfolding(crate::specs::ReplicaSpread::replica_spread_of))]
    pub fn of(held: &[StorageId], topology: &Topology) -> ReplicaSpread
        ensures { result ≡ places.replica_spread_of topology.now.cluster held.now }
    {
        let mut spread = ReplicaSpread {
            racks: UpToTwo::Nothing,
            storages: UpToTwo::Nothing,
        };
        for storage in held {
            spread = spread.with(*storage, topology);
        }
        spread
    }

    fn with(&self, storage: StorageId, topology: &Topology) -> ReplicaSpread
        ensures { result ≡ places.with_storage topology.now.cluster self.now storage }
    {
        let racks = match topology.rack_of(storage) {
            Some(rack) => self.racks.with(rack.0),
            None => self.racks,
        };
        ReplicaSpread {
            racks,
            storages: self.storages.with(storage.0),
        }
    }

    /// The class of a target on this rack, 0 before 1. If the block is held on one rack, another
    /// rack is better. If two storages on two racks hold it, one of these racks is better. Else all
    /// racks are equally good.
    pub fn class_of(&self, rack: Option<Rack>) -> u32
        ensures { result ≡ places.class_on self.now.racks (places.are_two self.now.storages) rack }
    {
        match self.racks {
            UpToTwo::One(one) => { if rack == Some(Rack(one)) { 1 } else { 0 } }
            UpToTwo::Two(low, high) => {
                if !self.storages.are_two() || rack == Some(Rack(low)) || rack == Some(Rack(high)) {
                    0
                } else {
                    1
                }
            }
            _ => 0,
        }
    }
}
