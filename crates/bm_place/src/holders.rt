// Storages with a live replica, looked up.
ghost use Rattle.std.specs.Prelude.{◌≡◌, map, OnOk};
ghost use Rattle.bm_place.specs.Holders as looked_up;

use bm_base::{Rack, StorageId};
use bm_topo::Topology;
use std::alloc::AllocError;

/// A storage with a live replica, looked up.
#[derive(Clone, Copy)]
pub struct Holder {
    pub storage: StorageId,
    pub rack: Option<Rack>,
    pub remaining: u64,
}

/// Replaces the contents by these storages, looked up.
pub(crate) fn fill_holders(
    holders: &mut Vec<Holder>,
    live: &[StorageId],
    topology: &Topology,
) -> Result<(), AllocError>
    ensures { OnOk result
        (holders.new.items ≡ map (looked_up.holder_at topology.now.cluster) live.now) }
{
    holders.clear();
    for storage in live {
        let location = topology.location_of(*storage);
        holders.push(Holder {
            storage: *storage,
            rack: location.rack,
            remaining: location.remaining,
        })?;
    }
    Ok(())
}
