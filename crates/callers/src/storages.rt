// Storages that still serve: known ones of nodes that do not drain.
ghost use Rattle.std.specs.Prelude.{◌≡◌, ◌&&◌, not, filter, IfOk};
ghost use Rattle.bm_base.specs.Words.{knows_storage, is_draining};

use bm_base::StorageId;
use bm_topo::Topology;
use std::alloc::{AllocError, Global};

/// The storages of a list that are known and whose nodes do not drain, in the order of the list.
pub fn find_serving(
    alloc: Global,
    topology: &Topology,
    storages: &[StorageId],
) -> Result<Vec<StorageId>, AllocError>
    ensures { IfOk result (λ found. found.items ≡ filter
        (λ s. knows_storage topology.now.cluster s && not (is_draining topology.now.cluster s))
        storages.now) }
{
    let mut found = Vec::new(alloc);
    for storage in storages {
        if topology.knows_storage(*storage) && !topology.is_draining(*storage) {
            found.push(*storage)?;
        }
    }
    Ok(found)
}
