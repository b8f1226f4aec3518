// The live replicas of a block.
ghost use Rattle.std.specs.Prelude.{◌≡◌, length, map};
ghost use Rattle.bm_arena.specs.Triplets.{triplet_view};
ghost use Rattle.bm_levels.specs.Status.{storages_at};
ghost use Rattle.bm_base.specs.Machine.Replicas as replicas;

use bm_arena::Triplet;
use bm_base::{Marks, StorageId};
use bm_topo::Topology;

/// The number of live replicas among these.
pub fn count_live(topology: &Topology, triplets: &[Triplet]) -> usize
    ensures { result ≡ length (storages_at (replicas.is_live_on topology.now.cluster)
        (map triplet_view triplets.now)) }
{
    let mut count = 0;
    for triplet in triplets {
        let (storage, marks) = triplet.replica();
        if is_live_on(topology, storage, marks) {
            count += 1;
        }
    }
    count
}

fn is_live_on(topology: &Topology, storage: StorageId, marks: Marks) -> bool
    ensures { result ≡ replicas.is_live_on topology.now.cluster storage marks }
{
    let is_usable = marks.is_usable();
    is_usable && !topology.is_draining(storage)
}
