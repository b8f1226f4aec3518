// Whether a block keeps a draining node from being retired.
ghost use Rattle.std.specs.Prelude.{◌≡◌, ℕ};
ghost use Rattle.bm_base.specs.Words.{list_any, Map, by_replica};
ghost use Rattle.bm_arena.specs.Contents.{block_at};
ghost use Rattle.bm_parts.specs.QueryLaws.{holds_back};
ghost use Rattle.bm_levels.specs.SlotHoldings.{holdings_with};
ghost use Rattle.bm_queries.specs.ListedElements.{lacks_live, holds_back_at, holds_back_on, holds_back_node};

use bm_arena::{Arena, Slot};
use bm_base::{NodeId, StorageId};
use bm_levels::{LeveledBlocks, count_live};
use bm_topo::Topology;

/// Whether fewer replicas of the block at a slot are live than are wanted; not if the block is
/// unknown.
fn lacks_live(topology: &Topology, arena: &Arena, slot: Slot) -> bool
    ensures { result ≡ lacks_live topology.now.cluster (block_at arena.now slot) }
{
    match arena.block(slot) {
        Some((Some(info), triplets)) => count_live(topology, triplets) < info.repl as usize,
        _ => false,
    }
}

/// Whether the block at a slot has a usable replica on a storage, and lacks live ones.
fn holds_back_at(topology: &Topology, arena: &Arena, storage: StorageId, slot: Slot) -> bool
    ensures { result ≡ holds_back_at topology.now.cluster arena.now storage slot }
{
    match arena.marks(slot, storage) {
        Some(marks) => {
            let is_usable = marks.is_usable();
            is_usable && lacks_live(topology, arena, slot)
        }
        None => false,
    }
}

/// Whether a block in the list of a storage has a usable replica there, and lacks live ones.
fn holds_back_on(topology: &Topology, arena: &Arena, storage: StorageId) -> bool
    ensures { result ≡ holds_back_on topology.now.cluster arena.now storage }
{
    for slot in arena.walk(storage) {
        if holds_back_at(topology, arena, storage, slot) {
            return true;
        }
    }
    false
}

/// Whether a block of a storage keeps its node from being retired. Only a draining node is kept.
fn holds_back_node(topology: &Topology, arena: &Arena, storage: StorageId) -> bool
    ensures { result ≡ holds_back_node topology.now.cluster arena.now storage }
{
    let is_draining = topology.is_draining(storage);
    is_draining && holds_back_on(topology, arena, storage)
}

/// Whether a block of one of these storages keeps the node from being retired.
fn any_waits(topology: &Topology, arena: &Arena, storages: &[StorageId]) -> bool
    ensures { result ≡ list_any (holds_back_node topology.now.cluster arena.now) storages.now }
{
    storages
        .iter()
        .any(|storage| holds_back_node(topology, arena, *storage))
}

/// Whether a block holds a node back: it has a drained replica there, and fewer live ones than are
/// wanted. Walks the lists of the node's storages alone, and those only if it drains. Takes no
/// memory.
pub fn is_held_back(blocks: &LeveledBlocks, topology: &Topology, node: NodeId) -> bool
    ensures { (pending : Map by_replica ℕ)
        → result ≡ holds_back topology.now.cluster node (holdings_with blocks.now.arena pending) }
{
    blocks.show_invariant();
    let arena = blocks.arena();
    arena.show_invariant();
    any_waits(topology, arena, topology.storages_of(node))
}
