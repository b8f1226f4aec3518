// Changes of one table, in reserved capacity.
ghost use Rattle.std.specs.Prelude.{◌≡◌, ◌≤◌, ◌==◌, not, length};
ghost use Rattle.bm_maps.specs.Table.{capacity};
ghost use Rattle.bm_topo.specs.Racks.{without_one};
ghost use Rattle.bm_topo.specs.NewStorages.{new_storages};
ghost use Rattle.bm_topo.specs.Keys.{HasSmallKeys};
ghost use Rattle.bm_base.specs.Maps.Map as map;
ghost use Rattle.bm_base.specs.Machine.Events as events;

use crate::index_hints::IndexHints;
use bm_base::{NodeId, Rack, Remaining, StorageId, StorageInfo};
use bm_maps::NumberMap;

/// Adds the storages of a node, with no free bytes yet.
pub(crate) fn add_storages(
    storages: &mut NumberMap<StorageInfo>,
    node: NodeId,
    its_own: &[StorageId],
)
    requires { length its_own.now ≤ storages.old.spare }
    ensures after { storages.new.map ≡ map.insert_all storages.old.map (new_storages node its_own.now) }
    ensures small { HasSmallKeys storages.old.map → HasSmallKeys storages.new.map }
    ensures no_growth { capacity storages.new ≡ capacity storages.old }
{
    for storage in its_own {
        let info = StorageInfo { node, remaining: 0 };
        storages.insert_reserved(u64::from(storage.0), info);
    }
}

/// Takes out the storages of a node.
pub(crate) fn drop_storages(storages: &mut NumberMap<StorageInfo>, node: NodeId)
    ensures after { storages.new.map ≡ map.keep storages.old.map (λ _ i. not (i.node == node)) }
    ensures no_growth { capacity storages.new ≡ capacity storages.old }
{
    storages.retain(|(_, info)| info.node != node);
}

/// One of `count` nodes leaves a rack.
#[tactic(auto, unfolding(crate::specs::Racks::without_one))]
pub(crate) fn leave_rack(racks: &mut NumberMap<u32>, rack: Rack, count: u32)
    requires { 1 ≤ count }
    ensures after { racks.new.map ≡ without_one racks.old.map rack count }
    ensures no_growth { capacity racks.new ≡ capacity racks.old }
{
    if count == 1 {
        racks.remove(u64::from(rack.0));
    } else {
        racks.replace(u64::from(rack.0), count - 1);
    }
}

/// Sets the remaining bytes of known storages, one after another.
pub(crate) fn set_remaining(
    storages: &mut NumberMap<StorageInfo>,
    hints: &IndexHints,
    remaining: &[Remaining],
)
    ensures after { storages.new.map ≡ events.set_remaining storages.old.map remaining.now }
    ensures no_growth { capacity storages.new ≡ capacity storages.old }
{
    for reported in remaining {
        set_storage_remaining(storages, hints, reported.storage, reported.remaining);
    }
}

/// Sets the remaining bytes of a storage, if it is there: a few reads at the hint, and else a
/// look-up.
fn set_storage_remaining(
    storages: &mut NumberMap<StorageInfo>,
    hints: &IndexHints,
    storage: StorageId,
    remaining: u64,
)
    ensures after { storages.new.map
        ≡ map.revise_at storages.old.map storage (λ i. record i { remaining = remaining }) }
    ensures no_growth { capacity storages.new ≡ capacity storages.old }
{
    let number = u64::from(storage.0);
    let guess = hints.of_storage(number);
    if let Some(info) = storages.get_near(number, guess) {
        let updated = StorageInfo {
            node: info.node,
            remaining,
        };
        storages.replace_near(number, updated, guess);
    }
}
