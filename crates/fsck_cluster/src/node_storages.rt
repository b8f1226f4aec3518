// The storages of each node, in a hash table.
ghost use Rattle.std.specs.Prelude.{◌≡◌, ◌++◌, ◌∷◌, [], ℕ, nat_eq, OnOk, OnErr, if◌then◌else◌};
ghost use Rattle.fsck_cluster.specs.NodeStorages.{grouped_at};

use bm_base::StorageId;
use indexmap::IndexMap;
use std::alloc::{AllocError, Global};

/// The storages of each node that has one, in the order of addition.
pub(crate) type NodeStorages = IndexMap<u32, Vec<StorageId>>;

/// The storages of a node.
pub(crate) fn storages_at(by_node: &NodeStorages, node: u32) -> &[StorageId]
    ensures { result.now ≡ grouped_at by_node.now.entries node }
{
    match by_node.get(&node) {
        Some(storages) => storages.as_slice(),
        None => &[],
    }
}

/// Adds a storage to a node. An `Err` changes no node's storages.
pub(crate) fn add_storage(
    alloc: Global,
    by_node: &mut NodeStorages,
    node: u32,
    storage: StorageId,
) -> Result<(), AllocError>
    ensures ok { OnOk result ((n : ℕ) → grouped_at by_node.new.entries n
        ≡ grouped_at by_node.old.entries n ++ (if nat_eq node n then storage ∷ [] else [])) }
    ensures err { OnErr result ((n : ℕ) → grouped_at by_node.new.entries n
        ≡ grouped_at by_node.old.entries n) }
{
    match by_node.get_mut(&node) {
        Some(storages) => storages.push(storage)?,
        None => {
            let mut storages = Vec::new(alloc);
            storages.push(storage)?;
            by_node.insert(node, storages)?;
        }
    }
    Ok(())
}
