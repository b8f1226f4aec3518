// The free bytes of storages, as their DataNodes know them.
ghost use Rattle.std.specs.Prelude.{◌≡◌, ℕ, ◌+◌, ◌-◌, min, nat_eq, map, unwrap_or, IfOk, OnOk, if◌then◌else◌};
ghost use Rattle.bm_base.specs.Words.{has, keys};
ghost use Rattle.std.specs.HashMap.{get};
ghost use Rattle.cluster_repair.specs.History.{numbers_of, with_storages};
ghost use Rattle.cluster_repair.specs.LinkModel.{most, free_on, free_in, remaining_in};

use crate::numbers::{Numbers, put};
use bm_base::{HashSecret, Items, NodeId, Remaining, StorageId};
use bm_topo::Topology;
use cluster_report::nodes::{all_nodes, all_storages};
use std::alloc::{AllocError, Global};
use std::collections::HashMap;

/// A node with its storages, ascending.
#[derive(Drop)]
pub struct NodeStorages {
    pub node: NodeId,
    pub storages: Vec<StorageId>,
}

/// The free bytes of each storage. A copy takes its bytes when it is commanded.
#[derive(Drop)]
pub struct FreeBytes {
    /// Ascending.
    pub storages: Vec<StorageId>,
    pub nodes: Vec<NodeStorages>,
    pub free: Numbers,
}

impl FreeBytes {
    /// The free bytes of all storages, as the last heartbeats reported them. The table hashes by
    /// this secret.
    pub fn new(
        alloc: Global,
        topology: &Topology,
        secret: HashSecret,
    ) -> Result<FreeBytes, AllocError>
        ensures free { IfOk result (λ f. (s : ℕ) → free_on f s ≡ free_in topology.now.cluster s) }
        ensures nodes { IfOk result (λ f. map numbers_of f.nodes.items
            ≡ map (with_storages topology.now.cluster) (keys topology.now.cluster.nodes)) }
        ensures storages { IfOk result
            (λ f. f.storages.items ≡ keys topology.now.cluster.storages) }
    {
        let storages = all_storages(alloc, topology)?;
        let nodes = all_with_storages(alloc, topology)?;
        let free = free_bytes_of(alloc, topology, storages.as_slice(), secret)?;
        Ok(FreeBytes {
            storages,
            nodes,
            free,
        })
    }

    /// Returns the free bytes of a storage; 0 if it is unknown.
    pub fn of(&self, storage: StorageId) -> u64
        ensures { result ≡ free_on self.now storage }
    {
        self.free.get(&storage.0).copied().unwrap_or(0)
    }

    /// Subtracts bytes from a storage's free bytes, down to 0. Refused only if out of memory.
    pub fn take(&mut self, storage: StorageId, bytes: u64) -> Result<(), AllocError>
        ensures free { OnOk result ((s : ℕ) → free_on self.new s
            ≡ (if nat_eq storage s then free_on self.old storage - bytes
            else free_on self.old s)) }
        ensures nodes { self.new.nodes ≡ self.old.nodes }
        ensures storages { self.new.storages ≡ self.old.storages }
    {
        let left = self.of(storage).saturating_sub(bytes);
        self.put(storage, left)
    }

    /// Adds bytes to a storage's free bytes, up to 2^64 - 1. Refused only if out of memory.
    pub fn release(&mut self, storage: StorageId, bytes: u64) -> Result<(), AllocError>
        ensures free { OnOk result ((s : ℕ) → free_on self.new s
            ≡ (if nat_eq storage s then min (free_on self.old storage + bytes) most
            else free_on self.old s)) }
        ensures nodes { self.new.nodes ≡ self.old.nodes }
        ensures storages { self.new.storages ≡ self.old.storages }
    {
        let left = self.of(storage).saturating_add(bytes);
        self.put(storage, left)
    }

    #[tactic(auto, using(crate::proofs::NumberLemmas::number_put))]
    fn put(&mut self, storage: StorageId, bytes: u64) -> Result<(), AllocError>
        ensures free { OnOk result ((s : ℕ) → free_on self.new s
            ≡ (if nat_eq storage s then bytes else free_on self.old s)) }
        ensures nodes { self.new.nodes ≡ self.old.nodes }
        ensures storages { self.new.storages ≡ self.old.storages }
    {
        put(&mut self.free, storage.0, bytes)
    }

    /// The free bytes that a node reports.
    pub fn remaining_on(
        &self,
        alloc: Global,
        node: &NodeStorages,
    ) -> Result<Items<Remaining>, AllocError>
        ensures { IfOk result (λ free. free
            ≡ map (remaining_in self.now) node.now.storages.items) }
    {
        let mut free = Vec::new(alloc);
        for storage in &node.storages {
            free.push(Remaining {
                storage: *storage,
                remaining: self.of(*storage),
            })?;
        }
        Ok(Items::from_vec(free))
    }
}

/// The free bytes of these storages, by number.
fn free_bytes_of(
    alloc: Global,
    topology: &Topology,
    storages: &[StorageId],
    secret: HashSecret,
) -> Result<Numbers, AllocError>
    ensures { IfOk result (λ free. (s : ℕ) → unwrap_or (get nat_eq free s) 0
        ≡ (if has storages.now s then free_in topology.now.cluster s else 0)) }
{
    let mut free = HashMap::with_hasher(alloc, secret);
    for storage in storages {
        let remaining = topology.remaining(*storage).unwrap_or(0);
        put(&mut free, storage.0, remaining)?;
    }
    Ok(free)
}

/// All nodes with their storages.
fn all_with_storages(alloc: Global, topology: &Topology) -> Result<Vec<NodeStorages>, AllocError>
    ensures { IfOk result (λ v. map numbers_of v.items
        ≡ map (with_storages topology.now.cluster) (keys topology.now.cluster.nodes)) }
{
    let all = all_nodes(alloc, topology)?;
    let mut nodes = Vec::new(alloc);
    for node in &all {
        let storages = Vec::from_slice(alloc, topology.storages_of(*node))?;
        nodes.push(NodeStorages {
            node: *node,
            storages,
        })?;
    }
    Ok(nodes)
}
