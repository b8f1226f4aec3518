// The storages, each with its node and its replicas.
ghost use Rattle.std.specs.Prelude.{◌≡◌, ◌++◌, ◌∷◌, [], ℕ, OnOk};
ghost use Rattle.fsck_cluster.specs.Rows.{new_row, ends_with, with_held_at, has_storage, storages_of};

use crate::node_storages::{NodeStorages, add_storage, storages_at};
use bm_base::{BlockId, Items, Stamp, StorageId};
use indexmap::IndexMap;
use std::alloc::{AllocError, Global};
use std::marker::Model;

/// A replica on a storage: its block and its stamp.
#[derive(Clone, Copy, Drop)]
pub struct StoredReplica {
    pub id: BlockId,
    pub stamp: Stamp,
}

/// A storage: its number, its node's number, and its replicas in the order of the text.
#[derive(Drop)]
pub struct Row {
    pub number: u32,
    pub node: u32,
    pub held: Items<StoredReplica>,
}

/// The storages in the order of their numbers, with a hash table of those of each node.
#[derive(Drop)]
pub struct Rows {
    rows: Vec<Row>,
    by_node: NodeStorages,
}

impl Model for Rows {
    ghost use Rattle.std.specs.Prelude.{List};
    ghost use Rattle.fsck_cluster.specs.declared.rows.Row.{Row};

    ghost Value = { List Row };

    ghost use Rattle.fsck_cluster.specs.NodeStorages.{AreGrouped};

    ghost view = { λ rows. rows.rows.items };

    ghost invariant = { λ rows. AreGrouped rows.rows.items rows.by_node.entries };
}

impl Row {
    /// Whether the last replica is one of this block.
    pub fn ends_with(&self, id: BlockId) -> bool
        ensures { result ≡ ends_with self.now id }
    {
        match self.held.as_slice().last() {
            Some(held) => held.id.0 == id.0,
            None => false,
        }
    }
}

impl Rows {
    /// Makes an empty list of storages. Takes no memory.
    pub fn new(alloc: Global) -> Rows
        ensures { result ≡ [] }
    {
        Rows {
            rows: Vec::new(alloc),
            by_node: IndexMap::new(alloc),
        }
    }

    /// Adds a storage with this number and this node, without replicas.
    pub fn push(&mut self, alloc: Global, number: u32, node: u32) -> Result<(), AllocError>
        ensures { OnOk result (self.new ≡ self.old ++ new_row number node ∷ []) }
    {
        let row = Row {
            number,
            node,
            held: Items::from_vec(Vec::new(alloc)),
        };
        self.rows.reserve(1)?;
        add_storage(alloc, &mut self.by_node, node, StorageId(number))?;
        self.rows.push_reserved(row);
        Ok(())
    }

    /// Adds a replica to the storage at an index.
    pub fn add(&mut self, at: usize, held: StoredReplica) -> Result<(), AllocError>
        ensures { OnOk result (self.new ≡ with_held_at self.old at held) }
    {
        add_replica(&mut self.rows, at, held)
    }

    /// Whether a node has a storage.
    pub fn has_storage(&self, node: u32) -> bool
        ensures { result ≡ has_storage self.now node }
    {
        !self.storages_of(node).is_empty()
    }

    /// Returns the storages of a node, by ascending number.
    pub fn storages_of(&self, node: u32) -> &[StorageId]
        ensures { result.now ≡ storages_of self.now node }
    {
        storages_at(&self.by_node, node)
    }

    /// Returns the storages, by ascending number.
    pub fn as_slice(&self) -> &[Row]
        ensures { result.now ≡ self.now }
    {
        self.rows.as_slice()
    }

    /// Returns the vector of the storages; copies nothing.
    pub fn into_vec(self) -> Vec<Row>
        ensures { result.items ≡ self }
    {
        let Rows { rows, .. } = self;
        rows
    }
}

/// Adds a replica to the storage at an index. No storage changes its number or its node.
#[tactic(auto, using(crate::proofs::RowLemmas::storages_set))]
fn add_replica(rows: &mut Vec<Row>, at: usize, held: StoredReplica) -> Result<(), AllocError>
    ensures rows { OnOk result (rows.new.items ≡ with_held_at rows.old.items at held) }
    ensures storages { (n : ℕ) → storages_of rows.new.items n ≡ storages_of rows.old.items n }
{
    match rows.get_mut(at) {
        Some(row) => row.held.push(held),
        None => Ok(()),
    }
}
