// A cluster that is read block by block.
ghost use Rattle.std.specs.Prelude.{◌≡◌, Ok, Err, OnOk, IfErr};
ghost use Rattle.fsck_cluster.specs.Clusters.{no_cluster, is_on_rack, is_on_node, after_block, after_places, after_place, after_node, after_new_node, after_storage, after_new_storage, after_replica, with_bad, with_draining, after_spare, after_spares, with_spares, IsCause};

use crate::blocks::Blocks;
use crate::names::Names;
use crate::rows::{Rows, StoredReplica};
use bm_base::{BlockId, BlockInfo, Items, MOST_NODES, MOST_STORAGES, StorageId};
use fsck_files::{Block, Numbers, is_corrupt, is_draining};
use fsck_text::{ListedReplica, Piece, Place};
use std::alloc::{AllocError, Global};
use thiserror::Error;

/// Hadoop's name of the default rack.
pub const DEFAULT_RACK: &str = "/default-rack";

/// A DataNode.
#[derive(Clone, Copy, Drop)]
pub struct NodeRow {
    pub number: u32,
    pub rack: u32,
    /// Its free bytes, if the report on DataNodes has them.
    pub remaining: Option<u64>,
}

/// A replica that is corrupt.
#[derive(Clone, Copy, Drop)]
pub struct Bad {
    pub storage: StorageId,
    pub id: BlockId,
}

/// A cluster as read so far. Racks, nodes and storages are numbered from 1 in the order of their
/// first occurrence.
#[derive(Drop)]
pub struct Cluster {
    pub racks: Names,
    /// The nodes by host and port.
    pub nodes: Names,
    pub node_rows: Items<NodeRow>,
    /// Whether all nodes are known from the report on DataNodes.
    pub knows_nodes: bool,
    pub storages: Names,
    pub rows: Rows,
    pub blocks: Blocks,
    /// The corrupt replicas, in the order of the text.
    pub bad: Items<Bad>,
    /// The numbers of the nodes that are being decommissioned, or have been.
    pub draining: Numbers,
}

/// Why a block is refused.
#[derive(Clone, Copy, Debug, Drop, Error)]
pub enum Why {
    #[error("the block was read before: give the output of one fsck")]
    BlockTwice,
    #[error("two places of the block have one storage")]
    StorageTwice,
    #[error("a storage on another node than before, or a node on another rack: take new texts of fsck and of dfsadmin")]
    Elsewhere,
    #[error("a node that is not among the live ones of --nodes: take new texts of fsck and of dfsadmin")]
    UnknownNode,
    #[error("more than 65,536 nodes")]
    TooManyNodes,
    #[error("more than 1,048,576 storages")]
    TooManyStorages,
}

/// Why a block is refused, or out of memory.
#[derive(Clone, Copy, Debug, Drop)]
pub enum ClusterFault {
    Memory,
    Refused(Why),
}

impl From<AllocError> for ClusterFault {
    ghost use Rattle.std.specs.Prelude.{◌≡◌};
    ghost use Rattle.fsck_cluster.specs.declared.cluster.ClusterFault.TheVariants.{Memory};

    ghost from_gives = { λ _ e. e ≡ Memory };

    fn from(_error: AllocError) -> Self {
        ClusterFault::Memory
    }
}

impl Cluster {
    /// An empty cluster. Takes no memory.
    pub fn new(alloc: Global) -> Cluster
        ensures { result ≡ no_cluster }
    {
        Cluster {
            racks: Names::new(alloc),
            nodes: Names::new(alloc),
            node_rows: Items::from_vec(Vec::new(alloc)),
            knows_nodes: false,
            storages: Names::new(alloc),
            rows: Rows::new(alloc),
            blocks: Blocks::new(alloc),
            bad: Items::from_vec(Vec::new(alloc)),
            draining: Numbers::new(alloc),
        }
    }

    /// Adds a block with its replicas.
    pub fn take_block(&mut self, alloc: Global, block: &Block) -> Result<(), ClusterFault>
        ensures ok { OnOk result (after_block self.old block.now ≡ Ok self.new) }
        ensures refused { IfErr result (λ f. IsCause f (after_block self.old block.now)) }
    {
        let info = BlockInfo {
            stamp: block.stamp,
            repl: block.wanted,
        };
        if !self.blocks.add(block.id, info)? {
            return Err(ClusterFault::Refused(Why::BlockTwice));
        }
        self.take_places(alloc, block)
    }

    /// Adds the replicas of a block, one after another.
    fn take_places(&mut self, alloc: Global, block: &Block) -> Result<(), ClusterFault>
        ensures ok { OnOk result (after_places self.old block.now block.now.replicas ≡ Ok self.new) }
        ensures refused { IfErr result (λ f. IsCause f (after_places self.old block.now block.now.replicas)) }
    {
        for listed in block.replicas.as_slice() {
            self.take_place(alloc, block, listed)?;
        }
        Ok(())
    }

    /// Adds one replica, which may be the first on its rack, its node or its storage.
    fn take_place(
        &mut self,
        alloc: Global,
        block: &Block,
        listed: &ListedReplica,
    ) -> Result<(), ClusterFault>
        ensures ok { OnOk result (after_place self.old block.now listed.now ≡ Ok self.new) }
        ensures refused { IfErr result (λ f. IsCause f (after_place self.old block.now listed.now)) }
    {
        self.take_node(alloc, &listed.place)?;
        self.take_storage(alloc, &listed.place)?;
        self.take_replica(block, listed)
    }

    /// Adds the node of a place; a known one must be on the same rack.
    fn take_node(&mut self, alloc: Global, place: &Place) -> Result<(), ClusterFault>
        ensures ok { OnOk result (after_node self.old place.now ≡ Ok self.new) }
        ensures refused { IfErr result (λ f. IsCause f (after_node self.old place.now)) }
    {
        match self.nodes.index(place.address.text()) {
            Some(index) if self.is_on_rack(index, &place.rack) => Ok(()),
            Some(_) => Err(ClusterFault::Refused(Why::Elsewhere)),
            None if self.knows_nodes => Err(ClusterFault::Refused(Why::UnknownNode)),
            None if self.nodes.len() >= MOST_NODES as usize => {
                Err(ClusterFault::Refused(Why::TooManyNodes))
            }
            None => Ok(self.add_node(alloc, place)?),
        }
    }

    /// Whether a place fits the rack of the node at an index. A place that names a rack fits if it
    /// names this one. A place without a rack fits if the report on DataNodes was read or the node
    /// is on the default rack.
    fn is_on_rack(&self, index: usize, rack: &Option<Piece>) -> bool
        ensures { result ≡ is_on_rack self.now index rack.now }
    {
        let Some(row) = self.node_rows.as_slice().get(index) else {
            return false;
        };
        match rack {
            Some(rack) => self.racks.name(row.rack) == rack.text(),
            None => self.knows_nodes || self.racks.name(row.rack) == DEFAULT_RACK,
        }
    }

    /// Adds the node of a place.
    fn add_node(&mut self, alloc: Global, place: &Place) -> Result<(), AllocError>
        ensures { OnOk result (self.new ≡ after_new_node self.old place.now) }
    {
        let rack = match &place.rack {
            Some(rack) => rack.text(),
            None => DEFAULT_RACK,
        };
        let rack = self.racks.intern(alloc, rack)?;
        let node = self.nodes.intern(alloc, place.address.text())?;
        self.node_rows.push(NodeRow {
            number: node.number,
            rack: rack.number,
            remaining: None,
        })
    }

    /// Adds the storage of a place whose node is known; a known storage must be on the same node.
    fn take_storage(&mut self, alloc: Global, place: &Place) -> Result<(), ClusterFault>
        ensures ok { OnOk result (after_storage self.old place.now ≡ Ok self.new) }
        ensures refused { IfErr result (λ f. IsCause f (after_storage self.old place.now)) }
    {
        match self.storages.index(place.storage.text()) {
            Some(index) if self.is_on_node(index, place.address.text()) => Ok(()),
            Some(_) => Err(ClusterFault::Refused(Why::Elsewhere)),
            None if self.storages.len() >= MOST_STORAGES as usize => {
                Err(ClusterFault::Refused(Why::TooManyStorages))
            }
            None => Ok(self.add_storage(alloc, place)?),
        }
    }

    /// Whether the storage at an index is on a node.
    fn is_on_node(&self, index: usize, address: &str) -> bool
        ensures { result ≡ is_on_node self.now index address.now }
    {
        match self.rows.as_slice().get(index) {
            Some(row) => self.nodes.name(row.node) == address,
            None => false,
        }
    }

    /// Adds the storage of a place.
    fn add_storage(&mut self, alloc: Global, place: &Place) -> Result<(), AllocError>
        ensures { OnOk result (self.new ≡ after_new_storage self.old place.now) }
    {
        let node = self.nodes.intern(alloc, place.address.text())?;
        let storage = self.storages.intern(alloc, place.storage.text())?;
        self.rows.push(alloc, storage.number, node.number)
    }

    /// Adds a replica to the storage of its place, which is known.
    fn take_replica(&mut self, block: &Block, listed: &ListedReplica) -> Result<(), ClusterFault>
        ensures ok { OnOk result (after_replica self.old block.now listed.now ≡ Ok self.new) }
        ensures refused { IfErr result (λ f. IsCause f (after_replica self.old block.now listed.now)) }
    {
        let Some(at) = self.storages.index(listed.place.storage.text()) else {
            return Ok(());
        };
        let Some(row) = self.rows.as_slice().get(at) else {
            return Ok(());
        };
        if row.ends_with(block.id) {
            return Err(ClusterFault::Refused(Why::StorageTwice));
        }
        let (storage, node) = (StorageId(row.number), row.node);
        let held = StoredReplica {
            id: block.id,
            stamp: block.stamp,
        };
        self.rows.add(at, held)?;
        let bad = Bad {
            storage,
            id: block.id,
        };
        self.take_bad(bad, is_corrupt(listed.mark, block.is_corrupt))?;
        Ok(self.take_draining(node, is_draining(listed.mark))?)
    }

    /// Lists a replica as corrupt, if it is.
    fn take_bad(&mut self, bad: Bad, is_corrupt: bool) -> Result<(), AllocError>
        ensures { OnOk result (self.new ≡ with_bad self.old bad is_corrupt) }
    {
        if is_corrupt {
            self.bad.push(bad)
        } else {
            Ok(())
        }
    }

    /// Lists a node as draining, if it does.
    fn take_draining(&mut self, node: u32, is_draining: bool) -> Result<(), AllocError>
        ensures { OnOk result (self.new ≡ with_draining self.old node is_draining) }
    {
        if is_draining {
            self.draining.add(u64::from(node))
        } else {
            Ok(())
        }
    }

    /// Adds a storage for each known node without one: no text has the names of storages without
    /// replicas. The storage gets the node's name.
    pub fn add_spares(&mut self, alloc: Global) -> Result<(), ClusterFault>
        ensures ok { OnOk result (with_spares self.old ≡ Ok self.new) }
        ensures refused { IfErr result (λ f. IsCause f (with_spares self.old)) }
    {
        if !self.knows_nodes {
            return Ok(());
        }
        let nodes = Items::from_slice(alloc, self.node_rows.as_slice())?;
        self.add_spares_of(alloc, nodes.as_slice())
    }

    /// Adds a storage of the node's name for each of these nodes that has none.
    fn add_spares_of(&mut self, alloc: Global, nodes: &[NodeRow]) -> Result<(), ClusterFault>
        ensures ok { OnOk result (after_spares self.old nodes.now ≡ Ok self.new) }
        ensures refused { IfErr result (λ f. IsCause f (after_spares self.old nodes.now)) }
    {
        for row in nodes {
            self.add_spare(alloc, row.number)?;
        }
        Ok(())
    }

    /// Adds a storage of the node's name, if the node has none.
    fn add_spare(&mut self, alloc: Global, node: u32) -> Result<(), ClusterFault>
        ensures ok { OnOk result (after_spare self.old node ≡ Ok self.new) }
        ensures refused { IfErr result (λ f. IsCause f (after_spare self.old node)) }
    {
        if self.rows.has_storage(node) {
            return Ok(());
        }
        if self.storages.index(self.nodes.name(node)).is_some() {
            return Err(ClusterFault::Refused(Why::Elsewhere));
        }
        if self.storages.len() >= MOST_STORAGES as usize {
            return Err(ClusterFault::Refused(Why::TooManyStorages));
        }
        let storage = self.storages.intern(alloc, self.nodes.name(node))?;
        Ok(self.rows.push(alloc, storage.number, node)?)
    }
}
