// The queries of a shard. No query changes anything.
ghost use Rattle.std.specs.Prelude.{◌≡◌, true, false, None, IfOk, IfErr, OnOk};
ghost use Rattle.bm_base.specs.Words.{Cluster, block_refusal, Refuses};
ghost use Rattle.bm_base.specs.declared.refusal.Refusal.TheVariants.{Memory};
ghost use Rattle.bm_parts.specs.QueryLaws.{holds_back};
ghost use Rattle.bm_queries.specs.ListedElements.{wants, replicas_passing};
ghost use Rattle.bm_shard.specs.UpToDate.{IsUpToDate};
ghost use Rattle.bm_base.specs.Machine.Queries as queries;
ghost use Rattle.bm_base.specs.Machine.Levels as levels;
ghost use Rattle.bm_base.specs.Promises.Versions as versions;

use crate::shard::Shard;
use bm_base::{BlockId, Items, Level, NodeId, Places, Refusal, Replica, ReplicaId, StorageId};
use bm_queries::{
    ReplicaFilter, blocks_on, is_held_back, knows_block, list_replicas, missing_blocks, places,
    replica_keys, table_rows,
};
use bm_topo::Topology;

impl Shard {
    /// The replicas of the given kind, by block and storage. `Memory`.
    pub fn list_replicas(&self, wanted: ReplicaFilter) -> Result<Vec<Replica>, Refusal>
        ensures replicas { IfOk result
            (λ v. v.items ≡ replicas_passing (wants wanted) self.now.holdings.replicas) }
        ensures refused { IfErr result (λ e. e ≡ Memory) }
    {
        list_replicas(self.alloc, &self.blocks, wanted)
    }

    /// All replicas with their tags, by block and storage. `Memory`.
    pub fn replicas(&self) -> Result<Items<Replica>, Refusal>
        ensures replicas { IfOk result (λ v. v ≡ queries.all_replicas self.now.holdings) }
        ensures refused { IfErr result (λ e. e ≡ Memory) }
    {
        Ok(Items::from_vec(self.list_replicas(ReplicaFilter::All)?))
    }

    /// The stale and bad replicas, by block and storage. `Memory`.
    pub fn corrupt(&self) -> Result<Items<ReplicaId>, Refusal>
        ensures corrupt { IfOk result (λ v. v ≡ queries.corrupt_replicas self.now.holdings) }
        ensures refused { IfErr result (λ e. e ≡ Memory) }
    {
        let all = self.list_replicas(ReplicaFilter::Corrupt)?;
        Ok(Items::from_vec(replica_keys(self.alloc, all.as_slice())?))
    }

    /// The replicas in excess, by block and storage. `Memory`.
    pub fn excess(&self) -> Result<Items<ReplicaId>, Refusal>
        ensures excess { IfOk result (λ v. v ≡ queries.excess_replicas self.now.holdings) }
        ensures refused { IfErr result (λ e. e ≡ Memory) }
    {
        let all = self.list_replicas(ReplicaFilter::Excess)?;
        Ok(Items::from_vec(replica_keys(self.alloc, all.as_slice())?))
    }

    /// The known blocks without a usable replica, ascending. `Memory`.
    pub fn missing(&self) -> Result<Items<BlockId>, Refusal>
        ensures missing { (C : Cluster) → IsUpToDate C self.now
            → IfOk result (λ v. v ≡ queries.missing_blocks C self.now.holdings) }
        ensures refused { IfErr result (λ e. e ≡ Memory) }
    {
        self.blocks.show_invariant();
        self.blocks.arena().show_invariant();
        missing_blocks(self.alloc, &self.blocks)
    }

    /// The blocks of all replicas on a storage, whatever their tags, ascending. `Memory`.
    pub fn blocks_on(&self, storage: StorageId) -> Result<Items<BlockId>, Refusal>
        ensures blocks { IfOk result (λ v. v ≡ queries.blocks_on self.now.holdings storage) }
        ensures refused { IfErr result (λ e. e ≡ Memory) }
    {
        blocks_on(self.alloc, &self.blocks, storage)
    }

    /// The storages of the block's good replicas, in excess or not, ascending. `UnknownBlock`;
    /// `Memory`.
    #[tactic(auto, unfolding(bm_base::specs::Machine::Refusals::block_refusal))]
    pub fn places(&self, id: BlockId) -> Result<Items<StorageId>, Refusal>
        ensures known { OnOk result (block_refusal self.now.holdings id ≡ None) }
        ensures places { IfOk result (λ v. v ≡ queries.places self.now.holdings id) }
        ensures refused { IfErr result (Refuses (block_refusal self.now.holdings id) true) }
    {
        if !knows_block(&self.blocks, id) {
            return Err(Refusal::UnknownBlock);
        }
        places(self.alloc, &self.blocks, id)
    }

    /// For each known block, ascending, the first `MAX_PLACES` of its places: what readers see.
    /// `Memory`.
    pub fn table_rows(&self) -> Result<Items<(BlockId, Places)>, Refusal>
        ensures rows { IfOk result (λ v. v ≡ versions.table self.now.holdings) }
        ensures refused { IfErr result (λ e. e ≡ Memory) }
    {
        table_rows(self.alloc, &self.blocks)
    }

    /// How urgently the block needs replicas; `None` if it needs none. `UnknownBlock`. Takes no
    /// memory.
    #[tactic(auto, unfolding(bm_base::specs::Machine::Refusals::block_refusal))]
    pub fn level(&self, id: BlockId) -> Result<Option<Level>, Refusal>
        ensures known { OnOk result (block_refusal self.now.holdings id ≡ None) }
        ensures level { (C : Cluster) → IsUpToDate C self.now
            → IfOk result (λ l. l ≡ levels.level C self.now.holdings id) }
        ensures refused { IfErr result (Refuses (block_refusal self.now.holdings id) false) }
    {
        if !knows_block(&self.blocks, id) {
            return Err(Refusal::UnknownBlock);
        }
        self.blocks.show_invariant();
        self.blocks.arena().show_invariant();
        Ok(self.blocks.level(id))
    }

    /// Whether a block of the shard holds a node back, so that it can't be decommissioned yet: a
    /// replica is drained there, and fewer are live than are wanted. Scans the blocks on the node's
    /// storages alone. Takes no memory.
    pub fn holds_back(&self, node: NodeId, topology: &Topology) -> bool
        ensures { result ≡ holds_back topology.now.cluster node self.now.holdings }
    {
        is_held_back(&self.blocks, topology, node)
    }
}
