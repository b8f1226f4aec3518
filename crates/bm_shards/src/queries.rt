// The queries of one block or node. They change nothing.
ghost use Rattle.std.specs.Prelude.{◌≡◌, true, false, None, IfOk, IfErr, OnOk};
ghost use Rattle.bm_base.specs.Words.{list_any, Cluster, block_refusal, Refuses};
ghost use Rattle.bm_shards.specs.Whole.{IsUpToDate};
ghost use Rattle.bm_base.specs.Machine.Queries as queries;
ghost use Rattle.bm_base.specs.Machine.Levels as levels;
ghost use Rattle.bm_parts.specs.QueryLaws as asked;
ghost use Rattle.bm_shard.specs.UpToDate as shard;

use crate::all_shards::AllShards;
use crate::events::own_shard;
use bm_base::{BlockId, Items, Level, NodeId, Refusal, StorageId};
use bm_shard::Shard;
use bm_topo::Topology;

impl AllShards {
    /// The storages of the block's good replicas, ascending. Asks the block's shard alone.
    /// `UnknownBlock`; `Memory`.
    pub fn places(&self, id: BlockId) -> Result<Items<StorageId>, Refusal>
        ensures known { OnOk result (block_refusal self.now.holdings id ≡ None) }
        ensures places { IfOk result (λ v. v ≡ queries.places self.now.holdings id) }
        ensures refused { IfErr result (Refuses (block_refusal self.now.holdings id) true) }
    {
        own_shard(self.shards.as_slice(), id).places(id)
    }

    /// How urgently the block needs replicas; `None` if it needs none. Asks the block's shard
    /// alone. `UnknownBlock`. Takes no memory.
    #[tactic(auto, unfolding(crate::specs::Whole::IsUpToDate))]
    pub fn level(&self, id: BlockId) -> Result<Option<Level>, Refusal>
        ensures known { OnOk result (block_refusal self.now.holdings id ≡ None) }
        ensures level { (C : Cluster) → IsUpToDate C self.now
            → IfOk result (λ l. l ≡ levels.level C self.now.holdings id) }
        ensures refused { IfErr result (Refuses (block_refusal self.now.holdings id) false) }
    {
        own_shard(self.shards.as_slice(), id).level(id)
    }

    /// Whether some block holds a node back, so that it can't be decommissioned yet: a replica is
    /// drained there, and fewer are live than are wanted. Scans the blocks on the node's storages
    /// alone. Takes no memory.
    pub fn holds_back(&self, node: NodeId, topology: &Topology) -> bool
        ensures { result ≡ asked.holds_back topology.now.cluster node self.now.holdings }
    {
        any_holds_back(self.shards.as_slice(), node, topology)
    }
}

fn any_holds_back(shards: &[(u32, Shard)], node: NodeId, topology: &Topology) -> bool
    ensures { result ≡ list_any
        (λ s. asked.holds_back topology.now.cluster node s.1.holdings) shards.now }
{
    for one in shards {
        if one.1.holds_back(node, topology) {
            return true;
        }
    }
    false
}
