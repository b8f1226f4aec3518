// Lists of all shards: gathered in one vector, and sorted once. The sort makes use of the order
// that each shard's list has already.
ghost use Rattle.std.specs.Prelude.{◌≡◌, IfOk, IfErr};
ghost use Rattle.bm_base.specs.Words.{Cluster};
ghost use Rattle.bm_base.specs.declared.refusal.Refusal.TheVariants.{Memory};
ghost use Rattle.bm_queries.specs.ListedElements.{wants, replicas_passing};
ghost use Rattle.bm_shards.specs.Whole.{IsUpToDate};
ghost use Rattle.bm_base.specs.Machine.Queries as queries;

use crate::all_shards::AllShards;
use bm_base::{BlockId, Items, Refusal, Replica, ReplicaId, StorageId};
use bm_queries::{ReplicaFilter, replica_key, replica_keys};

impl AllShards {
    /// The replicas of the given kind, by block and storage. `Memory`.
    fn list_replicas(&self, wanted: ReplicaFilter) -> Result<Vec<Replica>, Refusal>
        ensures replicas { IfOk result
            (λ v. v.items ≡ replicas_passing (wants wanted) self.now.holdings.replicas) }
        ensures refused { IfErr result (λ e. e ≡ Memory) }
    {
        let mut all = Vec::new(self.alloc);
        for one in &self.shards {
            let list = one.1.list_replicas(wanted)?;
            all.extend_from_slice(list.as_slice())?;
        }
        all.sort_by_key(|replica| replica_key(replica))?;
        Ok(all)
    }

    /// All replicas with their tags, by block and storage. `Memory`.
    pub fn replicas(&self) -> Result<Items<Replica>, Refusal>
        ensures replicas { IfOk result (λ v. v ≡ queries.all_replicas self.now.holdings) }
        ensures refused { IfErr result (λ e. e ≡ Memory) }
    {
        Ok(Items::from_vec(self.list_replicas(ReplicaFilter::All)?))
    }

    /// The stale and bad replicas, by block and storage. `Memory`.
    pub fn corrupt(&self) -> Result<Items<ReplicaId>, Refusal>
        ensures corrupt { IfOk result (λ v. v ≡ queries.corrupt_replicas self.now.holdings) }
        ensures refused { IfErr result (λ e. e ≡ Memory) }
    {
        let all = self.list_replicas(ReplicaFilter::Corrupt)?;
        Ok(Items::from_vec(replica_keys(self.alloc, all.as_slice())?))
    }

    /// The replicas in excess, by block and storage. `Memory`.
    pub fn excess(&self) -> Result<Items<ReplicaId>, Refusal>
        ensures excess { IfOk result (λ v. v ≡ queries.excess_replicas self.now.holdings) }
        ensures refused { IfErr result (λ e. e ≡ Memory) }
    {
        let all = self.list_replicas(ReplicaFilter::Excess)?;
        Ok(Items::from_vec(replica_keys(self.alloc, all.as_slice())?))
    }

    /// The known blocks without a usable replica, ascending. `Memory`.
    #[tactic(auto, unfolding(crate::specs::Whole::IsUpToDate))]
    pub fn missing(&self) -> Result<Items<BlockId>, Refusal>
        ensures missing { (C : Cluster) → IsUpToDate C self.now
            → IfOk result (λ v. v ≡ queries.missing_blocks C self.now.holdings) }
        ensures refused { IfErr result (λ e. e ≡ Memory) }
    {
        let mut all = Vec::new(self.alloc);
        for one in &self.shards {
            let list = one.1.missing()?;
            all.extend_from_slice(list.as_slice())?;
        }
        all.sort()?;
        Ok(Items::from_vec(all))
    }

    /// The blocks of all replicas on a storage, whatever their tags, ascending. `Memory`.
    pub fn blocks_on(&self, storage: StorageId) -> Result<Items<BlockId>, Refusal>
        ensures blocks { IfOk result (λ v. v ≡ queries.blocks_on self.now.holdings storage) }
        ensures refused { IfErr result (λ e. e ≡ Memory) }
    {
        let mut all = Vec::new(self.alloc);
        for one in &self.shards {
            let list = one.1.blocks_on(storage)?;
            all.extend_from_slice(list.as_slice())?;
        }
        all.sort()?;
        Ok(Items::from_vec(all))
    }
}
