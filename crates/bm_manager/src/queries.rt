// The queries of a manager. No query changes anything, and none counts as an accepted call.
ghost use Rattle.std.specs.Prelude.{◌≡◌, true, false, None, IfOk, IfErr, OnOk};
ghost use Rattle.bm_base.specs.Words.{node_refusal, storage_refusal, block_refusal, Refuses};
ghost use Rattle.bm_base.specs.declared.refusal.Refusal.TheVariants.{Memory};
ghost use Rattle.bm_base.specs.Machine.Queries as queries;
ghost use Rattle.bm_base.specs.Machine.Levels as levels;

use crate::manager::Manager;
use bm_base::{BlockId, Items, Level, NodeId, Refusal, Replica, ReplicaId, StorageId};

impl Manager {
    /// How many calls were accepted, from `first_call` on. Takes no memory.
    pub fn calls(&self) -> u64
        ensures { result ≡ self.now.calls }
    {
        self.calls
    }

    /// The number of the last round, from `first_round` on. Takes no memory.
    pub fn rounds(&self) -> u64
        ensures { result ≡ self.now.round }
    {
        self.round
    }

    /// All replicas with their tags, by block and storage. `Memory`.
    pub fn replicas(&self) -> Result<Items<Replica>, Refusal>
        ensures replicas { IfOk result (λ v. v ≡ queries.all_replicas self.now.holdings) }
        ensures refused { IfErr result (λ e. e ≡ Memory) }
    {
        self.shards.replicas()
    }

    /// The stale and bad replicas, by block and storage. `Memory`.
    pub fn corrupt(&self) -> Result<Items<ReplicaId>, Refusal>
        ensures corrupt { IfOk result (λ v. v ≡ queries.corrupt_replicas self.now.holdings) }
        ensures refused { IfErr result (λ e. e ≡ Memory) }
    {
        self.shards.corrupt()
    }

    /// The replicas in excess, by block and storage. `Memory`.
    pub fn excess(&self) -> Result<Items<ReplicaId>, Refusal>
        ensures excess { IfOk result (λ v. v ≡ queries.excess_replicas self.now.holdings) }
        ensures refused { IfErr result (λ e. e ≡ Memory) }
    {
        self.shards.excess()
    }

    /// The blocks of all replicas on a storage, whatever their tags, ascending. `UnknownStorage`;
    /// `Memory`.
    #[tactic(auto, unfolding(bm_base::specs::Machine::Refusals::storage_refusal))]
    pub fn blocks_on(&self, storage: StorageId) -> Result<Items<BlockId>, Refusal>
        ensures known { OnOk result (storage_refusal self.now.cluster storage ≡ None) }
        ensures blocks { IfOk result (λ v. v ≡ queries.blocks_on self.now.holdings storage) }
        ensures refused { IfErr result (Refuses (storage_refusal self.now.cluster storage) true) }
    {
        if !self.topology.knows_storage(storage) {
            return Err(Refusal::UnknownStorage);
        }
        self.shards.blocks_on(storage)
    }

    /// The known blocks without a usable replica, ascending. `Memory`.
    pub fn missing(&self) -> Result<Items<BlockId>, Refusal>
        ensures missing { IfOk result
            (λ v. v ≡ queries.missing_blocks self.now.cluster self.now.holdings) }
        ensures refused { IfErr result (λ e. e ≡ Memory) }
    {
        self.shards.missing()
    }

    /// The storages of the block's good replicas, in excess or not, ascending. `UnknownBlock`;
    /// `Memory`.
    pub fn places(&self, id: BlockId) -> Result<Items<StorageId>, Refusal>
        ensures known { OnOk result (block_refusal self.now.holdings id ≡ None) }
        ensures places { IfOk result (λ v. v ≡ queries.places self.now.holdings id) }
        ensures refused { IfErr result (Refuses (block_refusal self.now.holdings id) true) }
    {
        self.shards.places(id)
    }

    /// Whether a node is decommissioned and can be switched off: it drains, and each block with a
    /// drained replica on it has at least the wanted number of live ones. `UnknownNode`. Takes no
    /// memory.
    #[tactic(auto, unfolding(bm_base::specs::Machine::Refusals::node_refusal, bm_base::specs::Machine::Queries::is_retired, bm_parts::specs::QueryLaws::holds_back))]
    pub fn retired(&self, node: NodeId) -> Result<bool, Refusal>
        ensures known { OnOk result (node_refusal self.now.cluster node ≡ None) }
        ensures retired { IfOk result
            (λ b. b ≡ queries.is_retired self.now.cluster self.now.holdings node) }
        ensures refused { IfErr result (Refuses (node_refusal self.now.cluster node) false) }
    {
        match self.topology.node_drains(node) {
            None => Err(Refusal::UnknownNode),
            Some(drains) => Ok(drains && !self.shards.holds_back(node, &self.topology)),
        }
    }

    /// How urgently the block needs replicas; `None` if it needs none. `UnknownBlock`. Takes no
    /// memory.
    pub fn level(&self, id: BlockId) -> Result<Option<Level>, Refusal>
        ensures known { OnOk result (block_refusal self.now.holdings id ≡ None) }
        ensures level { IfOk result (λ l. l ≡ levels.level self.now.cluster self.now.holdings id) }
        ensures refused { IfErr result (Refuses (block_refusal self.now.holdings id) false) }
    {
        self.shards.level(id)
    }
}
