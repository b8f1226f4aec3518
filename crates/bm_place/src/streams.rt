// The number of transfers that each node sends in a round.
ghost use Rattle.std.specs.Prelude.{◌≡◌, ◌<◌, ◌+◌, if◌then◌else◌, ℕ, List, [], ◌∷◌, ◌++◌, Some, IfOk, IfErr, OnOk, IfSome};
ghost use Rattle.bm_base.specs.Words.{Cluster, has_storage};
ghost use Rattle.bm_base.specs.declared.refusal.Refusal.TheVariants.{Memory};
ghost use Rattle.bm_base.specs.declared.commands.Transfer.{Transfer};
ghost use Rattle.bm_place.specs.ChoiceResults.{IsCountable, senders_with};
ghost use Rattle.bm_base.specs.Maps.Map as map;
ghost use Rattle.bm_base.specs.Machine.Transfers as transfers;
ghost use Rattle.bm_place.specs.Sources as sources;
ghost use Rattle.bm_place.specs.Tables as tables;

use bm_base::{NodeId, Refusal, StorageId};
use bm_maps::NumberMap;
use bm_topo::Topology;
use std::alloc::{AllocError, Global};
use std::marker::Model;

/// The number of transfers that each node sends in a round.
///
/// Made once for a round of this cluster: it has no transfers of earlier rounds. A contract sees
/// for each storage its node, and a count for each of these nodes.
#[derive(Drop)]
pub struct Streams<'a> {
    topology: &'a Topology,
    counts: NumberMap<u32>,
}

impl<'a> Model for Streams<'a> {
    ghost use Rattle.bm_base.specs.Words.{keys, node_number};
    ghost use Rattle.bm_place.specs.Tables.{table};
    ghost use Rattle.bm_place.specs.Sources.{Senders, coded_senders};

    ghost Value = { Senders };

    ghost coded = { coded_senders };

    ghost view = { λ s. record {
      nodes = table (node_number s.topology.now.cluster) (keys s.topology.now.cluster.storages);
      counts = s.counts.map;
    } };
}

impl<'a> Streams<'a> {
    /// No node sends yet. `Memory` if the table cannot grow. Looks up each storage of the cluster
    /// once.
    pub fn new(alloc: Global, topology: &'a Topology) -> Result<Streams<'a>, Refusal>
        ensures none_yet { IfOk result
            (λ t. t ≡ sources.sender_table topology.now.cluster tables.none_sent) }
        ensures of_transfers { IfOk result (λ t. t ≡ senders_with topology.now.cluster []) }
        ensures refused { IfErr result (λ e. e ≡ Memory) }
    {
        let mut counts = NumberMap::new(alloc);
        let mut last = None;
        for index in 0..topology.storage_count() {
            let Some(storage) = topology.storage_at(index) else {
                return Ok(Streams { topology, counts });
            };
            let node = node_number(topology, storage);
            enter(&mut counts, node, last)?;
            last = Some(node);
        }
        Ok(Streams { topology, counts })
    }

    /// Counts one transfer more for the node of `source`; ignores an unknown storage. The node
    /// sends fewer than 65,536,000 so far, like that of the source that
    /// [`least_source`](crate::least_source) just found. Two look-ups. Takes no memory.
    pub fn add(&mut self, source: StorageId)
        requires countable { IsCountable self.old source }
        ensures after { self.new ≡ sources.with_one_from source self.old }
        ensures sends { (C : Cluster) (sends : ℕ → ℕ) → self.old ≡ sources.sender_table C sends
            → self.new ≡ sources.sender_table C
            (λ n. sends n + (if has_storage C n source then 1 else 0)) }
        ensures of_transfers { (C : Cluster) (chosen : List Transfer) (t : Transfer)
            → t.source ≡ source
            → self.old ≡ senders_with C chosen → self.new ≡ senders_with C (chosen ++ t ∷ []) }
    {
        if let Some(node) = self.topology.node_of(source) {
            add_one(&mut self.counts, node);
        }
    }

    /// The number of transfers that a node sends.
    #[tactic(auto, unfolding(crate::specs::Tables::count_at))]
    pub(crate) fn count_of(&self, node: NodeId) -> u32
        ensures { result ≡ tables.count_at self.now.counts node }
    {
        match self.counts.get(u64::from(node.0)) {
            Some(count) => count,
            None => 0,
        }
    }
}

/// Inserts a node that sends no transfer. `last` is the node that was inserted last, if there is
/// one: the storages of a node mostly have adjacent numbers.
#[tactic(auto, using(crate::proofs::Tables::same_inserted))]
fn enter(counts: &mut NumberMap<u32>, node: NodeId, last: Option<NodeId>) -> Result<(), AllocError>
    requires { IfSome last (λ n. map.get counts.old.map n ≡ Some 0) }
    ensures { OnOk result (counts.new.map ≡ map.insert counts.old.map node 0) }
{
    match last {
        Some(entered) if entered == node => Ok(()),
        _ => counts.insert(u64::from(node.0), 0),
    }
}

/// Counts one more transfer from a known node.
fn add_one(counts: &mut NumberMap<u32>, node: NodeId)
    requires { tables.count_at counts.old.map node < sources.max_transfers }
    ensures { counts.new.map ≡ map.revise_at counts.old.map node (λ k. k + 1) }
{
    if let Some(count) = counts.get(u64::from(node.0)) {
        counts.replace(u64::from(node.0), count + 1);
    }
}

/// The node of a storage; 0 of an unknown one.
#[tactic(auto, unfolding(bm_base::specs::Machine::Transfers::node_number))]
pub(crate) fn node_number(topology: &Topology, storage: StorageId) -> NodeId
    ensures { result ≡ transfers.node_number topology.now.cluster storage }
{
    match topology.node_of(storage) {
        Some(node) => node,
        None => NodeId(0),
    }
}
