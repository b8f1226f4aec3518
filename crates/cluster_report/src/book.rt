// The facts for which the manager has no query: its nodes and storages, the pending copies, and the
// lengths of blocks.
ghost use Rattle.std.specs.Prelude.{◌≡◌, IfOk, IsTrue, OnOk, OnErr, unwrap_or};
ghost use Rattle.bm_base.specs.Words.{Cluster, Holdings, empty_cluster, change_cluster, change_holdings, first_of, cluster_checks};
ghost use Rattle.bm_base.specs.Machine.Configuration.{are_allowed};
ghost use Rattle.cluster_report.specs.Books.{IsAccepted, cluster_after, AreCopiesAfter, AreBlocksAfter};
ghost use Rattle.cluster_report.specs.Catalogues.{info_in, Lists};
ghost use Rattle.bm_base.specs.Maps.Map as map;

use crate::catalogue::Catalogue;
use crate::transfers::Transfers;
use bm_base::{
    Answer, BlockId, BlockInfo, Call, Config, Event, HashSecret, Limits, NodeId, Rack, Refusal,
};
use bm_maps::NumberMap;
use bm_topo::Topology;
use std::alloc::{AllocError, Global};

/// The cluster, the racks of its nodes, the pending copies, and the stamp and wanted replicas of
/// each block.
#[derive(Drop)]
pub struct Book {
    pub topology: Topology,
    pub racks: NumberMap<Rack>,
    pub transfers: Transfers,
    pub blocks: Catalogue,
    ghost on_racks: { racks.map ≡ topology.cluster.nodes },
}

impl Book {
    /// The book of a new manager within these limits, whose tables hash by this secret.
    #[tactic(auto, unfolding(bm_base::specs::Machine::State::empty_cluster))]
    pub fn new(
        alloc: Global,
        config: &Config,
        limits: Limits,
        secret: HashSecret,
    ) -> Result<Book, Refusal>
        requires { IsTrue (are_allowed limits) }
        ensures cluster { IfOk result (λ b. b.topology.cluster ≡ empty_cluster limits) }
        ensures copies { IfOk result (λ b. b.transfers.copies ≡ map.empty) }
        ensures pend { IfOk result (λ b. b.transfers.pend ≡ config.now.pend) }
        ensures blocks { IfOk result (λ b. Lists b.blocks map.empty) }
    {
        Ok(Book {
            topology: Topology::new(alloc, limits)?,
            racks: NumberMap::new(alloc),
            transfers: Transfers::new(alloc, config.pend),
            blocks: Catalogue::new(alloc, secret),
        })
    }

    /// Notes the effect of a call and its answer on nodes, storages, copies and blocks.
    pub fn take(&mut self, call: &Call, answer: &Answer) -> Result<(), AllocError>
        requires { IsAccepted self.old.topology.cluster call.now answer.now }
        ensures cluster { OnOk result (self.new.topology.cluster
            ≡ cluster_after self.old.topology.cluster call.now answer.now) }
        ensures copies { OnOk result (AreCopiesAfter self.old.topology.cluster
            self.old.transfers call.now answer.now self.new.transfers) }
        ensures pend { OnOk result (self.new.transfers.pend ≡ self.old.transfers.pend) }
        ensures blocks { OnOk result (AreBlocksAfter self.old.topology.cluster self.old.blocks
            call.now answer.now self.new.blocks) }
    {
        match (call, answer) {
            (Call::Apply(event), Answer::Done(_)) => self.take_event(event),
            (Call::Round, Answer::Commanded(commands)) => self.transfers.take_round(commands),
            _ => Ok(()),
        }
    }

    /// Notes an event that the manager accepted. An event that may remove several pending copies
    /// scans all of them; the rest scans at most the nodes and the storages.
    pub fn take_event(&mut self, event: &Event) -> Result<(), AllocError>
        requires { first_of (cluster_checks self.old.topology.cluster event.now) ≡ None }
        ensures cluster { OnOk result (self.new.topology.cluster
            ≡ change_cluster self.old.topology.cluster event.now) }
        ensures copies { OnOk result ((H : Holdings) → self.old.transfers.copies ≡ H.pending
            → self.new.transfers.copies
            ≡ (change_holdings self.old.topology.cluster H event.now).pending) }
        ensures pend { OnOk result (self.new.transfers.pend ≡ self.old.transfers.pend) }
        ensures blocks { OnOk result ((C : Cluster) (H : Holdings) → Lists self.old.blocks H.blocks
            → Lists self.new.blocks (change_holdings C H event.now).blocks) }
    {
        if self.topology.prepare(event).is_err() {
            return Err(AllocError);
        }
        self.blocks.take_event(event)?;
        take_rack(&mut self.racks, event)?;
        self.transfers.take_event(&self.topology, event);
        self.topology.commit(event);
        Ok(())
    }

    /// The stamp and the wanted replicas of a known block.
    pub fn info_of(&self, block: BlockId) -> Option<BlockInfo>
        ensures { result ≡ info_in self.now.blocks block }
    {
        self.blocks.get(block)
    }

    /// The rack of a node; 0 of an unknown node.
    pub fn rack_of(&self, node: NodeId) -> Rack
        ensures { result ≡ unwrap_or (map.get self.now.topology.cluster.nodes node) 0 }
    {
        match self.racks.get(u64::from(node.0)) {
            Some(rack) => rack,
            None => Rack(0),
        }
    }
}

/// Adds or removes a node's rack.
#[tactic(auto, unfolding(bm_base::specs::Machine::Events::change_cluster, bm_base::specs::Machine::Events::register, bm_base::specs::Machine::Events::without_node, bm_base::specs::Machine::Events::without_storage, bm_base::specs::Machine::Events::heartbeat, bm_base::specs::Machine::Events::drain, bm_base::specs::Machine::Events::undrain))]
fn take_rack(racks: &mut NumberMap<Rack>, event: &Event) -> Result<(), AllocError>
    ensures ok { OnOk result ((C : Cluster) → racks.old.map ≡ C.nodes
        → racks.new.map ≡ (change_cluster C event.now).nodes) }
    ensures err { OnErr result (racks.new.map ≡ racks.old.map) }
{
    match event {
        Event::Register { node, rack, .. } => racks.insert(u64::from(node.0), *rack),
        Event::Dead { node } => {
            racks.remove(u64::from(node.0));
            Ok(())
        }
        Event::StorageFailed { .. }
        | Event::Heartbeat { .. }
        | Event::Drain { .. }
        | Event::Undrain { .. }
        | Event::AddBlock { .. }
        | Event::DeleteBlock { .. }
        | Event::SetReplication { .. }
        | Event::Restamp { .. }
        | Event::Received { .. }
        | Event::Deleted { .. }
        | Event::Corrupt { .. }
        | Event::FullReport { .. } => Ok(()),
    }
}
