// A model of DataNodes: how they obey the commands of rounds, and what they report.
ghost use Rattle.std.specs.Prelude.{◌≡◌, ◌++◌, ◌∷◌, [], ℕ, map, List, None, IfOk, OnOk, fold};
ghost use Rattle.bm_base.specs.Words.{after_event, refusal_of};
ghost use Rattle.cluster_report.specs.Catalogues.{len_in};
ghost use Rattle.laws_of_repairs.specs.Repairs.{Covers};
ghost use Rattle.cluster_repair.specs.declared.awaited_copies.Sent.{Sent};
ghost use Rattle.cluster_repair.specs.Reports.{HaveReported, received, deleted, heartbeat_of, free_after};
ghost use Rattle.cluster_repair.specs.History.{AreAtStart, are_idle};
ghost use Rattle.cluster_repair.specs.Rows.{AreReported};
ghost use Rattle.cluster_repair.specs.LinkModel.{free_on};
ghost use Rattle.cluster_repair.specs.SentCopies.{AreBegun, AreCounted, node_with, transfers_in, deletes_in};

use crate::awaited_copies::{OnWay, Sent};
use crate::free_bytes::{FreeBytes, NodeStorages};
use crate::links::Links;
use crate::watch::Watch;
use bm_base::{Commands, Delete, Event, HashSecret, NodeId, Refusal, StorageId, Transfer};
use bm_crew::NoGate;
use bm_manager::Manager;
use bm_topo::Topology;
use cluster_report::catalogue::Catalogue;
use std::alloc::{AllocError, Global};
use std::sync::Wait;
use std::thread::Threads;

/// The copies and deletes that DataNodes have to do, and what they have done.
#[derive(Drop)]
pub struct DataNodes {
    pub links: Links,
    pub on_way: OnWay,
    pub deletes: Vec<Delete>,
    pub free: FreeBytes,
    /// When the last copy arrives, in microseconds.
    pub last_arrival: u64,
    /// The number of copies sent, and their bytes.
    pub copies: u64,
    pub bytes: u128,
}

impl DataNodes {
    /// DataNodes with nothing to do, with the free bytes of the last heartbeats. The tables hash by
    /// this secret.
    pub fn new(
        alloc: Global,
        topology: &Topology,
        bandwidth: u64,
        secret: HashSecret,
    ) -> Result<DataNodes, AllocError>
        ensures counts { IfOk result (AreCounted []) }
        ensures at_start { IfOk result (AreAtStart topology.now.cluster) }
        ensures bandwidth { IfOk result (λ d. d.links.bandwidth ≡ bandwidth) }
    {
        let free = FreeBytes::new(alloc, topology, secret)?;
        Ok(DataNodes {
            links: Links::new(alloc, bandwidth, secret),
            on_way: OnWay::new(alloc, secret),
            deletes: Vec::new(alloc),
            free,
            last_arrival: 0,
            copies: 0,
            bytes: 0,
        })
    }

    /// Whether no copy is on its way, and no delete is left to report.
    pub fn are_idle(&self) -> bool
        ensures { result ≡ are_idle self.now }
    {
        self.on_way.is_empty() && self.deletes.is_empty()
    }

    /// Reports the copies that have arrived by `now`, the deletes, and the free bytes of all nodes.
    pub fn report<H: Threads + Wait + Sync>(
        &mut self,
        rt: &H,
        alloc: Global,
        manager: &mut Manager,
        watch: &mut Watch,
        blocks: &Catalogue,
        now: u64,
    ) -> Result<(), Refusal>
        ensures reported { OnOk result (HaveReported (len_in blocks.now) now self.old self.new
            manager.old manager.new) }
        ensures covers { OnOk result (Covers manager.old watch.old.blocks.items
            → Covers manager.new watch.new.blocks.items) }
        ensures counts { OnOk result ((ss : List Sent) → AreCounted ss self.old
            → AreCounted ss self.new) }
    {
        let due = self.on_way.take_due(alloc, now)?;
        report_copies(rt, manager, watch, due.as_slice())?;
        report_deletes(rt, manager, watch, self.deletes.as_slice())?;
        give_back_deleted(&mut self.free, self.deletes.as_slice(), blocks)?;
        self.deletes.clear();
        report_free(rt, alloc, manager, &self.free)?;
        Ok(())
    }

    /// Begins the copies and deletes that a round commands.
    pub fn obey(
        &mut self,
        topology: &Topology,
        commands: &Commands,
        now: u64,
    ) -> Result<(), AllocError>
        ensures begun { OnOk result (AreBegun topology.now.cluster now
            (transfers_in commands.now) self.old self.new) }
        ensures deletes { OnOk result (self.new.deletes.items
            ≡ self.old.deletes.items ++ deletes_in commands.now) }
    {
        for node in commands.nodes.as_slice() {
            self.send_all(topology, node.transfers.as_slice(), now)?;
            add_deletes(&mut self.deletes, node.deletes.as_slice())?;
        }
        Ok(())
    }

    #[tactic(auto, using(crate::proofs::SentLemmas::begun_none))]
    fn send_all(
        &mut self,
        topology: &Topology,
        transfers: &[Transfer],
        now: u64,
    ) -> Result<(), AllocError>
        ensures begun { OnOk result (AreBegun topology.now.cluster now transfers.now
            self.old self.new) }
        ensures deletes { self.new.deletes ≡ self.old.deletes }
    {
        for transfer in transfers {
            self.send(topology, *transfer, now)?;
        }
        Ok(())
    }

    /// Sends a copy, unless it is on its way already: then the target refuses the second.
    fn send(&mut self, topology: &Topology, transfer: Transfer, now: u64) -> Result<(), AllocError>
        ensures begun { OnOk result (AreBegun topology.now.cluster now (transfer ∷ [])
            self.old self.new) }
        ensures deletes { self.new.deletes ≡ self.old.deletes }
    {
        if self.on_way.has(&transfer) {
            return Ok(());
        }
        let bytes = transfer.stamp.len;
        let source = node_of(topology, transfer.source);
        let target = node_of(topology, transfer.target);
        let arrival = self.links.send(source, target, bytes, now)?;
        self.on_way.add(arrival, transfer)?;
        self.free.take(transfer.target, bytes)?;
        self.last_arrival = self.last_arrival.max(arrival);
        self.copies = self.copies.saturating_add(1);
        self.bytes = self.bytes.saturating_add(u128::from(bytes));
        Ok(())
    }
}

fn add_deletes(deletes: &mut Vec<Delete>, new: &[Delete]) -> Result<(), AllocError>
    ensures { OnOk result (deletes.new.items ≡ deletes.old.items ++ new.now) }
{
    for delete in new {
        deletes.push(*delete)?;
    }
    Ok(())
}

/// Adds the bytes of deleted replicas to the free bytes.
fn give_back_deleted(
    free: &mut FreeBytes,
    deletes: &[Delete],
    blocks: &Catalogue,
) -> Result<(), AllocError>
    ensures free { OnOk result ((s : ℕ) → free_on free.new s
        ≡ fold (free_after (len_in blocks.now) s) (free_on free.old s) deletes.now) }
    ensures nodes { free.new.nodes ≡ free.old.nodes }
    ensures storages { free.new.storages ≡ free.old.storages }
{
    for delete in deletes {
        free.release(delete.storage, blocks.len_of(delete.block))?;
    }
    Ok(())
}

/// The node of a storage; each storage of a command is known.
fn node_of(topology: &Topology, storage: StorageId) -> NodeId
    ensures { result ≡ node_with topology.now.cluster storage }
{
    topology.node_of(storage).unwrap_or(NodeId(0))
}

/// Reports an event. It is refused only if out of memory, since no node or storage leaves.
fn apply<H: Threads + Wait + Sync>(
    rt: &H,
    manager: &mut Manager,
    event: &Event,
) -> Result<(), Refusal>
    ensures accepted { OnOk result (refusal_of manager.old event.now ≡ None) }
    ensures state { OnOk result (manager.new ≡ after_event manager.old event.now) }
{
    let _ = manager.apply(rt, &NoGate, event)?;
    Ok(())
}

#[tactic(auto, using(crate::proofs::Reach::reported_at_once))]
fn report_copies<H: Threads + Wait + Sync>(
    rt: &H,
    manager: &mut Manager,
    watch: &mut Watch,
    due: &[Sent],
) -> Result<(), Refusal>
    ensures { OnOk result (AreReported (map received due.now) manager.old manager.new
        watch.old.blocks.items watch.new.blocks.items) }
{
    for sent in due {
        report_copy(rt, manager, watch, sent)?;
    }
    Ok(())
}

fn report_copy<H: Threads + Wait + Sync>(
    rt: &H,
    manager: &mut Manager,
    watch: &mut Watch,
    sent: &Sent,
) -> Result<(), Refusal>
    ensures { OnOk result (AreReported (received sent.now ∷ []) manager.old manager.new
        watch.old.blocks.items watch.new.blocks.items) }
{
    let copied = sent.transfer;
    let received = Event::Received {
        storage: copied.target,
        id: copied.block,
        stamp: copied.stamp,
    };
    apply(rt, manager, &received)?;
    watch.add(copied.block)?;
    Ok(())
}

#[tactic(auto, using(crate::proofs::Reach::reported_at_once))]
fn report_deletes<H: Threads + Wait + Sync>(
    rt: &H,
    manager: &mut Manager,
    watch: &mut Watch,
    deletes: &[Delete],
) -> Result<(), Refusal>
    ensures { OnOk result (AreReported (map deleted deletes.now) manager.old manager.new
        watch.old.blocks.items watch.new.blocks.items) }
{
    for delete in deletes {
        report_delete(rt, manager, watch, delete)?;
    }
    Ok(())
}

fn report_delete<H: Threads + Wait + Sync>(
    rt: &H,
    manager: &mut Manager,
    watch: &mut Watch,
    delete: &Delete,
) -> Result<(), Refusal>
    ensures { OnOk result (AreReported (deleted delete.now ∷ []) manager.old manager.new
        watch.old.blocks.items watch.new.blocks.items) }
{
    let deleted = Event::Deleted {
        storage: delete.storage,
        id: delete.block,
    };
    apply(rt, manager, &deleted)?;
    watch.add(delete.block)?;
    Ok(())
}

#[tactic(auto, using(crate::proofs::Reach::reported_at_once))]
fn report_free<H: Threads + Wait + Sync>(
    rt: &H,
    alloc: Global,
    manager: &mut Manager,
    free: &FreeBytes,
) -> Result<(), Refusal>
    ensures { OnOk result ((bs : _) → AreReported (map (heartbeat_of free.now) free.now.nodes.items)
        manager.old manager.new bs bs) }
{
    for node in &free.nodes {
        report_free_on(rt, alloc, manager, free, node)?;
    }
    Ok(())
}

fn report_free_on<H: Threads + Wait + Sync>(
    rt: &H,
    alloc: Global,
    manager: &mut Manager,
    free: &FreeBytes,
    node: &NodeStorages,
) -> Result<(), Refusal>
    ensures { OnOk result ((bs : _) → AreReported (heartbeat_of free.now node.now ∷ [])
        manager.old manager.new bs bs) }
{
    let remaining = free.remaining_on(alloc, node)?;
    let heartbeat = Event::Heartbeat {
        node: node.node,
        remaining,
    };
    apply(rt, manager, &heartbeat)?;
    Ok(())
}
