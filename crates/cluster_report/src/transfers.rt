// The pending copies: commanded, and neither arrived nor expired. The manager has no query for
// them, so they are kept here by its rules.
ghost use Rattle.std.specs.Prelude.{◌≡◌, ◌==◌, ◌&&◌, ◌-◌, OnOk, None, true, not, nat_le, if◌then◌else◌, flat_map};
ghost use Rattle.bm_base.specs.Words.{list_any, Holdings, replica_at, expanded, change_holdings, is_named, first_of, cluster_checks, knows_node, drains, has_storage};
ghost use Rattle.cluster_report.specs.Copies.{commanded_to};
ghost use Rattle.bm_base.specs.Maps.Map as map_of;

use bm_base::{BlockId, Commands, Entry, Event, NodeCommands, NodeId, ReplicaId, StorageId};
use bm_topo::Topology;
use std::alloc::{AllocError, Global};
use std::collections::BTreeMap;
use std::marker::Model;

/// The pending copies. A copy is found, added or removed in logarithmic time.
#[derive(Drop)]
pub struct Transfers {
    /// For each copy, by block and target, the round that commanded it.
    rounds: BTreeMap<ReplicaId, u64>,
    /// The number of rounds after which a copy expires.
    pend: u32,
}

impl Model for Transfers {
    ghost use Rattle.std.specs.BTreeMap.{IsOrdered};
    ghost use Rattle.bm_base.specs.Words.{replica_cmp};
    ghost use Rattle.bm_base.specs.Maps.OfSorted.{of_sorted};
    ghost use Rattle.cluster_report.specs.Copies.{PendingCopies};

    ghost Value = { PendingCopies };

    ghost view = { λ t. record { copies = of_sorted t.rounds.entries; pend = t.pend } };

    ghost invariant = { λ t. IsOrdered replica_cmp t.rounds };
}

impl Transfers {
    /// No copy. Takes no memory.
    pub fn new(alloc: Global, pend: u32) -> Transfers
        ensures copies { result.copies ≡ map_of.empty }
        ensures pend { result.pend ≡ pend }
    {
        Transfers {
            rounds: BTreeMap::new(alloc),
            pend,
        }
    }

    /// Returns the number of pending copies.
    pub fn count(&self) -> usize
        ensures { result ≡ map_of.len self.now.copies }
    {
        self.rounds.len()
    }

    /// The number of rounds after which a copy expires.
    pub fn pend(&self) -> u32
        ensures { result ≡ self.now.pend }
    {
        self.pend
    }

    /// Forgets the copies that an accepted event removes; `topology` is the cluster before it. An
    /// event that may remove several copies scans all of them.
    #[tactic(auto, unfolding(bm_base::specs::Machine::Events::change_holdings, bm_base::specs::Machine::Events::without_storages, bm_base::specs::Machine::Events::begin_drain, bm_base::specs::Machine::Events::add_block, bm_base::specs::Machine::Events::delete_block, bm_base::specs::Machine::Events::without_pending, bm_base::specs::Machine::Events::change_marks_of_block, bm_base::specs::Machine::Events::set_replication, bm_base::specs::Machine::Events::restamp, bm_base::specs::Machine::Events::enter, bm_base::specs::Machine::Events::remove_replica, bm_base::specs::Machine::Events::make_bad, bm_base::specs::Machine::Events::report, bm_base::specs::Machine::Refusals::cluster_checks))]
    pub fn take_event(&mut self, topology: &Topology, event: &Event)
        requires { first_of (cluster_checks topology.now.cluster event.now) ≡ None }
        ensures copies { (H : Holdings) → self.old.copies ≡ H.pending
            → self.new.copies ≡ (change_holdings topology.now.cluster H event.now).pending }
        ensures pend { self.new.pend ≡ self.old.pend }
    {
        match event {
            Event::Dead { node } => self.forget_node(topology, *node),
            Event::Drain { node } => self.begin_to_drain(topology, *node),
            Event::StorageFailed { storage } => self.forget_storage(*storage),
            Event::DeleteBlock { id } | Event::Restamp { id, .. } => self.forget_block(*id),
            Event::Received { storage, id, .. } => self.arrive(*storage, *id),
            Event::FullReport { storage, entries } => {
                self.arrive_all(*storage, entries.as_slice());
            }
            Event::Register { .. }
            | Event::Heartbeat { .. }
            | Event::Undrain { .. }
            | Event::AddBlock { .. }
            | Event::SetReplication { .. }
            | Event::Deleted { .. }
            | Event::Corrupt { .. } => {}
        }
    }

    fn begin_to_drain(&mut self, topology: &Topology, node: NodeId)
        requires { knows_node topology.now.cluster node ≡ true }
        ensures copies { self.new.copies ≡ (if drains topology.now.cluster node
            then self.old.copies else map_of.keep self.old.copies
            (λ q _. not (has_storage topology.now.cluster node q.storage))) }
        ensures pend { self.new.pend ≡ self.old.pend }
    {
        if topology.node_drains(node) != Some(true) {
            self.forget_node(topology, node);
        }
    }

    fn forget_node(&mut self, topology: &Topology, node: NodeId)
        ensures copies { self.new.copies ≡ map_of.keep self.old.copies
            (λ q _. not (has_storage topology.now.cluster node q.storage)) }
        ensures pend { self.new.pend ≡ self.old.pend }
    {
        self.rounds
            .retain(|copy, _| !topology.has_storage(node, copy.storage));
    }

    fn forget_storage(&mut self, storage: StorageId)
        ensures copies { self.new.copies ≡ map_of.keep self.old.copies
            (λ q _. not (q.storage == storage)) }
        ensures pend { self.new.pend ≡ self.old.pend }
    {
        self.rounds.retain(|copy, _| copy.storage != storage);
    }

    fn forget_block(&mut self, block: BlockId)
        ensures copies { self.new.copies ≡ map_of.keep self.old.copies
            (λ q _. not (q.block == block)) }
        ensures pend { self.new.pend ≡ self.old.pend }
    {
        self.rounds.retain(|copy, _| copy.block != block);
    }

    fn arrive(&mut self, storage: StorageId, block: BlockId)
        ensures copies { self.new.copies
            ≡ map_of.remove self.old.copies (replica_at block storage) }
        ensures pend { self.new.pend ≡ self.old.pend }
    {
        self.rounds.remove(&ReplicaId { block, storage });
    }

    /// Removes the pending copies to a storage of all blocks that a report names: they have
    /// arrived.
    fn arrive_all(&mut self, storage: StorageId, entries: &[Entry])
        ensures copies { self.new.copies ≡ map_of.keep self.old.copies
            (λ q _. not ((q.storage == storage) && is_named (expanded entries.now) q.block)) }
        ensures pend { self.new.pend ≡ self.old.pend }
    {
        self.rounds.retain(|copy, _| !(copy.storage == storage && is_named(entries, copy.block)));
    }

    /// Notes a round: drops expired copies, and adds those that the round commands.
    pub fn take_round(&mut self, commands: &Commands) -> Result<(), AllocError>
        ensures copies { OnOk result (self.new.copies ≡ map_of.insert_all
            (map_of.keep self.old.copies
            (λ _ r. not (nat_le self.old.pend (commands.now.round - r))))
            (flat_map (commanded_to commands.now.round) commands.now.nodes)) }
        ensures pend { self.new.pend ≡ self.old.pend }
    {
        let round = commands.round;
        self.drop_expired(round);
        for node in commands.nodes.as_slice() {
            self.add_node(round, node)?;
        }
        Ok(())
    }

    /// Forgets the expired copies.
    fn drop_expired(&mut self, round: u64)
        ensures copies { self.new.copies ≡ map_of.keep self.old.copies
            (λ _ r. not (nat_le self.old.pend (round - r))) }
        ensures pend { self.new.pend ≡ self.old.pend }
    {
        let pend = u64::from(self.pend);
        self.rounds
            .retain(|_, commanded| !(pend <= round.saturating_sub(*commanded)));
    }

    fn add_node(&mut self, round: u64, commands: &NodeCommands) -> Result<(), AllocError>
        ensures copies { OnOk result (self.new.copies
            ≡ map_of.insert_all self.old.copies (commanded_to round commands.now)) }
        ensures pend { self.new.pend ≡ self.old.pend }
    {
        for transfer in commands.transfers.as_slice() {
            let copy = ReplicaId {
                block: transfer.block,
                storage: transfer.target,
            };
            self.insert(copy, round)?;
        }
        Ok(())
    }

    fn insert(&mut self, copy: ReplicaId, round: u64) -> Result<(), AllocError>
        ensures copies { OnOk result
            (self.new.copies ≡ map_of.insert self.old.copies copy round) }
        ensures pend { self.new.pend ≡ self.old.pend }
    {
        self.rounds.insert(copy, round)?;
        Ok(())
    }
}

/// Whether an entry names the block.
fn is_named(entries: &[Entry], block: BlockId) -> bool
    ensures { result ≡ list_any (λ e. nat_le e.from block && nat_le block e.to) entries.now }
{
    entries.iter().any(|entry| names(entry, block))
}

/// Whether the block is in the entry's run.
fn names(entry: &Entry, block: BlockId) -> bool
    ensures { result ≡ (nat_le entry.now.from block && nat_le block entry.now.to) }
{
    entry.from <= block && block <= entry.to
}
