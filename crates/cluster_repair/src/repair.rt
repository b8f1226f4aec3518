// Rounds until nothing more is copied.
ghost use Rattle.std.specs.Prelude.{◌≡◌, ◌+◌, ◌<◌, ◌&&◌, ℕ, false, true, nat_eq, nat_le, [], None, filter, IfOk, OnOk, if◌then◌else◌};
ghost use Rattle.bm_base.specs.Words.{State, knows_node};
ghost use Rattle.cluster_report.specs.Sessions.{IsInStep};
ghost use Rattle.laws_of_repairs.specs.Repairs.{Covers};
ghost use Rattle.cluster_repair.specs.History.{AreAtStart, AreOf, ComesAt, HasTaken, are_idle, awaited_rounds};
ghost use Rattle.cluster_repair.specs.Retirements.{AreAnswered, is_retired_in, note_at, noted, retirement_of};
ghost use Rattle.cluster_repair.specs.Rows.{AreInOrder, IsUnderWay, IsNoted, HasEnded, IsDone, is_over};
ghost use Rattle.cluster_repair.specs.SentCopies.{AreCounted, count_copies};
ghost use Rattle.cluster_repair.specs.Ticks.{ticks_of};
ghost use Rattle.cluster_repair.specs.declared.datanodes.DataNodes.{DataNodes};
ghost use Rattle.cluster_repair.specs.declared.ticks.Ticks.{Ticks};

use crate::datanodes::DataNodes;
use crate::links::MICROS;
use crate::rows::{Row, Rows};
use crate::ticks::Ticks;
use crate::watch::Watch;
use bm_base::{Commands, NodeId, Refusal};
use bm_crew::NoGate;
use bm_manager::Manager;
use bm_topo::Topology;
use cluster_progress::Progress;
use cluster_report::catalogue::Catalogue;
use cluster_report::session::Session;
use cluster_report::transfers::Transfers;
use std::alloc::{AllocError, Global};
use std::sync::Wait;
use std::thread::Threads;

/// At most this number of rounds is taken.
const MOST_ROUNDS: u32 = 1_000_000;

/// How fast DataNodes are, and how often rounds come.
#[derive(Clone, Copy)]
pub struct Pace {
    /// In bytes a second, of each node, in and out.
    pub bandwidth: u64,
    /// In seconds.
    pub interval: u32,
    /// How many copies a round may command for each alive node, as the manager is configured.
    pub work: u32,
}

impl Pace {
    /// The ticks of rounds. A round is skipped while the number of copies on their way is at least
    /// the number that it may command.
    pub fn ticks(self, topology: &Topology) -> Ticks
        ensures { result ≡ ticks_of self topology.now.cluster }
    {
        Ticks {
            interval: u64::from(self.interval) * MICROS,
            enough: u64::from(self.work) * u64::from(topology.alive_nodes()),
        }
    }
}

/// The time from which on a draining node is retired, so that it can be switched off.
#[derive(Clone, Copy)]
pub struct Retirement {
    pub node: NodeId,
    /// The number of rounds after which the manager always answers that it is retired.
    pub rounds: u32,
    /// When the next round comes, in seconds from the first.
    pub seconds: u64,
}

/// The copies of a repair, and the answers of the manager about it.
#[derive(Drop)]
pub struct Repair {
    pub datanodes: DataNodes,
    pub watch: Watch,
    pub rows: Rows,
    /// The alive nodes that drain.
    pub drained: Vec<NodeId>,
    /// The nodes of `drained` that are retired, by the manager's last answer.
    pub retired: Vec<Retirement>,
    /// The rounds that were taken.
    pub rounds: u32,
    /// When the last round was, in microseconds from the first.
    pub time: u64,
    /// The copies that the last round commanded.
    pub commanded: usize,
}

/// The settings of a repair, which do not change during it.
#[derive(Clone, Copy)]
struct Facts<'a> {
    alloc: Global,
    topology: &'a Topology,
    blocks: &'a Catalogue,
    ticks: Ticks,
    /// For how many rounds the manager awaits copies that were commanded before the repair.
    awaited: u32,
}

/// Takes at most a million rounds, until nothing is on its way and a round commands nothing.
/// Copies that were commanded before the repair never arrive; they expire in the manager.
pub fn repair_cluster<R: Eprint + Threads + Wait + Sync>(
    rt: &R,
    alloc: Global,
    session: &mut Session,
    pace: Pace,
    drained: &[NodeId],
    progress: &mut Progress,
) -> Result<Repair, Refusal>
    requires { IsInStep session.old }
    ensures done { IfOk result (IsDone pace session.old.manager session.new.manager) }
    ensures drained { IfOk result (λ r. r.drained.items
        ≡ filter (knows_node session.old.manager.cluster) drained.now) }
    ensures book { session.new.book ≡ session.old.book }
{
    let mut repair = Repair::new(alloc, session, pace, drained)?;
    let book = &session.book;
    let facts = Facts {
        alloc,
        topology: &book.topology,
        blocks: &book.blocks,
        ticks: pace.ticks(&book.topology),
        awaited: awaited_rounds(&book.transfers),
    };
    repair.take_rounds(rt, &mut session.manager, &facts, progress)?;
    repair.note_row(alloc, &session.manager)?;
    repair.note_retired_at_end(&session.manager, &facts)?;
    Ok(repair)
}

/// The number of rounds after which all copies from before the repair have expired.
fn awaited_rounds(transfers: &Transfers) -> u32
    ensures { result ≡ awaited_rounds transfers.now.copies transfers.now.pend }
{
    if transfers.count() == 0 {
        0
    } else {
        transfers.pend()
    }
}

impl Repair {
    /// A repair before its first round.
    fn new(
        alloc: Global,
        session: &Session,
        pace: Pace,
        drained: &[NodeId],
    ) -> Result<Repair, Refusal>
        requires { IsInStep session.now }
        ensures covers { IfOk result (λ r. Covers session.now.manager r.watch.blocks.items) }
        ensures rows { IfOk result (λ r. r.rows.rows.items ≡ []) }
        ensures stride { IfOk result (λ r. r.rows.stride ≡ 1) }
        ensures retired { IfOk result (λ r. r.retired.items ≡ []) }
        ensures rounds { IfOk result (λ r. r.rounds ≡ 0) }
        ensures time { IfOk result (λ r. r.time ≡ 0) }
        ensures commanded { IfOk result (λ r. r.commanded ≡ 0) }
        ensures at_start { IfOk result
            (λ r. AreAtStart session.now.book.topology.cluster r.datanodes) }
        ensures bandwidth { IfOk result (λ r. r.datanodes.links.bandwidth ≡ pace.bandwidth) }
        ensures counts { IfOk result (λ r. AreCounted [] r.datanodes) }
        ensures drained { IfOk result (λ r. r.drained.items
            ≡ filter (knows_node session.now.book.topology.cluster) drained.now) }
    {
        let topology = &session.book.topology;
        let watch = Watch::new(alloc, &session.manager, &session.book.blocks)?;
        let datanodes = DataNodes::new(alloc, topology, pace.bandwidth, session.secret)?;
        let drained = alive_among(alloc, topology, drained)?;
        Ok(Repair {
            datanodes,
            watch,
            rows: Rows::new(alloc),
            drained,
            retired: Vec::new(alloc),
            rounds: 0,
            time: 0,
            commanded: 0,
        })
    }

    fn take_rounds<R: Eprint + Threads + Wait + Sync>(
        &mut self,
        rt: &R,
        manager: &mut Manager,
        facts: &Facts<'_>,
        progress: &mut Progress,
    ) -> Result<(), Refusal>
        requires covers { Covers manager.old self.old.watch.blocks.items }
        requires none { self.old.rounds ≡ 0 }
        ensures covers { OnOk result (Covers manager.new self.new.watch.blocks.items) }
        ensures taken { OnOk result (0 < self.new.rounds) }
        ensures over { OnOk result (is_over facts.now.awaited self.new ≡ true) }
        ensures drained { self.new.drained ≡ self.old.drained }
        ensures in_order { OnOk result (AreInOrder self.old.rounds self.old.rows.stride
            self.old.rows.rows.items
            → AreInOrder self.new.rounds self.new.rows.stride self.new.rows.rows.items) }
        ensures under_way { OnOk result ((M : State) (d : DataNodes)
            → AreOf facts.now.topology.now.cluster facts.now.blocks.now facts.now.awaited M
            → IsUnderWay facts.now.ticks M d manager.old self.old
            → IsUnderWay facts.now.ticks M d manager.new self.new) }
    {
        for past in 0..MOST_ROUNDS {
            progress.show_made(rt, past);
            if self.rounds > 0 && self.is_over(facts) {
                return Ok(());
            }
            self.note_due(facts.alloc, manager)?;
            self.take_round(rt, manager, facts)?;
        }
        Ok(())
    }

    /// Whether the repair ends after the rounds taken so far.
    fn is_over(&self, facts: &Facts<'_>) -> bool
        ensures { result ≡ (nat_le facts.now.awaited self.now.rounds
            && are_idle self.now.datanodes) }
    {
        self.rounds >= facts.awaited && self.datanodes.are_idle()
    }

    /// One round: DataNodes report what they have done and their free bytes, and the manager
    /// commands.
    fn take_round<H: Threads + Wait + Sync>(
        &mut self,
        rt: &H,
        manager: &mut Manager,
        facts: &Facts<'_>,
    ) -> Result<(), Refusal>
        requires covers { Covers manager.old self.old.watch.blocks.items }
        requires few { self.old.rounds < 1000000 }
        requires goes_on { 0 < self.old.rounds
            → (nat_le facts.now.awaited self.old.rounds && are_idle self.old.datanodes) ≡ false }
        ensures covers { OnOk result (Covers manager.new self.new.watch.blocks.items) }
        ensures rounds { OnOk result (self.new.rounds ≡ self.old.rounds + 1) }
        ensures rows { self.new.rows ≡ self.old.rows }
        ensures drained { self.new.drained ≡ self.old.drained }
        ensures under_way { OnOk result ((M : State) (d : DataNodes)
            → AreOf facts.now.topology.now.cluster facts.now.blocks.now facts.now.awaited M
            → IsUnderWay facts.now.ticks M d manager.old self.old
            → IsUnderWay facts.now.ticks M d manager.new self.new) }
    {
        let now = self.next_time(facts.ticks);
        let watch = &mut self.watch;
        self.datanodes
            .report(rt, facts.alloc, manager, watch, facts.blocks, now)?;
        note_retired(
            manager,
            self.drained.as_slice(),
            &mut self.retired,
            self.rounds,
            now / MICROS,
        )?;
        manager.show_invariant();
        let commands = manager.round(rt, &NoGate)?;
        self.datanodes.obey(facts.topology, &commands, now)?;
        self.commanded = count_copies(&commands);
        self.rounds += 1;
        self.time = now;
        Ok(())
    }

    /// When the next round comes, in microseconds.
    fn next_time(&self, ticks: Ticks) -> u64
        ensures { (M : State) (d : DataNodes) (N : State) (history : HasTaken ticks M d N self.now)
            → ComesAt ticks history.taken result }
    {
        if self.rounds == 0 {
            0
        } else {
            ticks.next(self.time, self.datanodes.on_way.sent.as_slice())
        }
    }

    /// Adds the row of the round that was taken last, if it is due.
    fn note_due(&mut self, alloc: Global, manager: &Manager) -> Result<(), Refusal>
        requires { Covers manager.now self.old.watch.blocks.items }
        ensures covers { OnOk result (Covers manager.now self.new.watch.blocks.items) }
        ensures rounds { self.new.rounds ≡ self.old.rounds }
        ensures datanodes { self.new.datanodes ≡ self.old.datanodes }
        ensures drained { self.new.drained ≡ self.old.drained }
        ensures in_order { OnOk result (AreInOrder self.old.rounds self.old.rows.stride
            self.old.rows.rows.items → AreInOrder (self.old.rounds + 1) self.new.rows.stride
            self.new.rows.rows.items) }
        ensures under_way { OnOk result ((ticks : Ticks) (M : State) (d : DataNodes)
            → IsUnderWay ticks M d manager.now self.old
            → IsUnderWay ticks M d manager.now self.new) }
    {
        if self.rounds > 0 && self.rows.is_due(self.rounds) {
            self.note_row(alloc, manager)?;
        }
        Ok(())
    }

    /// Adds the row of the round that was taken last.
    fn note_row(&mut self, alloc: Global, manager: &Manager) -> Result<(), Refusal>
        requires covers { Covers manager.now self.old.watch.blocks.items }
        requires taken { 0 < self.old.rounds }
        ensures covers { OnOk result (Covers manager.now self.new.watch.blocks.items) }
        ensures rounds { self.new.rounds ≡ self.old.rounds }
        ensures datanodes { self.new.datanodes ≡ self.old.datanodes }
        ensures drained { self.new.drained ≡ self.old.drained }
        ensures in_order { OnOk result (AreInOrder self.old.rounds self.old.rows.stride
            self.old.rows.rows.items → AreInOrder (self.old.rounds + 1) self.new.rows.stride
            self.new.rows.rows.items) }
        ensures noted { OnOk result ((ticks : Ticks) (M : State) (d : DataNodes)
            → IsUnderWay ticks M d manager.now self.old
            → IsNoted ticks M d manager.now self.new) }
    {
        let levels = self.watch.count(alloc, manager)?;
        let row = Row {
            round: self.rounds,
            seconds: self.time / MICROS,
            levels,
            commanded: self.commanded,
            on_way: self.datanodes.on_way.len(),
        };
        self.rows.push(alloc, row)?;
        Ok(())
    }

    /// Notes which nodes are retired after the last round, at the time of the next one.
    fn note_retired_at_end(&mut self, manager: &Manager, facts: &Facts<'_>) -> Result<(), Refusal>
        ensures rounds { self.new.rounds ≡ self.old.rounds }
        ensures datanodes { self.new.datanodes ≡ self.old.datanodes }
        ensures drained { self.new.drained ≡ self.old.drained }
        ensures rows { self.new.rows ≡ self.old.rows }
        ensures ended { OnOk result ((M : State) (d : DataNodes)
            → IsNoted facts.now.ticks M d manager.now self.old
            → HasEnded facts.now.ticks M d manager.now self.new) }
    {
        let next = self.next_time(facts.ticks);
        note_retired(
            manager,
            self.drained.as_slice(),
            &mut self.retired,
            self.rounds,
            next / MICROS,
        )?;
        Ok(())
    }
}

/// Those of these nodes that are alive.
fn alive_among(
    alloc: Global,
    topology: &Topology,
    drained: &[NodeId],
) -> Result<Vec<NodeId>, AllocError>
    ensures { IfOk result (λ v. v.items ≡ filter (knows_node topology.now.cluster) drained.now) }
{
    let mut alive = Vec::new(alloc);
    for node in drained {
        if topology.node_drains(*node).is_some() {
            alive.push(*node)?;
        }
    }
    Ok(alive)
}

/// Notes what the manager answers about these nodes after this number of rounds, as the next one
/// comes.
fn note_retired(
    manager: &Manager,
    drained: &[NodeId],
    retired: &mut Vec<Retirement>,
    rounds: u32,
    seconds: u64,
) -> Result<(), Refusal>
    ensures { OnOk result (AreAnswered manager.now drained.now rounds seconds
        retired.old.items retired.new.items) }
{
    for node in drained {
        note_answer(manager, *node, retired, rounds, seconds)?;
    }
    Ok(())
}

/// Notes that a node is retired, with the round and the time, unless it is noted already. Drops its
/// note if it is not retired.
fn note_answer(
    manager: &Manager,
    node: NodeId,
    retired: &mut Vec<Retirement>,
    rounds: u32,
    seconds: u64,
) -> Result<(), Refusal>
    ensures { OnOk result ((n : ℕ) → retirement_of retired.new.items n ≡ (if nat_eq node n
        then noted (is_retired_in manager.now n) (retirement_of retired.old.items n)
        (note_at n rounds seconds)
        else retirement_of retired.old.items n)) }
{
    if !manager.retired(node)? {
        drop_note(retired, node);
    } else if retirement_of(retired.as_slice(), node).is_none() {
        retired.push(Retirement {
            node,
            rounds,
            seconds,
        })?;
    }
    Ok(())
}

fn drop_note(retired: &mut Vec<Retirement>, node: NodeId)
    ensures { (n : ℕ) → retirement_of retired.new.items n
        ≡ (if nat_eq node n then None else retirement_of retired.old.items n) }
{
    retired.retain(|retirement| retirement.node != node);
}

/// The note of a node, if it is retired.
pub fn retirement_of(retired: &[Retirement], node: NodeId) -> Option<Retirement>
    ensures { result ≡ retirement_of retired.now node }
{
    for retirement in retired {
        if retirement.node == node {
            return Some(*retirement);
        }
    }
    None
}

fn count_copies(commands: &Commands) -> usize
    ensures { result ≡ count_copies commands.now }
{
    let mut copies = 0usize;
    for node in commands.nodes.as_slice() {
        copies = copies.saturating_add(node.transfers.as_slice().len());
    }
    copies
}
