// A made-up cluster, round by round.
ghost use Rattle.std.specs.Prelude.{◌≡◌, IfOk, OnOk};
ghost use Rattle.cluster_report.specs.Sessions.{IsInStep};
ghost use Rattle.laws_of_repairs.specs.Repairs.{Covers};
ghost use Rattle.cluster_simulation.specs.RoundCounts.{IsCounted};
ghost use Rattle.bm_base.specs.Maps.Map as map_of;

use crate::arrivals::note_arrivals;
use crate::block_counts::count_blocks;
use crate::cluster::Cluster;
use crate::corrupt_replicas::corrupt_calls;
use crate::counts::Counts;
use crate::dice::Dice;
use crate::losses::calls_of;
use crate::made_up_cluster::make_up_cluster;
use crate::options::Options;
use crate::plan::Plan;
use bm_base::{Config, HashSecret, Refusal};
use cluster_repair::datanodes::DataNodes;
use cluster_repair::repair::Pace;
use cluster_repair::ticks::Ticks;
use cluster_repair::watch::Watch;
use cluster_report::session::Session;
use std::alloc::Global;
use std::sync::Wait;
use std::thread::Threads;

/// A made-up cluster with its manager, and the blocks that have a level.
#[derive(Drop)]
pub struct Simulation {
    alloc: Global,
    cluster: Cluster,
    watch: Watch,
}

impl Simulation {
    /// An empty cluster with the standard configuration, whose tables hash by this secret. Refused
    /// only if out of memory.
    pub fn new(alloc: Global, secret: HashSecret) -> Result<Simulation, Refusal>
        ensures { IfOk result (λ s. IsInStep s.cluster.session) }
    {
        Ok(Simulation {
            alloc,
            cluster: Cluster {
                session: Session::new(alloc, &Config::standard(), secret)?,
                refused: 0,
            },
            watch: Watch {
                blocks: Vec::new(alloc),
            },
        })
    }

    /// Registers all nodes, and places all blocks. Changes the session in place: it is too large to
    /// be moved through stack frames.
    pub fn begin<R: Threads + Wait + Sync>(
        &mut self,
        rt: &R,
        options: &Options,
        dice: &mut Dice,
    ) -> Result<(), Refusal>
        requires { IsInStep self.old.cluster.session }
        ensures in_step { OnOk result (IsInStep self.new.cluster.session) }
        ensures covers { OnOk result
            (Covers self.new.cluster.session.manager self.new.watch.blocks.items) }
    {
        make_up_cluster(rt, self.alloc, &mut self.cluster, options, dice)?;
        let session = &self.cluster.session;
        self.watch = Watch::new(self.alloc, &session.manager, &session.book.blocks)?;
        Ok(())
    }

    /// Takes a round before the incidents, and returns the counts after it. DataNodes have nothing
    /// to do.
    pub fn take_quiet_round<R: Threads + Wait + Sync>(
        &mut self,
        rt: &R,
        round: u32,
    ) -> Result<Counts, Refusal>
        requires in_step { IsInStep self.old.cluster.session }
        requires covers { Covers self.old.cluster.session.manager self.old.watch.blocks.items }
        ensures in_step { OnOk result (IsInStep self.new.cluster.session) }
        ensures covers { OnOk result
            (Covers self.new.cluster.session.manager self.new.watch.blocks.items) }
        ensures counts { IfOk result (IsCounted self.new.cluster.session.manager) }
    {
        let mut counts = Counts::new(round);
        let commands = self.cluster.take_round(rt)?;
        counts.add_commands(&commands);
        self.count(&mut counts)?;
        Ok(counts)
    }

    /// Makes the planned incidents happen: first the losses, then the corruptions. Returns the
    /// DataNodes after them; copies that were commanded before never arrive.
    pub fn go_wrong<R: Threads + Wait + Sync>(
        &mut self,
        rt: &R,
        options: &Options,
        plan: &Plan,
        dice: &mut Dice,
    ) -> Result<DataNodes, Refusal>
        requires { IsInStep self.old.cluster.session }
        ensures in_step { OnOk result (IsInStep self.new.cluster.session) }
        ensures covers { OnOk result
            (Covers self.new.cluster.session.manager self.new.watch.blocks.items) }
    {
        let lost = calls_of(self.alloc, options.shape, plan.incidents.as_slice())?;
        self.cluster.make_all(rt, lost.as_slice())?;
        let manager = &self.cluster.session.manager;
        let corrupt = corrupt_calls(self.alloc, dice, manager, plan.corrupt, options.blocks)?;
        self.cluster.make_all(rt, corrupt.as_slice())?;
        let session = &self.cluster.session;
        self.watch = Watch::new(self.alloc, &session.manager, &session.book.blocks)?;
        let topology = &session.book.topology;
        let bandwidth = options.pace.bandwidth;
        Ok(DataNodes::new(self.alloc, topology, bandwidth, session.secret)?)
    }

    /// When rounds come to DataNodes of this pace.
    pub fn ticks(&self, pace: Pace) -> Ticks {
        pace.ticks(&self.cluster.session.book.topology)
    }

    /// Takes a round, and returns the counts after it: DataNodes report what they have done by
    /// `now`, in microseconds, and their free bytes; then the manager commands, and DataNodes obey.
    pub fn take_round<R: Threads + Wait + Sync>(
        &mut self,
        rt: &R,
        datanodes: &mut DataNodes,
        round: u32,
        now: u64,
    ) -> Result<Counts, Refusal>
        requires { Covers self.old.cluster.session.manager self.old.watch.blocks.items }
        ensures covers { OnOk result
            (Covers self.new.cluster.session.manager self.new.watch.blocks.items) }
        ensures counts { IfOk result (IsCounted self.new.cluster.session.manager) }
    {
        let mut counts = Counts::new(round);
        self.report(rt, datanodes, now)?;
        let commands = self.cluster.take_round(rt)?;
        datanodes.obey(&self.cluster.session.book.topology, &commands, now)?;
        counts.add_commands(&commands);
        self.count(&mut counts)?;
        Ok(counts)
    }

    fn report<R: Threads + Wait + Sync>(
        &mut self,
        rt: &R,
        datanodes: &mut DataNodes,
        now: u64,
    ) -> Result<(), Refusal>
        requires { Covers self.old.cluster.session.manager self.old.watch.blocks.items }
        ensures { OnOk result
            (Covers self.new.cluster.session.manager self.new.watch.blocks.items) }
    {
        let session = &mut self.cluster.session;
        let book = &mut session.book;
        note_arrivals(
            &mut book.transfers,
            &book.topology,
            datanodes.on_way.sent.as_slice(),
            now,
        );
        let watch = &mut self.watch;
        datanodes.report(
            rt,
            self.alloc,
            &mut session.manager,
            watch,
            &session.book.blocks,
            now,
        )
    }

    /// Counts blocks and replicas after a round, and resets the count of refused calls.
    fn count(&mut self, counts: &mut Counts) -> Result<(), Refusal>
        requires { Covers self.old.cluster.session.manager self.old.watch.blocks.items }
        ensures counts { OnOk result (IsCounted self.new.cluster.session.manager counts.new) }
        ensures covers { OnOk result
            (Covers self.new.cluster.session.manager self.new.watch.blocks.items) }
        ensures pending { OnOk result
            (counts.new.pending ≡ map_of.len self.new.cluster.session.book.transfers.copies) }
        ensures refused { OnOk result (counts.new.refused ≡ self.old.cluster.refused) }
        ensures counted_once { OnOk result (self.new.cluster.refused ≡ 0) }
        ensures in_step { OnOk result
            (IsInStep self.old.cluster.session → IsInStep self.new.cluster.session) }
    {
        let session = &self.cluster.session;
        count_blocks(self.alloc, &session.manager, &mut self.watch, counts)?;
        counts.pending = session.book.transfers.count() as u64;
        counts.refused = self.cluster.refused;
        self.cluster.refused = 0;
        Ok(())
    }
}
