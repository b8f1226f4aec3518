// The manager: one call after another.
ghost use Rattle.std.specs.Prelude.{◌≡◌, ◌<◌, true, None, IfOk, IfErr, OnOk, OnErr};
ghost use Rattle.bm_base.specs.Words.{first_state, first_state_within, refusal_of, first_of, ◌before◌, cluster_checks, block_checks, last_number, config_refusal, limits_refusal, done_by, after_event, checked, Refuses, takes_memory, IsLawful};

use bm_base::{Config, Done, Event, HashSecret, Limits, Refusal};
use bm_crew::Gate;
use bm_shards::{AllShards, CallingThread, Threaded, Workers};
use bm_topo::Topology;
use std::alloc::Global;
use std::marker::Model;
use std::sync::Wait;
use std::thread::Threads;

/// Knows on which storages every block is, and decides about replication for a cluster.
///
/// A contract sees it as the definitions' state: the limits of rounds, the cluster and its limits,
/// the blocks and their replicas, the round and the number of accepted calls. The blocks are cut
/// into shards. A crew of threads, or the calling thread alone, processes a call that concerns all
/// shards; no answer depends on that.
///
/// ```text
/// let mut manager = Manager::new(alloc, Config::standard())?;
/// manager.apply(&rt, &NoGate, &Event::AddBlock { id: BlockId(7), stamp, repl: 2 })?;
/// let received = Event::Received { storage: StorageId(11), id: BlockId(7), stamp };
/// manager.apply(&rt, &NoGate, &received)?;
/// let storages = manager.places(BlockId(7))?;
/// let commands = manager.round(&rt, &NoGate)?;
/// ```
///
/// A refused call has changed nothing; after `Err(Memory)` the same call may be made again. The
/// work of each shard in a call passes the call's gate; `NoGate` lets it through at once.
#[derive(Drop)]
pub struct Manager {
    pub(crate) alloc: Global,
    pub(crate) config: Config,
    pub(crate) topology: Topology,
    pub(crate) shards: AllShards,
    pub(crate) round: u64,
    pub(crate) calls: u64,
}

impl Model for Manager {
    ghost use Rattle.bm_base.specs.Machine.State.{State};
    ghost use Rattle.bm_base.specs.Codes.{coded_state};
    ghost use Rattle.bm_manager.specs.Managers.{state_of, IsManager};

    ghost Value = { State };

    ghost coded = { coded_state };

    ghost view = { λ m. state_of m.config m.topology.cluster m.shards.holdings m.round m.calls };

    ghost invariant = { λ m. IsManager m.config m.topology.cluster m.shards m.round m.calls };
}

impl Manager {
    /// An empty manager: no node, no block, and the numbers of the configuration. At most 256 nodes
    /// may be alive, and there may be 4,096 storages: [`Manager::with_limits`] takes other limits.
    /// `BadConfig` if the configuration is outside its ranges; `Memory`. Its tables hash by no
    /// secret, so numbers can be chosen that make calls slow: if they may come from an attacker,
    /// use [`Manager::with_secret`].
    pub fn new(alloc: Global, config: Config) -> Result<Manager, Refusal>
        ensures allowed { OnOk result (config_refusal config ≡ None) }
        ensures state { IfOk result (λ m. m ≡ first_state config) }
        ensures refused { IfErr result (Refuses (config_refusal config) true) }
    {
        Manager::with_secret(alloc, config, HashSecret::none())
    }

    /// As [`Manager::new`], but the tables hash by this secret. No answer, refusal or command
    /// depends on it.
    pub fn with_secret(
        alloc: Global,
        config: Config,
        secret: HashSecret,
    ) -> Result<Manager, Refusal>
        ensures allowed { OnOk result (config_refusal config ≡ None) }
        ensures state { IfOk result (λ m. m ≡ first_state config) }
        ensures refused { IfErr result (Refuses (config_refusal config) true) }
    {
        Manager::with_limits(alloc, config, Limits::standard(), secret)
    }

    /// As [`Manager::with_secret`], within these limits: how many nodes may be alive at a time, 1
    /// to 65,536, and how many storages there may be, 1 to 1,048,576. A `Register` past a limit is
    /// refused as `TooMany`. `BadConfig` if the configuration or a limit is outside its range;
    /// `Memory`.
    pub fn with_limits(
        alloc: Global,
        config: Config,
        limits: Limits,
        secret: HashSecret,
    ) -> Result<Manager, Refusal>
        ensures allowed { OnOk result (config_refusal config ≡ None) }
        ensures allowed_limits { OnOk result (limits_refusal limits ≡ None) }
        ensures state { IfOk result (λ m. m ≡ first_state_within limits config) }
        ensures refused { IfErr result
            (Refuses (config_refusal config before limits_refusal limits) true) }
    {
        config.check()?;
        limits.check()?;
        Ok(Manager {
            alloc,
            config,
            topology: Topology::new(alloc, limits)?,
            shards: AllShards::new(alloc, &config, secret)?,
            round: config.first_round,
            calls: config.first_call,
        })
    }

    /// Takes one event. The refusals are those of its variant in their order, then `CallsSpent` if
    /// the number of accepted calls is at its last value, then `Memory`; a refused event changes
    /// nothing. Heartbeat, DeleteBlock, SetReplication, Restamp, Deleted and Corrupt take no
    /// memory, so they are accepted if no check refuses them.
    ///
    /// Register, Dead, StorageFailed, FullReport, Drain and Undrain are processed by the crew, as
    /// rounds are, so these calls may wait for other threads; AddBlock and Received touch one
    /// shard. All memory is taken before the first change.
    pub fn apply<R: Threads + Wait + Sync>(
        &mut self,
        rt: &R,
        gate: &(dyn Gate + Sync),
        event: &Event,
    ) -> Result<Done, Refusal>
        ensures accepted { OnOk result (refusal_of self.old event.now ≡ None) }
        ensures done { IfOk result (λ d. d ≡ done_by self.old event.now) }
        ensures state { OnOk result (self.new ≡ after_event self.old event.now) }
        ensures refused { IfErr result
            (Refuses (refusal_of self.old event.now) (takes_memory event.now)) }
        ensures unchanged { OnErr result (self.new ≡ self.old) }
    {
        let workers = Threaded::new(rt, gate, self.config.workers as usize);
        self.apply_with(&workers, event)
    }

    /// [`Manager::apply`] by the calling thread alone, however many workers are configured: needs
    /// no runtime, passes no gate and waits for no thread.
    pub fn apply_alone(&mut self, event: &Event) -> Result<Done, Refusal>
        ensures accepted { OnOk result (refusal_of self.old event.now ≡ None) }
        ensures done { IfOk result (λ d. d ≡ done_by self.old event.now) }
        ensures state { OnOk result (self.new ≡ after_event self.old event.now) }
        ensures refused { IfErr result
            (Refuses (refusal_of self.old event.now) (takes_memory event.now)) }
        ensures unchanged { OnErr result (self.new ≡ self.old) }
    {
        self.apply_with(&CallingThread, event)
    }

    /// Takes one event with these workers.
    #[tactic(auto, unfolding(bm_base::specs::Machine::Calls::after_event, bm_base::specs::Machine::Calls::done_by))]
    pub(crate) fn apply_with<W: Workers>(
        &mut self,
        workers: &W,
        event: &Event,
    ) -> Result<Done, Refusal>
        ensures accepted { OnOk result (refusal_of self.old event.now ≡ None) }
        ensures done { IfOk result (λ d. d ≡ done_by self.old event.now) }
        ensures state { OnOk result (self.new ≡ after_event self.old event.now) }
        ensures refused { IfErr result
            (Refuses (refusal_of self.old event.now) (takes_memory event.now)) }
        ensures unchanged { OnErr result (self.new ≡ self.old) }
    {
        self.check(event)?;
        event.fits();
        let multi = self.topology.multi_after(event);
        self.topology.prepare(event)?;
        match self.shards.change(workers, event, &self.topology, multi) {
            Ok(done) => {
                self.topology.commit(event);
                self.calls += 1;
                Ok(done)
            }
            Err(refusal) => {
                self.topology.abort();
                Err(refusal)
            }
        }
    }

    /// For proofs alone: the state is lawful at all times. Does nothing when it runs.
    ///
    /// Replicas and pending transfers are on storages of alive nodes, and only alive nodes drain. A
    /// node has one replica of a block at most. A replica is stray exactly if its block is unknown,
    /// and only good ones are in excess. Pending transfers are of known blocks. There are no
    /// more nodes and storages than the limits allow, and 1 to `MAX_REPLICATION` replicas of each
    /// block are wanted. The numbers fit their types, and the limits are in their ranges.
    pub fn show_invariant(&self)
        ensures { IsLawful self.now }
    {
        let _ = &self.config;
    }

    /// The first refusal of an event.
    #[tactic(auto, unfolding(bm_base::specs::Machine::Refusals::refusal_of, bm_base::specs::Machine::Refusals::calls_spent))]
    fn check(&self, event: &Event) -> Result<(), Refusal>
        ensures refusal { result ≡ checked (refusal_of self.now event.now) }
        ensures numbers_left { OnOk result (self.now.calls < last_number) }
        ensures cluster { OnOk result (first_of (cluster_checks self.now.cluster event.now)
            ≡ None) }
        ensures blocks { OnOk result (first_of (block_checks self.now.holdings event.now) ≡ None) }
    {
        self.topology.check(event)?;
        self.shards.check(event)?;
        if self.calls == u64::MAX {
            return Err(Refusal::CallsSpent);
        }
        Ok(())
    }
}
