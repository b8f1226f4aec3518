// The manager's rounds.
ghost use Rattle.std.specs.Prelude.{◌≡◌, ◌<◌, true, None, IfOk, IfErr, OnOk, OnErr};
ghost use Rattle.bm_base.specs.Words.{whole_round, round_refusal, last_number, count_call, checked, Refuses, SparesLastGood};
ghost use Rattle.bm_base.specs.declared.refusal.Refusal.TheVariants.{Memory};
ghost use Rattle.bm_base.specs.Promises.Sparing.{KeepsEnoughLive};

use crate::manager::Manager;
use bm_base::{Commands, Refusal};
use bm_crew::Gate;
use bm_shards::{CallingThread, Threaded, Workers};
use std::sync::Wait;
use std::thread::Threads;

impl Manager {
    /// Takes one round: the round number grows by one, expired transfers leave, and surplus live
    /// replicas are marked. Then copies are commanded from chosen sources to chosen targets, the
    /// most urgent blocks first, at most `work` for each alive node in all. Stray replicas, those
    /// in excess, and corrupt ones of blocks with enough live replicas are ordered to be deleted,
    /// at most `invalidate` for each node. Returns the commands of each DataNode. `RoundsSpent`;
    /// `CallsSpent`; `Memory`; a refused round changes nothing.
    ///
    /// No round commands the delete of a known block's last good replica. If a round commands the
    /// delete of a replica of a known block, the block has at least the wanted number of live
    /// replicas after the round. At least one is wanted, and the round commands the delete of no
    /// live one.
    ///
    /// The crew processes a round, so the call may wait for other threads. All memory is taken
    /// before the first change.
    pub fn round<R: Threads + Wait + Sync>(
        &mut self,
        rt: &R,
        gate: &(dyn Gate + Sync),
    ) -> Result<Commands, Refusal>
        ensures accepted { OnOk result (round_refusal self.old ≡ None) }
        ensures commands { IfOk result (λ k. k ≡ (whole_round self.old).0) }
        ensures state { OnOk result (self.new ≡ count_call (whole_round self.old).1) }
        ensures refused { IfErr result (Refuses (round_refusal self.old) true) }
        ensures unchanged { OnErr result (self.new ≡ self.old) }
        ensures last_good { IfOk result (λ k. SparesLastGood self.old k) }
        ensures enough_live { IfOk result (λ k. KeepsEnoughLive self.old k self.new) }
    {
        let workers = Threaded::new(rt, gate, self.config.workers as usize);
        self.run_round(&workers)
    }

    /// [`Manager::round`] by the calling thread alone, however many workers are configured: needs
    /// no runtime, passes no gate and waits for no thread.
    pub fn round_alone(&mut self) -> Result<Commands, Refusal>
        ensures accepted { OnOk result (round_refusal self.old ≡ None) }
        ensures commands { IfOk result (λ k. k ≡ (whole_round self.old).0) }
        ensures state { OnOk result (self.new ≡ count_call (whole_round self.old).1) }
        ensures refused { IfErr result (Refuses (round_refusal self.old) true) }
        ensures unchanged { OnErr result (self.new ≡ self.old) }
        ensures last_good { IfOk result (λ k. SparesLastGood self.old k) }
        ensures enough_live { IfOk result (λ k. KeepsEnoughLive self.old k self.new) }
    {
        self.run_round(&CallingThread)
    }

    /// Takes one round with these workers.
    pub(crate) fn run_round<W: Workers>(&mut self, workers: &W) -> Result<Commands, Refusal>
        ensures accepted { OnOk result (round_refusal self.old ≡ None) }
        ensures commands { IfOk result (λ k. k ≡ (whole_round self.old).0) }
        ensures state { OnOk result (self.new ≡ count_call (whole_round self.old).1) }
        ensures refused { IfErr result (Refuses (round_refusal self.old) true) }
        ensures unchanged { OnErr result (self.new ≡ self.old) }
        ensures last_good { IfOk result (λ k. SparesLastGood self.old k) }
        ensures enough_live { IfOk result (λ k. KeepsEnoughLive self.old k self.new) }
    {
        self.show_invariant();
        self.check_round()?;
        self.next_round(workers)
    }

    /// The first refusal of a round.
    #[tactic(auto, unfolding(bm_base::specs::Machine::Refusals::round_refusal, bm_base::specs::Machine::Refusals::calls_spent))]
    fn check_round(&self) -> Result<(), Refusal>
        ensures refusal { result ≡ checked (round_refusal self.now) }
        ensures round { OnOk result (self.now.round < last_number) }
        ensures calls { OnOk result (self.now.calls < last_number) }
    {
        if self.round == u64::MAX {
            return Err(Refusal::RoundsSpent);
        }
        if self.calls == u64::MAX {
            return Err(Refusal::CallsSpent);
        }
        Ok(())
    }

    /// Takes the round in all shards, and counts the round and the call.
    fn next_round<W: Workers>(&mut self, workers: &W) -> Result<Commands, Refusal>
        requires round { self.old.round < last_number }
        requires calls { self.old.calls < last_number }
        ensures commands { IfOk result (λ k. k ≡ (whole_round self.old).0) }
        ensures state { OnOk result (self.new ≡ count_call (whole_round self.old).1) }
        ensures refused { IfErr result (λ e. e ≡ Memory) }
        ensures unchanged { OnErr result (self.new ≡ self.old) }
    {
        let commands = self
            .shards
            .round(workers, &self.config, self.round, &self.topology)?;
        self.round += 1;
        self.calls += 1;
        Ok(commands)
    }
}
