// Calls as values: one call, and lists of calls.
ghost use Rattle.std.specs.Prelude.{◌≡◌, IfOk, OnErr};
ghost use Rattle.bm_base.specs.Words.{MayAnswer, MayAnswerAll, state_after_answer, state_after_answers, IsLawful};

use crate::manager::Manager;
use bm_base::{Answer, Call, Items};
use bm_crew::Gate;
use bm_shards::{CallingThread, Threaded, Workers};
use std::alloc::AllocError;
use std::sync::Wait;
use std::thread::Threads;

impl Manager {
    /// Makes one call. Its answer is the definition's. If the definition refuses nothing and the
    /// call takes memory, it may also be `Memory`, and then the state is as before.
    pub fn answer<R: Threads + Wait + Sync>(
        &mut self,
        rt: &R,
        gate: &(dyn Gate + Sync),
        call: &Call,
    ) -> Answer
        ensures answer { MayAnswer self.old call.now result }
        ensures state { self.new ≡ state_after_answer self.old call.now result }
    {
        let workers = Threaded::new(rt, gate, self.config.workers as usize);
        self.answer_with(&workers, call)
    }

    /// [`Manager::answer`] by the calling thread alone, as [`Manager::apply_alone`].
    pub fn answer_alone(&mut self, call: &Call) -> Answer
        ensures answer { MayAnswer self.old call.now result }
        ensures state { self.new ≡ state_after_answer self.old call.now result }
    {
        self.answer_with(&CallingThread, call)
    }

    /// Makes one call with these workers.
    fn answer_with<W: Workers>(&mut self, workers: &W, call: &Call) -> Answer
        ensures answer { MayAnswer self.old call.now result }
        ensures state { self.new ≡ state_after_answer self.old call.now result }
    {
        match call {
            Call::Apply(event) => match self.apply_with(workers, event) {
                Ok(done) => Answer::Done(done),
                Err(refusal) => Answer::Refused(refusal),
            },
            Call::Round => match self.run_round(workers) {
                Ok(commands) => Answer::Commanded(commands),
                Err(refusal) => Answer::Refused(refusal),
            },
            Call::Replicas => match self.replicas() {
                Ok(replicas) => Answer::Replicas(replicas),
                Err(refusal) => Answer::Refused(refusal),
            },
            Call::Corrupt => match self.corrupt() {
                Ok(corrupt) => Answer::ReplicaIds(corrupt),
                Err(refusal) => Answer::Refused(refusal),
            },
            Call::Excess => match self.excess() {
                Ok(excess) => Answer::ReplicaIds(excess),
                Err(refusal) => Answer::Refused(refusal),
            },
            Call::BlocksOn(storage) => match self.blocks_on(*storage) {
                Ok(blocks) => Answer::Blocks(blocks),
                Err(refusal) => Answer::Refused(refusal),
            },
            Call::Missing => match self.missing() {
                Ok(missing) => Answer::Blocks(missing),
                Err(refusal) => Answer::Refused(refusal),
            },
            Call::Places(id) => match self.places(*id) {
                Ok(storages) => Answer::Storages(storages),
                Err(refusal) => Answer::Refused(refusal),
            },
            Call::LevelOf(id) => match self.level(*id) {
                Ok(level) => Answer::LevelIs(level),
                Err(refusal) => Answer::Refused(refusal),
            },
            Call::Retired(node) => match self.retired(*node) {
                Ok(is_retired) => Answer::IsRetired(is_retired),
                Err(refusal) => Answer::Refused(refusal),
            },
            Call::Calls => Answer::Number(self.calls()),
            Call::Rounds => Answer::Number(self.rounds()),
        }
    }

    /// Makes the calls one after another, and returns the answer of each: a run of the definition
    /// that skips the calls that ran out of memory. An `Err` comes before the first call, if the
    /// list of answers cannot be allocated. Whatever the calls and the answers are, the next state
    /// is lawful.
    pub fn answer_all<R: Threads + Wait + Sync>(
        &mut self,
        rt: &R,
        gate: &(dyn Gate + Sync),
        calls: &[Call],
    ) -> Result<Items<Answer>, AllocError>
        ensures answers { IfOk result (λ answers. MayAnswerAll self.old calls.now answers) }
        ensures state { IfOk result
            (λ answers. self.new ≡ state_after_answers self.old calls.now answers) }
        ensures unchanged { OnErr result (self.new ≡ self.old) }
        ensures lawful { IsLawful self.new }
    {
        let workers = Threaded::new(rt, gate, self.config.workers as usize);
        self.answer_all_with(&workers, calls)
    }

    /// Makes the calls one after another with these workers.
    pub(crate) fn answer_all_with<W: Workers>(
        &mut self,
        workers: &W,
        calls: &[Call],
    ) -> Result<Items<Answer>, AllocError>
        ensures answers { IfOk result (λ answers. MayAnswerAll self.old calls.now answers) }
        ensures state { IfOk result
            (λ answers. self.new ≡ state_after_answers self.old calls.now answers) }
        ensures unchanged { OnErr result (self.new ≡ self.old) }
        ensures lawful { IsLawful self.new }
    {
        self.show_invariant();
        let mut answers = Vec::with_capacity(self.alloc, calls.len())?;
        for call in calls {
            let answer = self.answer_with(workers, call);
            answers.push_reserved(answer);
        }
        self.show_invariant();
        Ok(Items::from_vec(answers))
    }
}
