// Versions of a manager's state for readers.
ghost use Rattle.std.specs.Prelude.{◌≡◌, ◌≤◌, ◌++◌, ◌∷◌, [], IfOk, IfErr, OnOk, OnErr};
ghost use Rattle.bm_base.specs.declared.refusal.Refusal.TheVariants.{Memory};
ghost use Rattle.bm_base.specs.Promises.Versions.{version};
ghost use Rattle.bm_view.specs.History.{last_of, IsHistory};

use crate::manager::Manager;
use bm_base::Refusal;
use bm_crew::NoGate;
use bm_shards::Threaded;
use bm_view::{Publisher, Receipt, Table};
use std::sync::{Arc, Wait};
use std::thread::Threads;

impl Manager {
    /// Publishes a version of the manager's state to the readers of a view. A version has the
    /// number of accepted calls, and for each known block, ascending, the first `MAX_PLACES`
    /// storages of its good replicas. The version is made whole before it is published; publishing
    /// is no call, so it is not counted. The publisher's last version must not have more calls than
    /// the manager; it never has if one publisher serves one manager.
    ///
    /// The crew makes the rows, and the publisher waits for readers of the version before the last,
    /// so the call may wait for other threads; no reader waits for it. The cost grows with the
    /// known blocks and their replicas.
    ///
    /// # Errors
    /// `Memory`, also if the count of an `Arc` is full. Then the publisher's list of versions
    /// stays.
    pub fn publish<R: Threads + Wait + Sync>(
        &mut self,
        rt: &R,
        publisher: &mut Publisher,
    ) -> Result<Receipt, Refusal>
        requires { (last_of publisher.old.list).calls ≤ self.old.calls }
        ensures same { self.new ≡ self.old }
        ensures home { publisher.new.home ≡ publisher.old.home }
        ensures added { OnOk result (publisher.new.list ≡ publisher.old.list
            ++ version self.old ∷ []) }
        ensures last { OnOk result (last_of publisher.new.list ≡ version self.old) }
        ensures history { OnOk result (IsHistory publisher.new.list) }
        ensures receipt { IfOk result (λ receipt. receipt ≡ publisher.new) }
        ensures refused { OnErr result (publisher.new ≡ publisher.old) }
        ensures memory { IfErr result (λ e. e ≡ Memory) }
    {
        let table = self.version(rt)?;
        publisher.publish(rt, Arc::new(self.alloc, table)?)
    }

    /// The version of the state.
    #[tactic(auto, unfolding(bm_base::specs::Promises::Versions::version))]
    fn version<R: Threads + Wait + Sync>(&mut self, rt: &R) -> Result<Table, Refusal>
        ensures same { self.new ≡ self.old }
        ensures version { IfOk result (λ t. t ≡ version self.old) }
        ensures refused { IfErr result (λ e. e ≡ Memory) }
    {
        let workers = Threaded::new(rt, &NoGate, self.config.workers as usize);
        let rows = self.shards.table(&workers)?;
        Ok(Table::new(self.calls, rows))
    }
}
