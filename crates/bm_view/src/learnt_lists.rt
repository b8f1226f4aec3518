//! The lists that a locator learnt. They exist in proofs; at run time one byte is set if there are
//! any.
ghost use Rattle.std.specs.Prelude.{◌≡◌, ◌++◌, ◌∷◌, []};
ghost use Rattle.bm_view.specs.History.{versions};

use crate::journal::Evidence;
use core::snapshot::Snapshot;
use std::marker::Model;

/// Some lists of versions, in the order in which they were learnt. A contract sees these lists. A
/// `Snapshot` keeps an earlier value for proofs alone: so each `LearntLists` holds the one before
/// it.
#[derive(Drop)]
pub struct LearntLists {
    last: Option<(Snapshot<LearntLists>, Evidence)>,
}

impl Model for LearntLists {
    ghost use Rattle.std.specs.Prelude.{List, length};
    ghost use Rattle.bm_base.specs.Promises.Versions.{Version};
    ghost use Rattle.bm_view.specs.LearntLists.{learnt_of};

    ghost Value = { List (List Version) };

    ghost view = { λ t. learnt_of t.last };

    ghost size = { length };

    ghost use Rattle.std.proofs.Common.{arith, length-append};

    ghost size_decreases = { λ a h. Prim.grind (arith, length-append) };
}

impl LearntLists {
    pub fn nothing() -> LearntLists
        ensures { result ≡ [] }
    {
        LearntLists { last: None }
    }

    /// Adds one list: the versions that were settled in that journal.
    pub fn add(&mut self, evidence: &Evidence)
        ensures { self.new ≡ self.old ++ versions evidence.now.log ∷ [] }
    {
        let before = Snapshot::of(&*self);
        self.last = Some((before, evidence.copy()));
    }
}
