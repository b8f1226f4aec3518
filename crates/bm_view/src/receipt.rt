//! What a publish returns: a prefix of the list of versions.
ghost use Rattle.std.specs.Prelude.{◌≡◌, ◌*◌, length};
ghost use Rattle.bm_view.specs.History.{last_of, versions, IsHistory, IsSettled};

use crate::count::Count;
use crate::journal::Evidence;
use std::marker::Model;

/// Names the versions published so far, for locators to learn. It may go to another thread. A
/// contract sees the list of these versions, and the call of `open_view`; at run time there are two
/// numbers.
#[derive(Drop)]
pub struct Receipt {
    /// The journal as it was once the last version was settled. It has no bytes.
    evidence: Evidence,
    /// The number of proposals, including that of the last version.
    number: Count,
    /// The calls of the last version.
    calls: u64,
}

impl Model for Receipt {
    ghost use Rattle.std.specs.Prelude.{◌≡◌, ◌*◌, length};
    ghost use Rattle.bm_view.specs.History.{last_of, versions, IsSettled, IsHistory};
    ghost use Rattle.bm_view.specs.Holders.{Listed};

    ghost Value = { Listed };

    ghost view = { λ r. record { home = r.evidence.home; list = versions r.evidence.log } };

    ghost invariant = { λ r.
        (length r.evidence.log ≡ 2 * r.number)
        × (r.calls ≡ (last_of (versions r.evidence.log)).calls)
        × IsSettled r.evidence.log
        × IsHistory (versions r.evidence.log) };
}

impl Receipt {
    pub(crate) fn new(evidence: Evidence, number: Count, calls: u64) -> Receipt
        requires number { length evidence.log ≡ 2 * number }
        requires calls { calls ≡ (last_of (versions evidence.log)).calls }
        requires settled { IsSettled evidence.log }
        requires history { IsHistory (versions evidence.log) }
        ensures { result ≡ record { home = evidence.home; list = versions evidence.log } }
    {
        Receipt {
            evidence,
            number,
            calls,
        }
    }

    /// The calls of the last version of its list.
    pub fn calls(&self) -> u64
        ensures { result ≡ (last_of self.now.list).calls }
    {
        self.calls
    }

    // The journal, and its number of proposals.
    pub(crate) fn into_parts(self) -> (Evidence, Count)
        ensures seen { (result.0.home ≡ self.home) × (versions result.0.log ≡ self.list) }
        ensures number { length result.0.log ≡ 2 * result.1 }
        ensures settled { IsSettled result.0.log }
        ensures history { IsHistory (versions result.0.log) }
    {
        let Receipt {
            evidence,
            number,
            calls: _,
        } = self;
        (evidence, number)
    }
}
