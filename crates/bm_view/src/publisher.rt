//! The publisher of versions.
ghost use Rattle.std.specs.Prelude.{◌≡◌, ◌≤◌, ◌+◌, [], ◌∷◌, ◌++◌, IfOk, IfErr, OnOk, OnErr, MatchResult, Some};
ghost use Rattle.bm_base.specs.Words.{arc_value};
ghost use Rattle.bm_view.specs.Version.{opening};
ghost use Rattle.bm_view.specs.Journal.{opening_log};
ghost use Rattle.bm_view.specs.History.{last_of, IsHistory};
ghost use Rattle.bm_view.specs.Rule.{Extends};
ghost use Rattle.left_right.specs.Sides.{view as sight};

use crate::count::Count;
use crate::journal::Journal;
use crate::receipt::Receipt;
use crate::rule::{Show, VersionWriter};
use crate::shown_value::Shown;
use crate::table::Table;
use bm_base::Refusal;
use core::mem::replace_with;
use std::alloc::{AllocError, Global};
use std::marker::Model;
use std::sync::{Arc, Wait};

/// Publishes versions to the locators that `open_view` made with it. A contract sees the list of
/// the published versions, the opening version first, and the call of `open_view`.
///
/// It is not `Drop`: end it by `end`.
pub struct Publisher {
    writer: VersionWriter,
    journal: Journal,
    /// The number of proposals.
    number: Count,
    /// The calls of the version that was published last.
    calls: u64,
}

impl Model for Publisher {
    ghost use Rattle.std.specs.Prelude.{◌≡◌, ◌*◌, length};
    ghost use Rattle.bm_view.specs.History.{last_of, versions, shown_in, IsHistory};
    ghost use Rattle.bm_view.specs.Holders.{Listed};

    ghost Value = { Listed };

    ghost view = { λ p. record { home = p.journal.home; list = versions p.journal.log } };

    ghost invariant = { λ p.
        (length p.journal.log ≡ 2 * p.number)
        × (p.calls ≡ (last_of (versions p.journal.log)).calls)
        × (p.writer.desk.shown.value.home ≡ p.journal.home)
        × (shown_in p.writer.desk.shown.value.log ≡ versions p.journal.log)
        × IsHistory (versions p.journal.log) };
}

// Publishes a successor of the current value. On `Err` readers keep the current one.
pub(crate) fn show<R: Wait>(
    mut writer: VersionWriter,
    next: (&R, Shown),
) -> (VersionWriter, Result<(), AllocError>)
    requires { Extends writer.desk.shown.value next.1 }
    ensures { MatchResult result.1
        (λ _. (result.0.desk.shown.value ≡ next.entry.1)
        × (sight result.0.desk.place ≡ Some next.entry.1))
        (λ _. result.0.desk.shown.value ≡ writer.desk.shown.value) }
{
    let (rt, shown) = next;
    match writer.append(shown) {
        Ok(()) => writer.publish_as::<Show, R>(rt),
        Err(shown) => {
            drop(shown);
            (writer, Err(AllocError))
        }
    }
}

// The next number: for the publisher, for the receipt and for the value that is shown.
fn next_thrice(number: &Count) -> Result<(Count, Count, Count), AllocError>
    ensures { IfOk result (λ next. (next.0 ≡ number.now + 1)
        × (next.1 ≡ number.now + 1) × (next.2 ≡ number.now + 1)) }
{
    let next = number.next()?;
    let receipt = next.copy()?;
    let shown = next.copy()?;
    Ok((next, receipt, shown))
}

impl Publisher {
    pub(crate) fn new(alloc: Global, writer: VersionWriter, journal: Journal) -> Publisher
        requires { (journal.log ≡ opening_log) × (writer.desk.shown.value.home ≡ journal.home)
            × (writer.desk.shown.value.log ≡ opening_log) }
        ensures { result ≡ record { home = journal.home; list = opening ∷ [] } }
    {
        Publisher {
            writer,
            journal,
            number: Count::one(alloc),
            calls: 0,
        }
    }

    /// The calls of the version that was published last, 0 before the first.
    pub fn calls(&self) -> u64
        ensures { result ≡ (last_of self.now.list).calls }
    {
        self.calls
    }

    /// Publishes one more version, which has no fewer calls than the one before. It waits for
    /// locators that still read the version before that.
    ///
    /// # Errors
    /// `Memory`, also if the count of the `Arc` is full. Then the list stays, and the table is not
    /// returned.
    pub fn publish<R: Wait>(&mut self, rt: &R, table: Arc<Table>) -> Result<Receipt, Refusal>
        requires { (last_of self.old.list).calls ≤ (arc_value table).calls }
        ensures home { self.new.home ≡ self.old.home }
        ensures added { OnOk result (self.new.list ≡ self.old.list ++ arc_value table ∷ []) }
        ensures last { OnOk result (last_of self.new.list ≡ arc_value table) }
        ensures history { OnOk result (IsHistory self.new.list) }
        ensures receipt { IfOk result (λ receipt. receipt ≡ self.new) }
        ensures refused { OnErr result (self.new ≡ self.old) }
        ensures memory { IfErr result (λ refusal. refusal ≡ Refusal.Memory) }
    {
        let calls = table.calls();
        // All that may be refused comes before the version is shown.
        let (number, receipt, shown) = next_thrice(&self.number)?;
        self.number = number;
        self.journal.enter(false, &table);
        let next = Shown::new(table, self.journal.evidence(), shown);
        if replace_with(&mut self.writer, (rt, next), show::<R>).is_err() {
            self.journal.enter(false, self.writer.published().table());
            return Err(Refusal::Memory);
        }
        self.journal.enter(true, self.writer.published().table());
        self.calls = calls;
        Ok(Receipt::new(self.journal.evidence(), receipt, calls))
    }

    /// Ends the publisher. After that its locators answer `None`; tests show that, no clause does.
    /// It waits for locators that are reading, takes no memory and refuses nothing.
    pub fn end<R: Wait>(self, rt: &R) {
        let Publisher {
            writer,
            journal: _journal,
            number: _number,
            calls: _,
        } = self;
        drop(writer.take(rt));
    }
}
