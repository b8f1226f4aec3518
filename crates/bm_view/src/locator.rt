//! A reader of the versions.
ghost use Rattle.std.specs.Prelude.{◌≡◌, ◌≤◌, ◌<◌, ◌+◌, ◌*◌, false, [], ◌∷◌, ◌++◌, length, All, IfSome, IfNone, OnSome, MatchResult, MatchOption};
ghost use mathlib.Core.List.{IsPrefix};
ghost use Rattle.bm_view.specs.Version.{places_in, opening};
ghost use Rattle.bm_view.specs.Journal.{opening_log};
ghost use Rattle.bm_view.specs.History.{last_of, shown_in, EndsBy, IsHistory};
ghost use Rattle.bm_view.specs.Rule.{Sees, HasSeen};
ghost use Rattle.left_right.specs.Sides.{view as sight};

use crate::count::Count;
use crate::journal::Evidence;
use crate::learnt_lists::LearntLists;
use crate::receipt::Receipt;
use crate::rule::{See, VersionReader, VersionReading};
use bm_base::{BlockId, Places};
use core::mem::replace_with;
use std::alloc::Global;
use std::marker::Model;

/// Where a block was after a number of calls.
#[derive(Clone, Copy, Debug, PartialEq, Eq)]
pub struct Located {
    /// The calls of the version that this was read from.
    pub calls: u64,
    /// The storages of the block in that version, at most `MAX_PLACES`; none if it has no row of
    /// the block.
    pub places: Places,
}

/// Answers where a block is. It takes no memory and waits for no one.
///
/// A contract sees the list of versions up to the one that it answered from last, the lists that it
/// learnt by receipts, and the call of `open_view`. Each learnt list is a prefix of its list.
#[derive(Drop)]
pub struct Locator {
    slot: ReaderSlot,
    /// The journal of the version that it answered from last. It has no bytes.
    answered: Evidence,
    /// The longest journal that it learnt. It has no bytes.
    longest: Evidence,
    learnt: LearntLists,
}

impl Model for Locator {
    ghost use Rattle.std.specs.Prelude.{◌≡◌, ◌*◌, length, All};
    ghost use mathlib.Core.List.{IsPrefix};
    ghost use Rattle.left_right.specs.Sides.{view as sight};
    ghost use Rattle.bm_view.specs.History.{versions, shown_in, IsSettled, IsHistory};
    ghost use Rattle.bm_view.specs.Rule.{HasSeen};
    ghost use Rattle.bm_view.specs.Holders.{Learnt};

    ghost Value = { Learnt };

    ghost view = { λ l. record {
      home = l.answered.home;
      list = shown_in l.answered.log;
      learnt = l.learnt;
    } };

    ghost invariant = { λ l.
        (l.longest.home ≡ l.answered.home)
        × (length l.longest.log ≡ 2 * l.slot.learnt_number)
        × IsSettled l.longest.log
        × HasSeen (sight l.slot.reader.place) l.answered.home (shown_in l.answered.log)
        × IsHistory (versions l.longest.log)
        × All (λ known. IsPrefix known (versions l.longest.log)) l.learnt };
}

// A reader, and the number of proposals in the longest journal that it learnt.
#[derive(Drop)]
struct ReaderSlot {
    reader: VersionReader,
    learnt_number: Count,
}

// The result of a read, and the journal that came with it.
struct ReadResult {
    found: Located,
    evidence: Evidence,
    // Whether it is from a proposal before a learnt one.
    is_older: bool,
}

// Enters and reads the current table. Returns the reader if `left_right` refuses to enter.
fn enter(reader: VersionReader) -> Result<VersionReading, VersionReader>
    ensures { MatchResult result
        (λ r. Sees (sight reader.place) r.part.value (sight r.place))
        (λ r. sight r.place ≡ sight reader.place) }
{
    reader.enter_as::<See>()
}

// Reads the version that is shown. `None` if `left_right` refuses to enter.
fn read(slot: ReaderSlot, id: BlockId) -> (ReaderSlot, Option<ReadResult>)
    ensures number { result.0.learnt_number ≡ slot.learnt_number }
    ensures seen { MatchOption result.1
        (sight result.0.reader.place ≡ sight slot.reader.place)
        (λ g. Sees (sight slot.reader.place) g.evidence (sight result.0.reader.place)) }
    ensures found { IfSome result.1 (λ g.
        let shown = last_of (shown_in g.evidence.log) in
        (g.found.calls ≡ shown.calls) × (g.found.places ≡ places_in shown.rows id)) }
    ensures close { IfSome result.1 (λ g. (0 < length g.evidence.log)
        × (g.is_older ≡ false → 2 * slot.learnt_number ≤ length g.evidence.log + 1)) }
    ensures history { IfSome result.1 (λ g. IsHistory (shown_in g.evidence.log)) }
{
    let ReaderSlot {
        reader,
        learnt_number,
    } = slot;
    let (reader, seen) = match enter(reader) {
        Ok(reading) => {
            let shown = reading.get();
            let seen = ReadResult {
                found: Located {
                    calls: shown.table().calls(),
                    places: shown.table().places(id),
                },
                evidence: shown.evidence(),
                is_older: shown.number().is_below(&learnt_number),
            };
            (reading.leave(), Some(seen))
        }
        Err(reader) => (reader, None),
    };
    let slot = ReaderSlot {
        reader,
        learnt_number,
    };
    (slot, seen)
}

impl Locator {
    pub(crate) fn new(alloc: Global, reader: VersionReader, first: Evidence) -> Locator
        requires log { first.log ≡ opening_log }
        requires seen { HasSeen (sight reader.place) first.home (opening ∷ []) }
        ensures { result ≡ record { home = first.home; list = opening ∷ []; learnt = [] } }
    {
        Locator {
            slot: ReaderSlot {
                reader,
                learnt_number: Count::one(alloc),
            },
            answered: first.copy(),
            longest: first,
            learnt: LearntLists::nothing(),
        }
    }

    /// Learns what was published up to the receipt, which is from the same call of `open_view`.
    /// After that no answer is older.
    pub fn learn(&mut self, receipt: Receipt)
        requires { receipt.home ≡ self.old.home }
        ensures same { (self.new.home ≡ self.old.home) × (self.new.list ≡ self.old.list) }
        ensures learnt { self.new.learnt ≡ self.old.learnt ++ receipt.list ∷ [] }
    {
        let (evidence, number) = receipt.into_parts();
        self.longest.show_one_journal(&evidence);
        self.learnt.add(&evidence);
        if self.slot.learnt_number.is_below(&number) {
            self.longest = evidence;
            self.slot.learnt_number = number;
        }
    }

    /// Where the block is in the current version. A block without a row has no places.
    ///
    /// It is `None` if the publisher has ended, and then the list stays; tests show that, no clause
    /// does. It would be `None` too if the current table were of an earlier proposal than the last
    /// version of a learnt receipt. That does not happen, since a receipt is made after its version
    /// is published. But the contracts of `left_right` do not state which table a reader has once
    /// it has entered. So no proof ties what it reads to what was in the journal by then.
    pub fn locate(&mut self, id: BlockId) -> Option<Located>
        ensures same { (self.new.home ≡ self.old.home) × (self.new.learnt ≡ self.old.learnt) }
        ensures none { IfNone result (self.new.list ≡ self.old.list) }
        ensures answer { IfSome result (λ found.
            let shown = last_of self.new.list in
            (found.calls ≡ shown.calls) × (found.places ≡ places_in shown.rows id)) }
        ensures history { OnSome result (IsHistory self.new.list) }
        ensures later { OnSome result (IsPrefix self.old.list self.new.list) }
        ensures learnt { OnSome result (All (λ known. IsPrefix known self.new.list) self.old.learnt) }
        ensures no_older { IfSome result
            (λ found. All (EndsBy found.calls) self.old.learnt) }
    {
        let Some(seen) = replace_with(&mut self.slot, id, read) else {
            return None;
        };
        let ReadResult {
            found,
            evidence,
            is_older,
        } = seen;
        if is_older {
            return None;
        }
        self.longest.show_one_journal(&evidence);
        self.answered = evidence;
        Some(found)
    }
}
