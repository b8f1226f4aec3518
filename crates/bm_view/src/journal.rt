//! The journal of proposals. It has no bytes that anyone reads; its entries exist in proofs alone.
//!
//! Each publish adds two entries. The first is the version that is about to be published
//! (proposed). The second is the outcome: the version again, as done, or an entry that is not done,
//! if it could not be published. The versions of the done entries are the one list of which
//! publisher, receipts and locators hold prefixes.
//!
//! An entry is written with a pen of the crate `logbook`, which has one owner and is used up by it.
//! Each line names the pen of the next one. So all lines after a pen are written by one owner:
//! these are a journal, and its owner knows all of it. No step has to check whether someone else
//! wrote.
ghost use Rattle.std.specs.Prelude.{◌≡◌, ◌<◌, ◌++◌, ◌∷◌, [], List, length};
ghost use mathlib.Core.List.{IsPrefix};
ghost use Rattle.logbook.specs.Pages.{nib, may_write};
ghost use Rattle.bm_view.specs.declared.journal.JournalEntry.{JournalEntry};
ghost use Rattle.bm_view.specs.Version.{opening};
ghost use Rattle.bm_view.specs.Journal.{opening_log, word_of};

use crate::table::Table;
use core::snapshot::Snapshot;
use logbook::{Gain, Offer, Pen, Plain, Play, Rule, Seen, Start, Word};
use std::marker::Model;

/// An entry of the journal. No value of it is made.
pub struct JournalEntry {
    /// Whether the version was shown, and not only proposed.
    pub done: bool,
    pub table: Table,
}

/// An entry, and what it was written with. No value of it is made. A number is the key of a cell of
/// `logbook`, which a pen of that key writes.
pub struct JournalLine {
    /// The pen of the first line of this journal.
    pub first: u64,
    /// The pen that wrote this line. It is used up.
    pub by: u64,
    /// The pen that writes the next line of this journal.
    pub next: u64,
    pub entry: JournalEntry,
}

/// The rule of `logbook`: a pen that wrote a line is used up.
pub struct JournalRule;

impl Rule<JournalLine, u64> for JournalRule {
    ghost use base.Fml.{ftrue};
    ghost use Rattle.std.specs.Prelude.{[]};
    ghost use Rattle.bm_view.specs.Journal.{IsKept};

    ghost holds = { λ cells lines. IsKept cells lines };

    ghost first = { [] };

    ghost hinted = { λ n lines. Unit {0} };

    ghost shows = { λ lines. [] };

    ghost keeps = { λ names lines. ftrue };

    ghost moves = { λ ask before after answer. Unit {0} };
}

/// A step passes on nothing.
pub struct NoGain;

impl Gain<JournalLine, u64> for NoGain {
    ghost use base.Fml.{ftrue};

    ghost after = { λ names about answer. ftrue };
}

/// The step that gives a pen.
pub struct Reserve;

impl Play<JournalLine, u64> for Reserve {
    ghost use Rattle.bm_view.specs.Journal.{Reserves};

    ghost then = { Reserves };
}

/// The step that writes a line, and uses its pen up.
pub struct Enter;

impl Play<JournalLine, u64> for Enter {
    ghost use Rattle.bm_view.specs.Journal.{Enters};

    ghost then = { Enters };
}

/// The content of a line to be written. It has one byte, for proofs alone.
#[derive(Drop)]
pub struct LineContent {
    first: Snapshot<Word<JournalLine, u64, JournalRule>>,
    by: Snapshot<Pen>,
    next: Snapshot<Pen>,
    done: bool,
    table: Snapshot<Table>,
}

/// A step asks for that line.
pub struct AsWanted;

impl Plain<LineContent, JournalLine, u64> for AsWanted {
    ghost use Rattle.std.specs.Prelude.{None};

    ghost ask = { λ w. record {
      first = w.first.value.key;
      by = w.by.value.nib.key;
      next = w.next.value.nib.key;
      entry = record { done = w.done; table = w.table.value };
    } };

    ghost state = { λ w. None };
}

/// For a step that writes nothing, the requested line does not matter.
pub struct AsNothing;

impl Plain<(), JournalLine, u64> for AsNothing {
    ghost use Rattle.std.specs.Prelude.{None};
    ghost use Rattle.bm_view.specs.Version.{opening};
    ghost use Rattle.bm_view.specs.Journal.{proposed};

    ghost ask = { λ _. record { first = 0; by = 0; next = 0; entry = proposed opening } };

    ghost state = { λ _. None };
}

/// A prefix of a journal: a token that takes no bytes. Of two of one journal, one is a prefix of
/// the other.
#[derive(Drop)]
pub struct Evidence {
    seen: Seen<JournalLine, u64, JournalRule>,
}

impl Model for Evidence {
    ghost use Rattle.bm_view.specs.Journal.{Known, chain, named};

    ghost Value = { Known };

    ghost view = { λ e.
        let first = named 0 e.seen.log in
        record {
          home = record { book = e.seen.book; first = first };
          log = chain first e.seen.log;
        } };
}

impl Evidence {
    /// Copies the token.
    pub fn copy(&self) -> Evidence
        ensures { result ≡ self.now }
    {
        Evidence {
            seen: self.seen.again(),
        }
    }

    /// For proofs alone: both tokens have the same journal.
    pub fn show_one_journal(&self, other: &Evidence)
        requires { other.now.home ≡ self.now.home }
        ensures { (both : List JournalEntry) × IsPrefix self.now.log both × IsPrefix other.now.log both }
    {
        let mut both = self.seen.again();
        both.learn(&other.seen);
    }
}

/// The right to write a journal. A contract sees the whole journal.
#[derive(Drop)]
pub struct Journal {
    /// The word that steps of `logbook` act on. Its value means nothing. No thread shares it.
    head: Word<JournalLine, u64, JournalRule>,
    /// The word of the first pen: it names the journal.
    first: Word<JournalLine, u64, JournalRule>,
    seen: Seen<JournalLine, u64, JournalRule>,
    /// The handle that writes the next entry.
    pen: Pen,
}

impl Model for Journal {
    ghost use Rattle.std.specs.Prelude.{◌≡◌};
    ghost use Rattle.logbook.specs.Pages.{nib, may_write};
    ghost use Rattle.bm_view.specs.Journal.{Known, chain, named, tip, word_of};

    ghost Value = { Known };

    ghost view = { λ j. record {
      home = record { book = j.seen.book; first = j.first.key };
      log = chain j.first.key j.seen.log;
    } };

    ghost invariant = { λ j.
        (j.head ≡ word_of j.seen.book)
        × (named j.first.key j.seen.log ≡ j.first.key)
        × (j.pen.book ≡ j.seen.book)
        × (j.pen.nib ≡ nib may_write (tip j.first.key j.seen.log) 0) };
}

// A new pen, and the word that it may write. There is no limit to the number of pens.
fn new_pen(
    head: &Word<JournalLine, u64, JournalRule>,
    seen: &Seen<JournalLine, u64, JournalRule>,
) -> (Pen, Word<JournalLine, u64, JournalRule>)
    requires { head.now ≡ word_of seen.now.book }
    ensures pen { (result.0.book ≡ seen.now.book) × (result.0.nib ≡ nib may_write result.1.key 0) }
{
    let mut seen = seen.again();
    let mut offer: Offer<JournalLine, u64, JournalRule, NoGain> = seen.plain::<
        NoGain,
        (),
        AsNothing,
    >(&());
    let mut pen = seen.no_pen();
    head.compare_exchange::<Reserve, NoGain>(0, 0, &mut seen, &mut offer, &mut pen);
    let word = Word::tracked(0, &mut pen);
    (pen, word)
}

impl Journal {
    /// A new journal, in which the opening version is settled.
    pub fn open(table: &Table) -> Journal
        requires { table.now ≡ opening }
        ensures { result.log ≡ opening_log }
    {
        let (seen, mut head, _second) = Seen::open(Start::alone(), 0, 0);
        let head = Word::tracked(0, &mut head);
        let (pen, first) = new_pen(&head, &seen);
        let mut journal = Journal {
            head,
            first,
            seen,
            pen,
        };
        journal.enter(false, table);
        journal.enter(true, table);
        journal
    }

    pub fn evidence(&self) -> Evidence
        requires { 0 < length self.now.log }
        ensures { (result.home ≡ self.now.home) × (result.log ≡ self.now.log) }
    {
        Evidence {
            seen: self.seen.again(),
        }
    }

    /// Enters a table: as done, or as proposed or withdrawn.
    pub fn enter(&mut self, done: bool, table: &Table)
        ensures home { self.new.home ≡ self.old.home }
        ensures log { self.new.log ≡ self.old.log
            ++ record { done = done; table = table.now } ∷ [] }
    {
        let (next, _word) = new_pen(&self.head, &self.seen);
        let wanted = LineContent {
            first: Snapshot::of(&self.first),
            by: Snapshot::of(&self.pen),
            next: Snapshot::of(&next),
            done,
            table: Snapshot::of(table),
        };
        let mut offer: Offer<JournalLine, u64, JournalRule, NoGain> = self
            .seen
            .plain::<NoGain, LineContent, AsWanted>(&wanted);
        self.head
            .compare_exchange::<Enter, NoGain>(0, 0, &mut self.seen, &mut offer, &mut self.pen);
        self.pen = next;
    }
}
