//! The rule of the current value: what a slot has seen once stays a prefix of it. A slot is a
//! locator, or the publisher. The structs here have no values: they name what a step passes to the
//! slot that takes it.
ghost use Rattle.std.specs.Prelude.{◌≡◌, None, Some};
ghost use Rattle.bm_view.specs.Rule.{Kept, Sees};

use crate::journal::Evidence;
use crate::shown_value::Shown;
use atomic_table::{Join, Split};
use crossbeam_utils::rule::{Outcome, Protocol};
use left_right::reader::{Reader, Reading};
use left_right::writer::Writer;

/// A slot's view is what it saw last, if anything.
pub struct GrowingList;

impl Protocol<Shown, Option<Evidence>> for GrowingList {
    ghost holds = { Kept };

    ghost first = { None };
}

/// A locator reads the current value, which extends what it saw before.
pub struct See;

impl Outcome<Shown, Option<Evidence>> for See {
    ghost then = { λ v x y w. Sees v y w };
}

/// The publisher publishes the next version: it has seen that.
pub struct Show;

impl Outcome<Shown, Option<Evidence>> for Show {
    ghost then = { λ v x y w. w ≡ Some y };
}

/// The publisher passes to a new locator what it saw last.
pub struct Note;

impl Split<Option<Evidence>> for Note {
    ghost left = { λ v. v };

    ghost right = { λ v. v };
}

impl Join<Option<Evidence>> for Note {
    ghost both = { λ v w. w };

    ghost spent = { None };
}

pub type VersionReader = Reader<Shown, Option<Evidence>, GrowingList>;

pub type VersionReading = Reading<Shown, Option<Evidence>, GrowingList>;

pub type VersionWriter = Writer<Shown, Shown, Option<Evidence>, GrowingList>;
