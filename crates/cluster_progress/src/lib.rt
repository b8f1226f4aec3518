//! The progress of a run, on one line of standard error that is overwritten. No program in Rattle
//! can ask whether standard error is a terminal, so its caller decides whether the line is shown.
#![tactic(auto)]

pub mod watched_streams;

ghost use Rattle.std.specs.Prelude.{◌≤◌, ◌≡◌, IsSome, false};

/// Clears the line, so that another one can be written in its place.
const CLEARED: &str = "\r\x1b[K";

/// The progress line. It writes nothing if `is_shown` is false, and ignores failed writes.
#[derive(Clone, Copy)]
pub struct Progress {
    is_shown: bool,
    /// The number on the line.
    number: Option<u64>,
}

impl Progress {
    /// Nothing is written yet.
    pub fn new(is_shown: bool) -> Progress {
        Progress {
            is_shown,
            number: None,
        }
    }

    /// Shows `12 of 40 rounds`.
    pub fn show_rounds<R: Eprint>(&mut self, rt: &R, made: u32, all: u32) {
        if self.is_new(u64::from(made)) {
            let _ = eprint!(rt; "{CLEARED}{made} of {all} rounds");
        }
    }

    /// Shows `12 rounds`, where nobody knows how many there will be.
    pub fn show_made<R: Eprint>(&mut self, rt: &R, made: u32) {
        if self.is_new(u64::from(made)) {
            let _ = eprint!(rt; "{CLEARED}{made} rounds");
        }
    }

    /// Shows `34 % of the input`, if the number changed. An `all` of 0 is an unknown length: then
    /// it shows `12 MB of the input`.
    pub fn show_input<R: Eprint>(&mut self, rt: &R, read: u64, all: u64) {
        let (number, unit) = if all == 0 {
            (read / 1_000_000, "MB")
        } else {
            (percent_of(read, all), "%")
        };
        if self.is_new(number) {
            let _ = eprint!(rt; "{CLEARED}{number} {unit} of the input");
        }
    }

    /// Clears the line.
    pub fn end<R: Eprint>(&mut self, rt: &R) {
        if self.number.is_some() {
            let _ = rt.eprint(CLEARED);
        }
        self.number = None;
    }

    /// Whether the line is to be written for this number, which is then stored.
    fn is_new(&mut self, number: u64) -> bool
        ensures { self.old.is_shown ≡ false → result ≡ false }
    {
        if !self.is_shown || self.number == Some(number) {
            return false;
        }
        self.number = Some(number);
        true
    }
}

/// The percentage of `part` in `whole`, rounded down; 100 if it is all of it, or more.
fn percent_of(part: u64, whole: u64) -> u64
    ensures { result ≤ 100 }
{
    (part.min(whole).saturating_mul(100))
        .checked_div(whole)
        .unwrap_or(100)
        .min(100)
}
