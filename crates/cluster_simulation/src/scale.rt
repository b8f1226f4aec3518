// The scale of the picture: rounds and counts as points, in whole numbers.
ghost use Rattle.std.specs.Prelude.{◌<◌, ◌≤◌};

use crate::counts::{ALL_SERIES, Counts};

/// The area of the lines, in points of the picture.
pub const LEFT: u64 = 76;

pub const TOP: u64 = 88;

pub const WIDTH: u64 = 550;

pub const HEIGHT: u64 = 270;

pub const RIGHT: u64 = LEFT + WIDTH;

pub const BOTTOM: u64 = TOP + HEIGHT;

/// The maximum numbers of marked steps on the two axes.
const STEPS_UP: u64 = 6;

const STEPS_ASIDE: u64 = 10;

/// The possible distances between two marks.
const STEPS: [u64; 22] = [
    1, 2, 5, 10, 20, 50, 100, 200, 500, 1_000, 2_000, 5_000, 10_000, 20_000, 50_000, 100_000,
    200_000, 500_000, 1_000_000, 2_000_000, 5_000_000, 10_000_000,
];

/// All rounds have the same width, the first at the left and the last at the right. 0 is at the
/// bottom and `most` at the top.
#[derive(Clone, Copy)]
pub struct Scale {
    rounds: u64,
    /// The number of rounds between two marks.
    pub round_step: u64,
    /// The distance between two marks in counts, and the number of these steps.
    pub count_step: u64,
    pub count_steps: u64,
    most: u64,
    ghost some_rounds: { 0 < rounds },
    ghost some_most: { 0 < most },
}

impl Scale {
    /// The scale on which all counts of these rounds fit. Rounds may be left out.
    pub fn new(rows: &[Counts]) -> Scale {
        let mut greatest = 1u64;
        for series in &ALL_SERIES {
            greatest = greatest.max(series.greatest(rows));
        }
        let rounds = last_round(rows).max(1);
        let count_step = step_for(greatest, STEPS_UP);
        let count_steps = greatest.div_ceil(count_step);
        Scale {
            rounds,
            round_step: step_for(rounds, STEPS_ASIDE),
            count_step,
            count_steps,
            most: count_step.saturating_mul(count_steps).max(1),
        }
    }

    /// The number of rounds.
    pub fn rounds(&self) -> u64 {
        self.rounds
    }

    /// The distance from the left at which a round begins.
    pub fn x_of(&self, round: u64) -> u64
        ensures left { LEFT ≤ result }
        ensures right { result ≤ RIGHT }
    {
        let past = round.saturating_sub(1);
        LEFT + (past.saturating_mul(WIDTH) / self.rounds).min(WIDTH)
    }

    /// The distance of a count from the top.
    pub fn y_of(&self, count: u64) -> u64
        ensures top { TOP ≤ result }
        ensures bottom { result ≤ BOTTOM }
    {
        BOTTOM - (count.saturating_mul(HEIGHT) / self.most).min(HEIGHT)
    }
}

/// The round of the last row.
fn last_round(rows: &[Counts]) -> u64 {
    match rows.last() {
        Some(row) => u64::from(row.round),
        None => 0,
    }
}

/// The least step that reaches `greatest` in at most `steps` steps.
fn step_for(greatest: u64, steps: u64) -> u64
    ensures { 0 < result }
{
    for step in STEPS {
        if step.saturating_mul(steps) >= greatest {
            return step.max(1);
        }
    }
    greatest.max(1)
}
