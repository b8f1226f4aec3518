// The times of rounds: a model. A round is skipped while DataNodes have enough to do. Times are in
// microseconds.
ghost use Rattle.std.specs.Prelude.{◌≡◌, ◌≤◌, ◌<◌, ℕ};
ghost use Rattle.cluster_repair.specs.Ticks.{IsNextTick, on_way_after};

use crate::awaited_copies::{Sent, arrives_after};

/// The interval of rounds, and when one is skipped.
#[derive(Clone, Copy)]
pub struct Ticks {
    /// The time from one tick to the next; 0 counts as 1.
    pub interval: u64,
    /// At this number of copies on their way a round is skipped; 0 counts as 1.
    pub enough: u64,
}

impl Ticks {
    /// When the next round comes after one at the time `last`, which left these copies on their
    /// way. It comes at the first tick at which fewer than `enough` of them still are.
    pub fn next(self, last: u64, sent: &[Sent]) -> u64
        ensures { IsNextTick self sent.now last result }
    {
        let interval = self.interval.max(1);
        let wait = time_of_fewer(sent, self.enough.max(1)).saturating_sub(last);
        let ticks = wait.div_ceil(interval).max(1);
        last.saturating_add(ticks.saturating_mul(interval))
    }
}

/// The first time at which fewer than `enough` copies are on their way, by binary search.
fn time_of_fewer(sent: &[Sent], enough: u64) -> u64
    requires { 0 < enough }
    ensures fewer { (t : ℕ) → result ≤ t → on_way_after sent.now t < enough }
    ensures before { (t : ℕ) → t < result → enough ≤ on_way_after sent.now t }
{
    let mut low = 0;
    let mut high = last_arrival(sent);
    while low < high {
        let middle = low + (high - low) / 2;
        if on_way_after(sent, middle) < enough {
            high = middle;
        } else {
            low = middle + 1;
        }
    }
    low
}

/// When the last of these copies arrives; 0 of none.
fn last_arrival(sent: &[Sent]) -> u64
    ensures { (t : ℕ) → result ≤ t → on_way_after sent.now t ≡ 0 }
{
    let mut last = 0u64;
    for one in sent {
        last = last.max(one.arrival);
    }
    last
}

/// How many of these copies arrive after a time.
fn on_way_after(sent: &[Sent], time: u64) -> u64
    ensures { result ≡ on_way_after sent.now time }
{
    sent.iter().filter(|one| arrives_after(one, time)).count() as u64
}
