// Counts of what a report has done so far.
ghost use Rattle.std.specs.Prelude.{◌≡◌, ◌<◌, ◌^◌};
ghost use Rattle.bm_report.specs.DuringReport.{FitsCounters, counts_after_move, counts_after_link, counts_after_sweep};

/// The counts of a report so far.
#[derive(Clone, Copy)]
pub(crate) struct ReportCounts {
    pub(crate) added: u128,
    pub(crate) removed: u128,
    pub(crate) steps: u128,
    /// Whether a replica that is not good may have the mark of one that was in excess.
    pub(crate) has_invalid_excess: bool,
}

impl ReportCounts {
    /// Counts a block that was moved to the head of the list.
    pub(crate) fn count_move(&mut self, is_excess_good: bool)
        requires { FitsCounters self.old 1 }
        ensures { self.new ≡ counts_after_move self.old is_excess_good }
    {
        self.steps += 1;
        self.has_invalid_excess |= !is_excess_good;
    }

    /// Counts a block that was linked, and perhaps unlinked from another storage of the node.
    pub(crate) fn count_link(&mut self, left_sibling: bool, is_excess_good: bool)
        requires { FitsCounters self.old 1 }
        ensures { self.new ≡ counts_after_link self.old left_sibling is_excess_good }
    {
        self.added += 1;
        self.removed += if left_sibling { 1 } else { 0 };
        self.steps += if left_sibling { 2 } else { 1 };
        self.has_invalid_excess |= !is_excess_good;
    }

    /// Counts a block that was unlinked, since the report did not name it.
    pub(crate) fn count_sweep(&mut self)
        requires removed { self.old.removed < 2 ^ 127 }
        requires steps { self.old.steps < 2 ^ 127 }
        ensures { self.new ≡ counts_after_sweep self.old }
    {
        self.removed += 1;
        self.steps += 1;
    }
}
