// The counts of what was read, and the numbers of the summary.
ghost use Rattle.std.specs.Prelude.{◌≡◌};
ghost use Rattle.fsck_files.specs.Counts.{no_counts, none_summed, with_blocks, with_missing, with_corrupt, has_blocks, is_healthy, number_of, with_sum};

use crate::skips::add_saturating;
use fsck_text::Count;

/// The counts of what was read, including files that are left out.
#[derive(Clone, Copy, Drop)]
pub struct Counts {
    pub blocks: u64,
    pub missing: u64,
    pub corrupt: u64,
    pub groups: u64,
    pub missing_groups: u64,
    pub corrupt_groups: u64,
}

impl Counts {
    /// Makes counts that are all 0.
    pub fn new() -> Counts
        ensures { result ≡ no_counts }
    {
        Counts {
            blocks: 0,
            missing: 0,
            corrupt: 0,
            groups: 0,
            missing_groups: 0,
            corrupt_groups: 0,
        }
    }

    /// The counts with the blocks of one more file.
    pub fn with_blocks(self, is_coded: bool, blocks: u32) -> Counts
        ensures { result ≡ with_blocks self is_coded blocks }
    {
        let blocks = u64::from(blocks);
        if is_coded {
            Counts {
                groups: add_saturating(self.groups, blocks),
                ..self
            }
        } else {
            Counts {
                blocks: add_saturating(self.blocks, blocks),
                ..self
            }
        }
    }

    /// The counts with one more block of which no replica is known.
    pub fn with_missing(self, is_coded: bool) -> Counts
        ensures { result ≡ with_missing self is_coded }
    {
        if is_coded {
            Counts {
                missing_groups: add_saturating(self.missing_groups, 1),
                ..self
            }
        } else {
            Counts {
                missing: add_saturating(self.missing, 1),
                ..self
            }
        }
    }

    /// The counts with one more block of which each known replica is corrupt.
    pub fn with_corrupt(self, is_coded: bool) -> Counts
        ensures { result ≡ with_corrupt self is_coded }
    {
        if is_coded {
            Counts {
                corrupt_groups: add_saturating(self.corrupt_groups, 1),
                ..self
            }
        } else {
            Counts {
                corrupt: add_saturating(self.corrupt, 1),
                ..self
            }
        }
    }

    /// Whether a block or a group was read, or a heading announces one.
    pub fn has_blocks(self) -> bool
        ensures { result ≡ has_blocks self }
    {
        self.blocks > 0 || self.groups > 0
    }

    /// Whether fsck would report all files as healthy.
    pub fn is_healthy(self) -> bool
        ensures { result ≡ is_healthy self }
    {
        self.missing == 0
            && self.corrupt == 0
            && self.missing_groups == 0
            && self.corrupt_groups == 0
    }

    /// The number of blocks or groups read that a line of the summary counts.
    pub fn number_of(self, count: Count) -> u64
        ensures { result ≡ number_of self count }
    {
        match count {
            Count::Blocks => self.blocks,
            Count::Missing => self.missing,
            Count::Corrupt => self.corrupt,
            Count::Groups => self.groups,
            Count::MissingGroups => self.missing_groups,
            Count::CorruptGroups => self.corrupt_groups,
        }
    }
}

/// Whether the numbers of blocks and of corrupt blocks were read, which each summary has.
#[derive(Clone, Copy, Drop)]
pub struct Summed {
    pub blocks: bool,
    pub corrupt: bool,
}

impl Summed {
    /// Makes a record in which neither number was read.
    pub fn new() -> Summed
        ensures { result ≡ none_summed }
    {
        Summed {
            blocks: false,
            corrupt: false,
        }
    }

    /// Notes that a number of the summary was read; only the two that each summary has are kept.
    pub fn with(self, count: Count) -> Summed
        ensures { result ≡ with_sum self count }
    {
        match count {
            Count::Blocks => Summed {
                blocks: true,
                ..self
            },
            Count::Corrupt => Summed {
                corrupt: true,
                ..self
            },
            _ => self,
        }
    }
}
