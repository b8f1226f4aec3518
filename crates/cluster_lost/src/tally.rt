// Blocks counted by level, and the bytes that they lack.
ghost use Rattle.std.specs.Prelude.{◌≡◌};
ghost use Rattle.cluster_lost.specs.Sources.{IsFew};
ghost use Rattle.cluster_lost.specs.Tallies.{IsSmall, no_blocks, with_block, with_level};

use crate::sources::{Source, lacking_by, level_by};
use bm_base::{BlockInfo, Level};

/// Blocks with a usable replica, counted by level as in a cluster of several racks.
#[derive(Clone, Copy)]
pub struct Tally {
    pub highest: usize,
    pub very_under_replicated: usize,
    pub under_replicated: usize,
    pub badly_distributed: usize,
    pub none: usize,
    /// The bytes of the copies that they lack.
    pub lacking: u128,
}

impl Tally {
    pub(crate) fn new() -> Tally
        ensures { result ≡ no_blocks }
    {
        Tally {
            highest: 0,
            very_under_replicated: 0,
            under_replicated: 0,
            badly_distributed: 0,
            none: 0,
            lacking: 0,
        }
    }

    /// Adds a block with these usable replicas; one without any does not count.
    pub(crate) fn add(&mut self, info: &BlockInfo, sources: &[Source])
        requires small { IsSmall self.old }
        requires few { IsFew info.now }
        ensures { self.new ≡ with_block info.now sources.now self.old }
    {
        if sources.is_empty() {
            return;
        }
        self.count(level_by(info, sources));
        self.lacking += lacking_by(info, sources);
    }

    fn count(&mut self, level: Option<Level>)
        requires small { IsSmall self.old }
        ensures { self.new ≡ with_level level self.old }
    {
        match level {
            Some(Level::Highest) => self.highest += 1,
            Some(Level::VeryUnderReplicated) => self.very_under_replicated += 1,
            Some(Level::UnderReplicated) => self.under_replicated += 1,
            Some(Level::BadlyDistributed) => self.badly_distributed += 1,
            Some(Level::NoUsableReplica) => {}
            None => self.none += 1,
        }
    }
}
