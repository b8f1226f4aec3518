// Files and blocks that are left out.
ghost use Rattle.std.specs.Prelude.{◌≡◌};
ghost use Rattle.fsck_files.specs.Skips.{kind_of, skips, left_out_with, plus, over_replicated};

use bm_base::MAX_REPLICATION;
use fsck_text::{Heading, Layout};
use thiserror::Error;

/// A kind of file that the line tool has no call for.
#[derive(Clone, Copy, Debug, Drop, Error)]
pub enum Kind {
    #[error("the file is erasure coded: --skip erasure-coded leaves such files out")]
    ErasureCoded,
    #[error("the file is being written: --skip open leaves such files out")]
    Open,
    #[error("the file is in a snapshot: --skip snapshots leaves such files out")]
    Snapshot,
    #[error("more than 16 replicas are wanted: --skip replication-over-16 leaves such files out")]
    OverReplicated,
}

/// The kinds that are left out.
#[derive(Clone, Copy, Drop)]
pub struct Skips {
    pub erasure_coded: bool,
    pub open_files: bool,
    pub snapshots: bool,
    pub over_replicated: bool,
}

/// The treatment of a block with more unmarked places than live replicas.
#[derive(Clone, Copy, Debug, PartialEq, Drop)]
pub enum Unclear {
    Refuse,
    /// The block is left out.
    Omit,
    /// The block is taken, with each place as a good replica.
    Good,
}

/// The numbers of left out files, by kind.
#[derive(Clone, Copy, Drop)]
pub struct LeftOut {
    pub erasure_coded: u64,
    pub open_files: u64,
    pub snapshots: u64,
    pub over_replicated: u64,
}

/// Whether more replicas are wanted than a manager accepts.
pub fn over_replicated(wanted: u32) -> bool
    ensures { result ≡ over_replicated wanted }
{
    wanted > MAX_REPLICATION
}

/// The first kind that applies to a file; `None` if the line tool has calls for the file.
pub fn kind_of(heading: Heading) -> Option<Kind>
    ensures { result ≡ kind_of heading }
{
    if matches!(heading.layout, Layout::ErasureCoded) {
        return Some(Kind::ErasureCoded);
    }
    if heading.is_open {
        return Some(Kind::Open);
    }
    if heading.is_snapshot {
        return Some(Kind::Snapshot);
    }
    match heading.target {
        Some(target) if over_replicated(target) => Some(Kind::OverReplicated),
        _ => None,
    }
}

/// A counter that saturates.
pub fn add_saturating(count: u64, more: u64) -> u64
    ensures { result ≡ plus count more }
{
    count.saturating_add(more)
}

impl Skips {
    /// Returns whether files of a kind are left out.
    pub fn has(self, kind: Kind) -> bool
        ensures { result ≡ skips self kind }
    {
        match kind {
            Kind::ErasureCoded => self.erasure_coded,
            Kind::Open => self.open_files,
            Kind::Snapshot => self.snapshots,
            Kind::OverReplicated => self.over_replicated,
        }
    }
}

impl LeftOut {
    /// The numbers with one more file.
    pub fn with(self, kind: Kind) -> LeftOut
        ensures { result ≡ left_out_with self kind }
    {
        match kind {
            Kind::ErasureCoded => LeftOut {
                erasure_coded: add_saturating(self.erasure_coded, 1),
                ..self
            },
            Kind::Open => LeftOut {
                open_files: add_saturating(self.open_files, 1),
                ..self
            },
            Kind::Snapshot => LeftOut {
                snapshots: add_saturating(self.snapshots, 1),
                ..self
            },
            Kind::OverReplicated => LeftOut {
                over_replicated: add_saturating(self.over_replicated, 1),
                ..self
            },
        }
    }
}
