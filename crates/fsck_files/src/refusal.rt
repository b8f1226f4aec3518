// Why a line of a text is refused.
use crate::skips::Kind;
use fsck_text::{Count, Wrong};
use thiserror::Error;

/// A number of the summary that differs from what was read.
#[derive(Clone, Copy, Debug, Drop, Error)]
#[error("the number of {count} is {sum} in the summary, and {read} in the files above it: run fsck with -files -blocks -locations, while nobody writes")]
pub struct Mismatch {
    pub count: Count,
    /// The number in the summary.
    pub sum: u64,
    /// The number of blocks read.
    pub read: u64,
}

/// Why a line is refused though its words are understood.
#[derive(Clone, Copy, Debug, Drop, Error)]
pub enum Why {
    #[error("the line may not come in this part of the text: give the whole output of one fsck")]
    OutOfPlace,
    #[error("no heading of a file comes before the block: run fsck with -files -blocks -locations, while nobody writes")]
    NoHeading,
    #[error("the index is not that of the next block of the file: give the whole output of one fsck")]
    NotNext,
    #[error("the file before has fewer blocks than its heading says: run fsck with -files -blocks -locations, and give its whole output")]
    BlockLeftOut,
    #[error("fsck calls a block of the file before corrupt that the file does not have: run fsck again while nobody writes")]
    CorruptElsewhere,
    /// A file of a kind that the line tool has no call for.
    #[error("{0}")]
    Unsupported(Kind),
    #[error("two numbers of wanted replicas for one file: run fsck again while nobody writes")]
    TwoTargets,
    #[error("no replica is wanted of the block")]
    NoneWanted,
    /// The text leaves open which of the places are live.
    #[error("more places ({places}) than live replicas ({live}): -replicaDetails and -maintenance of fsck say which are live, --unclear=omit leaves such blocks out, --unclear=good takes each place as good")]
    MoreThanLive { places: usize, live: u32 },
    #[error("fewer places ({places}) than live replicas ({live}): run fsck with -files -blocks -locations, while nobody writes")]
    FewerThanLive { places: usize, live: u32 },
    #[error("{0}")]
    Mismatch(Mismatch),
    #[error("the summary has no line 'Total blocks (validated)': give the whole output of one fsck")]
    NoSum,
    #[error("the summary has no line 'Corrupt blocks': give the whole output of one fsck")]
    NoCorruptSum,
    #[error("the summary or the last line says of the health what was not read: run fsck again while nobody writes")]
    OtherHealth,
    /// The text says nothing of the cluster.
    #[error("the text is of one path alone, and that has no block: run fsck on / or on a path with blocks")]
    NoBlock,
    #[error("the text ends before the last line of fsck: give its whole output; --nodes reads a text of hdfs dfsadmin -report")]
    CutOff,
}

/// Why a line is refused.
#[derive(Drop)]
pub enum Refusal<'a> {
    /// A word is not understood.
    Wrong(Wrong<'a>),
    Why(Why),
}
