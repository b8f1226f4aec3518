// The numbers of the summary.
ghost use Rattle.std.specs.Prelude.{◌≡◌};
ghost use Rattle.fsck_text.specs.Summaries.{blocks_named, groups_named, sum_of, sum_at};

use crate::cuts::{cut_at, last_cut_at, parse_number, word_and_rest};
use crate::reason::{Reason, Wrong, or_wrong};
use std::fmt;

/// The things that a line of the summary counts.
#[derive(Clone, Copy, Debug, Drop)]
pub enum Count {
    /// Blocks of replicated files.
    Blocks,
    /// Blocks of which no replica is known.
    Missing,
    /// Blocks of which each known replica is corrupt.
    Corrupt,
    /// Block groups of erasure coded files.
    Groups,
    MissingGroups,
    CorruptGroups,
}

impl Count {
    fn name(self) -> &'static str {
        match self {
            Count::Blocks => "blocks",
            Count::Missing => "missing blocks",
            Count::Corrupt => "corrupt blocks",
            Count::Groups => "block groups",
            Count::MissingGroups => "missing block groups",
            Count::CorruptGroups => "corrupt block groups",
        }
    }
}

impl fmt::Display for Count {
    fn fmt<W: fmt::Write>(&self, f: &mut fmt::Formatter<W>) -> fmt::Result {
        f.write_str(self.name())
    }
}

/// The count that a line about replicated files has, from its text before the colon.
fn blocks_named(name: &str) -> Option<Count>
    ensures { result ≡ blocks_named name.now }
{
    match name {
        " Total blocks (validated)" => Some(Count::Blocks),
        " Missing blocks" | "  MISSING BLOCKS" => Some(Count::Missing),
        " Corrupt blocks" | "  CORRUPT BLOCKS" => Some(Count::Corrupt),
        _ => None,
    }
}

/// The count that a line about erasure coded files has, from its text before the colon.
fn groups_named(name: &str) -> Option<Count>
    ensures { result ≡ groups_named name.now }
{
    match name {
        " Total block groups (validated)" => Some(Count::Groups),
        " Missing block groups" => Some(Count::MissingGroups),
        " Corrupt block groups" => Some(Count::CorruptGroups),
        _ => None,
    }
}

/// The count of a line of the summary, and its number; `None` for any other line.
pub fn parse_sum(line: &str) -> Result<Option<(Count, u64)>, Wrong<'_>>
    ensures { result ≡ sum_of line.now }
{
    let Some((name, text)) = cut_at(line, ':') else {
        return Ok(None);
    };
    match blocks_named(name).or(groups_named(name)) {
        Some(count) => Ok(Some((count, sum_at(text)?))),
        None => Ok(None),
    }
}

/// The number after the last tab, up to a space.
fn sum_at(text: &str) -> Result<u64, Wrong<'_>>
    ensures { result ≡ sum_at text.now }
{
    let number = match last_cut_at(text, '\t') {
        Some((_, number)) => number,
        None => text,
    };
    let (number, _) = word_and_rest(number);
    or_wrong(Reason::NotASum, text, parse_number(number))
}
