// A line of fsck.
ghost use Rattle.std.specs.Prelude.{◌≡◌, option_map};
ghost use Rattle.fsck_text.specs.Lines.{begins, ends, health_of, last_of, is_of_all, unlisted_of, path_line, summary_line, block_line, line_of};

use crate::cuts::{after_prefix, before_last, cut_at, last_cut_at, parse_number};
use crate::heading::{Heading, parse_heading, parse_target};
use crate::reason::{Piece, Wrong};
use crate::summary::{Count, parse_sum};

/// A parsed line of fsck.
#[derive(Drop)]
pub enum Line<'a> {
    /// The first line.
    First,
    /// The heading of a file, with the problem at its end.
    Heading(Heading),
    /// Each known replica of a block is corrupt; the text after `CORRUPT blockpool`.
    Corrupt(Piece<'a>),
    /// The number of wanted replicas of a block of the file.
    Target(u32),
    /// A block, by its index in the file and the text after that.
    Block(u64, Piece<'a>),
    /// The summary begins; whether fsck reports all files as healthy.
    Status(bool),
    /// A number of the summary.
    Sum(Count, u64),
    /// The number of open files that are not in the text.
    Unlisted(u64),
    /// The last line; whether fsck reports all files as healthy, and whether it is about the path
    /// `/`.
    Last(bool, bool),
    /// Any other line.
    Other,
}

/// Parses a line. A line that begins with a slash and has a colon is about a file.
pub fn parse_line(line: &str) -> Result<Line<'_>, Wrong<'_>>
    ensures { result ≡ line_of line.now }
{
    if begins(line, "/") {
        return path_line(line);
    }
    if let Some(text) = after_prefix(line, " Under replicated ") {
        return Ok(Line::Target(parse_target(text)?));
    }
    if let Some((index, text)) = block_line(line) {
        return Ok(Line::Block(index, Piece::new(text)));
    }
    summary_line(line)
}

pub fn begins(line: &str, text: &str) -> bool
    ensures { result ≡ begins line.now text.now }
{
    line.starts_with(text)
}

pub fn ends(line: &str, text: &str) -> bool
    ensures { result ≡ ends line.now text.now }
{
    line.ends_with(text)
}

/// Parses a line that begins with a path.
fn path_line(line: &str) -> Result<Line<'_>, Wrong<'_>>
    ensures { result ≡ path_line line.now }
{
    match cut_at(line, ':') {
        Some((before, after)) => match after_prefix(after, " CORRUPT blockpool ") {
            Some(text) => Ok(Line::Corrupt(Piece::new(text))),
            None => match parse_heading(before, after) {
                Ok(heading) => Ok(Line::Heading(heading)),
                Err(wrong) => Err(wrong),
            },
        },
        None => Ok(Line::Other),
    }
}

/// The index of a block, and the text after it.
fn block_line(line: &str) -> Option<(u64, &str)>
    ensures { option_map (λ p. (p.0, p.1.now)) result ≡ block_line line.now }
{
    let (index, text) = cut_at(line, '.')?;
    Some((parse_number(index)?, after_prefix(text, " ")?))
}

/// Whether the summary begins with this line, and reports all files as healthy.
fn parse_health(line: &str) -> Option<bool>
    ensures { result ≡ health_of line.now }
{
    match line {
        "Status: HEALTHY" => Some(true),
        "Status: CORRUPT" => Some(false),
        _ => None,
    }
}

/// Whether this is the last line, and reports all files as healthy.
fn parse_last_line(line: &str) -> Option<bool>
    ensures { result ≡ last_of line.now }
{
    if !begins(line, "The filesystem under path '") {
        None
    } else if ends(line, "' is HEALTHY") {
        Some(true)
    } else if ends(line, "' is CORRUPT") {
        Some(false)
    } else {
        None
    }
}

/// Whether the last line is about the path `/`, and so about all files.
fn is_of_all(line: &str) -> bool
    ensures { result ≡ is_of_all line.now }
{
    begins(line, "The filesystem under path '/' is ")
}

/// The number of open files that are not in the text, from the end of a line.
fn parse_unlisted_count(line: &str) -> Option<u64>
    ensures { result ≡ unlisted_of line.now }
{
    let (_, text) = last_cut_at(line, '(')?;
    let number = after_prefix(text, "Files currently being written: ")?;
    parse_number(before_last(number, ')')?)
}

/// Parses a line that is not about a file.
fn summary_line(line: &str) -> Result<Line<'_>, Wrong<'_>>
    ensures { result ≡ summary_line line.now }
{
    if begins(line, "FSCK started by ") {
        return Ok(Line::First);
    }
    if let Some(is_healthy) = parse_health(line) {
        return Ok(Line::Status(is_healthy));
    }
    if let Some(is_healthy) = parse_last_line(line) {
        return Ok(Line::Last(is_healthy, is_of_all(line)));
    }
    if let Some(files) = parse_unlisted_count(line) {
        return Ok(Line::Unlisted(files));
    }
    match parse_sum(line)? {
        Some((count, sum)) => Ok(Line::Sum(count, sum)),
        None => Ok(Line::Other),
    }
}
