// The heading of a file.
ghost use Rattle.std.specs.Prelude.{◌≡◌, option_map};
ghost use Rattle.fsck_text.specs.Headings.{after_key, counted, ended, replicated, coded, old, old_open, heading_start_of, number_at, target_of, problem_target, is_ending, is_in_snapshot, heading_of, differ};

use crate::cuts::{
    after_first, after_prefix, cut_at, last_cut_at, parse_small_number, word_and_rest,
};
use crate::reason::{Piece, Reason, Wrong, or_wrong, shown};

/// The layout of a file.
#[derive(Clone, Copy, Debug, PartialEq, Drop)]
pub enum Layout {
    Replicated,
    ErasureCoded,
}

/// The content of a file's heading.
#[derive(Clone, Copy, Drop)]
pub struct Heading {
    pub layout: Layout,
    /// Whether the file is being written.
    pub is_open: bool,
    /// Whether the file is in a snapshot.
    pub is_snapshot: bool,
    /// The number of its blocks.
    pub blocks: u32,
    /// The number of wanted replicas of each block. Hadoop 2 reports it only for a file with an
    /// under-replicated block.
    pub target: Option<u32>,
}

/// A heading up to the problem at its end, if any.
#[derive(Drop)]
struct HeadingStart<'a> {
    layout: Layout,
    replication: Option<u32>,
    blocks: u32,
    is_open: bool,
    problem: Piece<'a>,
}

/// Parses the heading of a file from its text before the first colon and after it. A path of HDFS
/// has no colon.
pub fn parse_heading<'a>(before: &'a str, after: &'a str) -> Result<Heading, Wrong<'a>>
    ensures { result ≡ heading_of before.entry.now after.entry.now }
{
    let Some((front, last)) = last_cut_at(before, ' ') else {
        return Err(Wrong::new(Reason::NotAHeading, before));
    };
    let start = parse_heading_start(front, last, after)?;
    let problem = start.problem.text();
    if !is_ending(problem) {
        return Err(Wrong::new(Reason::NotAHeading, problem));
    }
    let target = problem_target(problem)?;
    if differ(start.replication, target) {
        return Err(Wrong::new(Reason::TwoTargets, problem));
    }
    Ok(Heading {
        layout: start.layout,
        is_open: start.is_open,
        is_snapshot: is_in_snapshot(front),
        blocks: start.blocks,
        target: start.replication.or(target),
    })
}

/// Whether a heading may end with this text: nothing, `OK`, or the first problem of the file.
fn is_ending(text: &str) -> bool
    ensures { result ≡ is_ending text.now }
{
    matches!(text, "" | " " | "  OK")
        || after_prefix(text, "  Under replicated ").is_some()
        || after_prefix(text, "  Replica placement policy is violated for ").is_some()
        || after_prefix(text, "  MISSING ").is_some()
}

/// Whether a path has the component with which HDFS names snapshots.
fn is_in_snapshot(path: &str) -> bool
    ensures { result ≡ is_in_snapshot path.now }
{
    path.split('/').any(|name| ".snapshot" == name)
}

/// Parses the start of a heading by the last word before the colon.
fn parse_heading_start<'a>(
    front: &'a str,
    last: &'a str,
    after: &'a str,
) -> Result<HeadingStart<'a>, Wrong<'a>>
    ensures { result ≡ heading_start_of front.entry.now last.entry.now after.entry.now }
{
    match last {
        "replicated" => parse_replicated(after),
        "erasure-coded" => parse_erasure_coded(after),
        "block(s)" => parse_hadoop2(front, after, false),
        "OPENFORWRITE" => parse_open_hadoop2(front, after),
        _ => Err(Wrong::new(Reason::NotAHeading, shown(last, front))),
    }
}

/// The value of a key up to a comma, and the text after the comma.
fn after_key<'a>(text: &'a str, key: &str) -> Option<(&'a str, &'a str)>
    ensures { option_map (λ p. (p.0.now, p.1.now)) result ≡ after_key key.now text.entry.now }
{
    cut_at(after_prefix(text, key)?, ',')
}

/// Hadoop 3, a replicated file: its replication and the number of its blocks.
fn parse_replicated(text: &str) -> Result<HeadingStart<'_>, Wrong<'_>>
    ensures { result ≡ replicated text.now }
{
    let Some((number, rest)) = after_key(text, " replication=") else {
        return Err(Wrong::new(Reason::NotAHeading, text));
    };
    let target = or_wrong(
        Reason::NotATarget,
        shown(number, text),
        parse_small_number(number),
    )?;
    parse_counted(Layout::Replicated, Some(target), rest)
}

/// Hadoop 3, an erasure coded file: its policy and the number of its blocks.
fn parse_erasure_coded(text: &str) -> Result<HeadingStart<'_>, Wrong<'_>>
    ensures { result ≡ coded text.now }
{
    match after_key(text, " policy=") {
        Some((_, rest)) => parse_counted(Layout::ErasureCoded, None, rest),
        None => Err(Wrong::new(Reason::NotAHeading, text)),
    }
}

/// The number of blocks, and then the end of the heading.
fn parse_counted(
    layout: Layout,
    replication: Option<u32>,
    text: &str,
) -> Result<HeadingStart<'_>, Wrong<'_>>
    ensures { result ≡ counted layout replication text.now }
{
    let words = after_first(text, ' ').unwrap_or(text);
    let (number, rest) = word_and_rest(words);
    let blocks = or_wrong(
        Reason::NotAHeading,
        shown(number, words),
        parse_small_number(number),
    )?;
    parse_end(layout, replication, rest, blocks)
}

/// Whether the file is open, and then the problem.
fn parse_end(
    layout: Layout,
    replication: Option<u32>,
    text: &str,
    blocks: u32,
) -> Result<HeadingStart<'_>, Wrong<'_>>
    ensures { result ≡ ended layout replication text.now blocks }
{
    let (is_open, problem) = match after_prefix(text, "block(s):") {
        Some(problem) => (false, problem),
        None => match after_prefix(text, "block(s), OPENFORWRITE:") {
            Some(problem) => (true, problem),
            None => return Err(Wrong::new(Reason::NotAHeading, text)),
        },
    };
    Ok(HeadingStart {
        layout,
        replication,
        blocks,
        is_open,
        problem: Piece::new(problem),
    })
}

/// Hadoop 2: the number of blocks is the last word before `block(s)`.
fn parse_hadoop2<'a>(
    front: &'a str,
    problem: &'a str,
    is_open: bool,
) -> Result<HeadingStart<'a>, Wrong<'a>>
    ensures { result ≡ old front.entry.now problem.entry.now is_open }
{
    let number = match last_cut_at(front, ' ') {
        Some((_, number)) => number,
        None => front,
    };
    let Some(blocks) = parse_small_number(number) else {
        return Err(Wrong::new(Reason::NotAHeading, shown(number, front)));
    };
    Ok(HeadingStart {
        layout: Layout::Replicated,
        replication: None,
        blocks,
        is_open,
        problem: Piece::new(problem),
    })
}

/// Hadoop 2, an open file: `block(s),` comes before the last word.
fn parse_open_hadoop2<'a>(front: &'a str, problem: &'a str) -> Result<HeadingStart<'a>, Wrong<'a>>
    ensures { result ≡ old_open front.entry.now problem.entry.now }
{
    match last_cut_at(front, ' ') {
        Some((front, word)) if word == "block(s)," => parse_hadoop2(front, problem, true),
        _ => Err(Wrong::new(Reason::NotAHeading, front)),
    }
}

/// The number of wanted replicas, if the problem of a heading is an under-replicated block.
fn problem_target(problem: &str) -> Result<Option<u32>, Wrong<'_>>
    ensures { result ≡ problem_target problem.now }
{
    match after_prefix(problem, "  Under replicated ") {
        Some(text) => parse_target(text).map(Some),
        None => Ok(None),
    }
}

/// The number of wanted replicas of a block, from the text after `Under replicated`.
pub fn parse_target(text: &str) -> Result<u32, Wrong<'_>>
    ensures { result ≡ target_of text.now }
{
    let (_, rest) = word_and_rest(text);
    match after_prefix(rest, "Target Replicas is ") {
        Some(number) => number_at(number),
        None => Err(Wrong::new(Reason::NotATarget, rest)),
    }
}

/// The number of wanted replicas at the start of a text.
fn number_at(text: &str) -> Result<u32, Wrong<'_>>
    ensures { result ≡ number_at text.now }
{
    let (number, _) = word_and_rest(text);
    or_wrong(
        Reason::NotATarget,
        shown(number, text),
        parse_small_number(number),
    )
}

/// Whether both exist and differ.
fn differ(first: Option<u32>, second: Option<u32>) -> bool
    ensures { result ≡ differ first second }
{
    match (first, second) {
        (Some(a), Some(b)) => a != b,
        _ => false,
    }
}
