// The line of a block, after its index.
ghost use Rattle.std.specs.Prelude.{◌≡◌, Ok};
ghost use Rattle.fsck_text.specs.Cuts.{word_and_rest};
ghost use Rattle.fsck_text.specs.Wrongs.{after_ok};
ghost use Rattle.fsck_text.specs.Blocks.{id_of, without_pool, block_named, length_of, live_of, list_text, with_list, no_replicas, replicas_of, block_line, block_of, after_length, is_missing, is_being_written, corrupt_block};

use crate::cuts::{
    after_first, after_prefix, before_last, cut_at, parse_number, parse_small_number, word_and_rest,
};
use crate::reason::{Piece, Reason, Wrong, or_wrong, shown};
use bm_base::{BlockId, Gen, Stamp};

/// The content of a block's line.
#[derive(Drop)]
pub struct BlockLine<'a> {
    pub id: BlockId,
    pub stamp: Stamp,
    /// The number of live replicas as fsck counts them; `None` for `MISSING!`.
    pub live: Option<u32>,
    /// The text between the brackets of the list; empty without a list.
    pub list: Piece<'a>,
}

/// A block's name: its number and its generation stamp.
#[derive(Clone, Copy, Drop)]
struct BlockName {
    id: BlockId,
    generation: Gen,
}

/// The replicas of a block: the number of live ones, and the text of the list.
#[derive(Drop)]
struct Replicas<'a> {
    live: Option<u32>,
    list: Piece<'a>,
}

/// Parses a block's line after its index.
pub fn parse_block(text: &str) -> Result<BlockLine<'_>, Wrong<'_>>
    ensures { result ≡ block_of text.now }
{
    let (name, rest) = word_and_rest(text);
    parse_after_name(block_named(name, text)?, rest)
}

/// Parses a block's line after the block's name.
fn parse_after_name(named: BlockName, text: &str) -> Result<BlockLine<'_>, Wrong<'_>>
    ensures { result ≡ after_ok (λ len. after_ok (λ counted. Ok (block_line named len counted))
        (replicas_of (word_and_rest text.now).1)) (length_of (word_and_rest text.now).0 text.now) }
{
    let (len, replicas) = word_and_rest(text);
    let len = parse_length(len, text)?;
    let counted = parse_replicas(replicas)?;
    Ok(BlockLine {
        id: named.id,
        stamp: Stamp {
            generation: named.generation,
            len,
        },
        live: counted.live,
        list: counted.list,
    })
}

/// Whether no replica of the block is known, from the line after its index. The rest of the line
/// need not be understood, as for an erasure coded file.
pub fn is_missing(text: &str) -> bool
    ensures { result ≡ is_missing text.now }
{
    after_length(text) == "MISSING!"
}

/// Whether the block of a line, after its index, is being written.
pub fn is_being_written(text: &str) -> bool
    ensures { result ≡ is_being_written text.now }
{
    after_prefix(after_length(text), "Expected_repl=").is_some()
}

/// The word after a block's length.
fn after_length(text: &str) -> &str
    ensures { result.now ≡ after_length text.now }
{
    let (_, rest) = word_and_rest(text);
    let (_, rest) = word_and_rest(rest);
    let (word, _) = word_and_rest(rest);
    word
}

/// The number of the block that fsck reports as corrupt, from the text after `CORRUPT blockpool`.
pub fn corrupt_block(text: &str) -> Result<BlockId, Wrong<'_>>
    ensures { result ≡ corrupt_block text.now }
{
    let (_, rest) = word_and_rest(text);
    let (block, name) = word_and_rest(rest);
    if block != "block" {
        return Err(Wrong::new(Reason::NotABlock, shown(block, rest)));
    }
    match after_prefix(name, "blk_") {
        Some(id) => parse_id(name, id),
        None => Err(Wrong::new(Reason::NotABlock, name)),
    }
}

/// The number in the name of a block; a number below 0 begins with a minus.
fn parse_id<'a>(name: &'a str, id: &'a str) -> Result<BlockId, Wrong<'a>>
    ensures { result ≡ id_of name.entry.now id.entry.now }
{
    if after_first(id, '-').is_some() {
        return Err(Wrong::new(Reason::NegativeBlock, name));
    }
    match parse_number(id) {
        Some(number) => Ok(BlockId(number)),
        None => Err(Wrong::new(Reason::NotABlock, name)),
    }
}

/// The name without the pool of the block.
fn without_pool(name: &str) -> &str
    ensures { result.now ≡ without_pool name.now }
{
    match cut_at(name, ':') {
        Some((_, name)) => name,
        None => name,
    }
}

/// The block of a name at the start of a text: a pool and a colon, or nothing, then `blk_`, its
/// number, `_` and its stamp.
fn block_named<'a>(name: &'a str, text: &'a str) -> Result<BlockName, Wrong<'a>>
    ensures { result ≡ block_named name.entry.now text.entry.now }
{
    let parts = after_prefix(without_pool(name), "blk_").and_then(|text| cut_at(text, '_'));
    let Some((id, generation)) = parts else {
        return Err(Wrong::new(Reason::NotABlock, shown(name, text)));
    };
    let id = parse_id(name, id)?;
    match parse_number(generation) {
        Some(generation) => Ok(BlockName {
            id,
            generation: Gen(generation),
        }),
        None => Err(Wrong::new(Reason::NotABlock, name)),
    }
}

/// The length of the block in bytes, from the first word of the text.
fn parse_length<'a>(word: &'a str, text: &'a str) -> Result<u64, Wrong<'a>>
    ensures { result ≡ length_of word.entry.now text.entry.now }
{
    let len = after_prefix(word, "len=").and_then(parse_number);
    or_wrong(Reason::NotALength, shown(word, text), len)
}

/// The number of live replicas, from the first word of the text.
fn parse_live_count<'a>(word: &'a str, text: &'a str) -> Result<u32, Wrong<'a>>
    ensures { result ≡ live_of word.entry.now text.entry.now }
{
    let count = after_prefix(word, "Live_repl=").or(after_prefix(word, "repl="));
    or_wrong(
        Reason::NotACount,
        shown(word, text),
        count.and_then(parse_small_number),
    )
}

/// The text between the brackets of a list; empty for no text. Hadoop 2.8 and later write one more
/// space before it.
fn list_text(text: &str) -> Result<Piece<'_>, Wrong<'_>>
    ensures { result ≡ list_text text.now }
{
    let list = after_first(text, ' ').unwrap_or(text);
    if list.is_empty() {
        return Ok(Piece::new(list));
    }
    match after_first(list, '[').and_then(|inner| before_last(inner, ']')) {
        Some(inner) => Ok(Piece::new(inner)),
        None => Err(Wrong::new(Reason::NotAList, text)),
    }
}

/// Parses the count and the list of a block's line, after its length.
fn parse_replicas(text: &str) -> Result<Replicas<'_>, Wrong<'_>>
    ensures { result ≡ replicas_of text.now }
{
    let (count, rest) = word_and_rest(text);
    if count == "MISSING!" {
        no_replicas(rest)
    } else {
        with_list(rest, parse_live_count(count, text)?)
    }
}

/// This number of live replicas, with the list after it.
fn with_list(text: &str, live: u32) -> Result<Replicas<'_>, Wrong<'_>>
    ensures { result ≡ with_list text.now live }
{
    let list = list_text(text)?;
    Ok(Replicas {
        live: Some(live),
        list,
    })
}

/// No replica is known, and no text comes after that.
fn no_replicas(text: &str) -> Result<Replicas<'_>, Wrong<'_>>
    ensures { result ≡ no_replicas text.now }
{
    if !text.is_empty() {
        return Err(Wrong::new(Reason::NotAList, text));
    }
    Ok(Replicas {
        live: None,
        list: Piece::new(text),
    })
}
