// Why a line is refused.
ghost use Rattle.std.specs.Prelude.{◌≡◌};
ghost use Rattle.fsck_text.specs.Wrongs.{shown, or_wrong};

use std::alloc::AllocError;
use std::fmt;
use std::marker::Model;

/// The fault of a word in a line.
#[derive(Clone, Copy, Debug, Drop)]
pub enum Reason {
    NotAHeading,
    NotATarget,
    TwoTargets,
    /// Not `[POOL:]blk_NUMBER_STAMP`.
    NotABlock,
    /// Old clusters and erasure coded files have such blocks.
    NegativeBlock,
    /// Not `len=` and a number below 2^64.
    NotALength,
    /// None of `MISSING!`, `repl=N` and `Live_repl=N`.
    NotACount,
    /// Not `[`, places with `, ` between them, and `]`.
    NotAList,
    /// Neither `[/RACK/]HOST:PORT` nor `DatanodeInfoWithStorage[HOST:PORT,STORAGE,TYPE]`.
    NotAPlace,
    NotAMark,
    NotASum,
    NotANode,
}

impl Reason {
    /// The fault as the end of a sentence that begins with the word.
    fn text(self) -> &'static str {
        match self {
            Reason::NotAHeading => "is not a heading that Hadoop 2.6 to 3.4 write",
            Reason::NotATarget => "is not a number of wanted replicas",
            Reason::TwoTargets => "says another number of wanted replicas than the heading",
            Reason::NotABlock => "is not the name of a block",
            Reason::NegativeBlock => "names a block with a number below 0",
            Reason::NotALength => "is not the length of a block",
            Reason::NotACount => "is neither MISSING! nor a number of live replicas",
            Reason::NotAList => "is not a list of places in brackets",
            Reason::NotAPlace => "is not a place",
            Reason::NotAMark => "has a mark that -replicaDetails does not write",
            Reason::NotASum => "is not a number of the summary",
            Reason::NotANode => "does not fit a line about a DataNode",
        }
    }
}

impl fmt::Display for Reason {
    fn fmt<W: fmt::Write>(&self, f: &mut fmt::Formatter<W>) -> fmt::Result {
        f.write_str(self.text())
    }
}

/// A part of a line that is quoted.
#[derive(Drop)]
pub struct Piece<'a> {
    text: &'a str,
}

impl<'a> Model for Piece<'a> {
    ghost use Rattle.fsck_text.specs.Cuts.{Text};

    ghost Value = { Text };

    ghost view = { λ p. p.text.now };
}

impl<'a> Piece<'a> {
    ghost use Rattle.std.specs.Prelude.{◌≡◌};

    /// Wraps a part of a line.
    pub fn new(text: &'a str) -> Piece<'a>
        ensures { result ≡ text.entry.now }
    {
        Piece { text }
    }

    /// Returns the text of the part.
    pub fn text(&self) -> &'a str
        ensures { result.now ≡ self.now }
    {
        self.text
    }
}

/// A word that is not understood.
#[derive(Drop)]
pub struct Wrong<'a> {
    pub why: Reason,
    pub word: Piece<'a>,
}

impl<'a> Wrong<'a> {
    ghost use Rattle.std.specs.Prelude.{◌≡◌};
    ghost use Rattle.fsck_text.specs.Wrongs.{wrong};

    /// Makes a refusal of a word, with the reason.
    pub fn new(why: Reason, word: &'a str) -> Wrong<'a>
        ensures { result ≡ wrong why word.entry.now }
    {
        Wrong {
            why,
            word: Piece::new(word),
        }
    }
}

/// The word to quote: `word`, which is a part of `text`, or the whole text if `word` is empty.
pub fn shown<'a>(word: &'a str, text: &'a str) -> &'a str
    ensures { result.now ≡ shown word.entry.now text.entry.now }
{
    if word.is_empty() { text } else { word }
}

/// The value, or the refusal of a word.
pub fn or_wrong<'a, T>(why: Reason, word: &'a str, value: Option<T>) -> Result<T, Wrong<'a>>
    ensures { result ≡ or_wrong why word.entry.now value }
{
    value.ok_or(Wrong::new(why, word))
}

/// Why a line could not be parsed.
#[derive(Drop)]
pub enum Fault<'a> {
    Memory,
    Wrong(Wrong<'a>),
}

impl<'a> From<AllocError> for Fault<'a> {
    ghost use Rattle.std.specs.Prelude.{◌≡◌};
    ghost use Rattle.fsck_text.specs.declared.reason.Fault.TheVariants.{Memory};

    ghost from_gives = { λ _ e. e ≡ Memory };

    fn from(_error: AllocError) -> Self {
        Fault::Memory
    }
}

impl<'a> From<Wrong<'a>> for Fault<'a> {
    ghost use Rattle.std.specs.Prelude.{◌≡◌};
    ghost use Rattle.fsck_text.specs.declared.reason.Fault.TheVariants as fault;

    ghost from_gives = { λ wrong e. e ≡ fault.Wrong wrong };

    fn from(wrong: Wrong<'a>) -> Self {
        Fault::Wrong(wrong)
    }
}
