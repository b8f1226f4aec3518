// The options of the import.
ghost use Rattle.std.specs.Prelude.{◌≡◌, false, Some, IfOk, codes, map, option_copied, string_bytes};
ghost use Rattle.clap.specs.Words.{FailsBy, app_of, kind_of, rule_of};
ghost use Rattle.clap.specs.Simple.{new_rule};
ghost use Rattle.clap.specs.declared.error.kind.ErrorKind.TheVariants.{ValueValidation};
ghost use Rattle.fsck_import.specs.Options.{given, flag_rule, option_rule, program, refusals_of, remaining_for, skips_for, unclear_for, values_of, are_kinds, is_kind, has_word};

use clap::error::ErrorKind;
use clap::{Arg, ArgAction, ArgMatches, Command, Error};
use fsck_files::{Skips, Unclear};
use fsck_text::parse_number;
use std::alloc::{AllocError, Global};

const EXAMPLES: &str = "Examples:\n  \
./puljemrod import fsck.txt > cluster.jsonl\n  \
./puljemrod import --nodes nodes.txt --names names.tsv fsck.txt > cluster.jsonl\n  \
./puljemrod import --skip open,snapshots --unclear omit fsck.txt > cluster.jsonl";

/// The values of `--remaining`, `--skip` and `--unclear`.
#[derive(Clone, Copy, Drop)]
pub struct Values {
    /// The free bytes of a storage if those of its node are not known.
    pub remaining: u64,
    /// The kinds of files that are left out.
    pub skips: Skips,
    pub unclear: Unclear,
}

/// The command line.
#[derive(Clone, Copy)]
pub struct Arguments<'a> {
    pub values: Values,
    /// The path of the file into which the table of names goes, if one is named.
    pub names: Option<&'a str>,
    /// The path of the file into which the table of files goes, if one is named.
    pub files: Option<&'a str>,
    /// The path of the report on DataNodes, if one is named.
    pub nodes: Option<&'a str>,
    /// The length of the input in bytes, if its progress is shown; 0 if it is unknown.
    pub input_bytes: Option<u64>,
}

/// Parses the words of a command line, the program's name first. Each option may occur once. An
/// `Err` is a request for help, a refused command line, or out of memory.
pub fn parse_arguments<'a>(alloc: Global, words: &'a [String]) -> Result<Arguments<'a>, Error>
    ensures values { IfOk result (λ a. Some a.values
        ≡ values_of (given (codes "remaining") (map string_bytes words.entry.now))
        (given (codes "skip") (map string_bytes words.entry.now))
        (given (codes "unclear") (map string_bytes words.entry.now))) }
    ensures names { IfOk result (λ a. option_copied a.names
        ≡ given (codes "names") (map string_bytes words.entry.now)) }
    ensures files { IfOk result (λ a. option_copied a.files
        ≡ given (codes "files") (map string_bytes words.entry.now)) }
    ensures nodes { IfOk result (λ a. option_copied a.nodes
        ≡ given (codes "nodes") (map string_bytes words.entry.now)) }
    ensures refused { FailsBy (refusals_of (map string_bytes words.entry.now)) result }
{
    let command = command(alloc)?;
    let matches = command.try_get_matches_from(words)?;
    let values = values_of(
        matches.get_str("remaining"),
        matches.get_str("skip"),
        matches.get_str("unclear"),
    );
    match values {
        Some(values) => Ok(Arguments {
            values,
            names: matches.get_str("names"),
            files: matches.get_str("files"),
            nodes: matches.get_str("nodes"),
            input_bytes: input_bytes_of(&matches),
        }),
        None => Err(wrong_value(alloc)?),
    }
}

fn command<'a>(alloc: Global) -> Result<Command<'a>, AllocError>
    ensures { IfOk result (λ c. app_of c ≡ program) }
{
    Command::new(alloc, "fsck_import")
        .about("Writes what hdfs fsck says of a cluster as lines of the line tool")
        .after_help(EXAMPLES)
        .arg(option(
            alloc,
            "remaining",
            "BYTES",
            "free bytes of each storage without --nodes, below 2^64; without it 1099511627776",
        ))?
        .arg(option(
            alloc,
            "names",
            "FILE",
            "file for the table of names; without it standard error",
        ))?
        .arg(option(
            alloc,
            "files",
            "FILE",
            "file for the table of files: the path, the index and the number of each block",
        ))?
        .arg(option(
            alloc,
            "nodes",
            "FILE",
            "text of hdfs dfsadmin -report: racks, free bytes, decommissioned and empty nodes",
        ))?
        .arg(option(
            alloc,
            "skip",
            "KINDS",
            "files left out: erasure-coded, replication-over-16, open, snapshots, commas between them",
        ))?
        .arg(option(
            alloc,
            "unclear",
            "HOW",
            "blocks with more places than live replicas: omit, good; without it they are refused",
        ))?
        .arg(quiet(alloc))?
        .arg(progress(alloc))
}

/// An option with one value.
fn option<'a>(alloc: Global, name: &'a str, value: &'a str, help: &'a str) -> Arg<'a>
    ensures rule { rule_of result ≡ option_rule name.entry.now }
    ensures local { result.global ≡ false }
{
    new_arg(alloc, name)
        .action(ArgAction::Set)
        .long(name)
        .value_name(value)
        .help(help)
}

fn quiet<'a>(alloc: Global) -> Arg<'a>
    ensures rule { rule_of result ≡ flag_rule (codes "quiet") }
    ensures local { result.global ≡ false }
{
    new_arg(alloc, "quiet")
        .action(ArgAction::SetTrue)
        .long("quiet")
        .help("shows no progress on standard error")
}

/// The option `--progress`, for a caller that knows that standard error is a terminal. Its value is
/// the length of the input in bytes, 0 if that is unknown.
fn progress<'a>(alloc: Global) -> Arg<'a>
    ensures rule { rule_of result ≡ option_rule (codes "progress") }
    ensures local { result.global ≡ false }
{
    new_arg(alloc, "progress")
        .action(ArgAction::Set)
        .long("progress")
        .value_name("BYTES")
        .hide(true)
}

/// An argument with a name and nothing else.
fn new_arg<'a>(alloc: Global, name: &'a str) -> Arg<'a>
    ensures rule { rule_of result ≡ new_rule name.entry.now }
    ensures local { result.global ≡ false }
{
    Arg::new(alloc, name)
}

/// The length of the input, if its progress is shown; 0 if it is unknown.
pub fn input_bytes_of(matches: &ArgMatches<'_>) -> Option<u64> {
    if matches.get_flag("quiet") {
        return None;
    }
    parse_number(matches.get_str("progress")?)
}

/// Parses the texts of these options. `None` if a text is no value of its option.
pub fn values_of(
    remaining: Option<&str>,
    skip: Option<&str>,
    unclear: Option<&str>,
) -> Option<Values>
    ensures { result ≡ values_of (option_copied remaining.entry) (option_copied skip.entry)
        (option_copied unclear.entry) }
{
    Some(Values {
        remaining: remaining_for(remaining)?,
        skips: skips_for(skip)?,
        unclear: unclear_for(unclear)?,
    })
}

/// Parses the free bytes of a storage. `None` if the text is no number below 2^64.
fn remaining_for(text: Option<&str>) -> Option<u64>
    ensures { result ≡ remaining_for (option_copied text.entry) }
{
    match text {
        Some(text) => parse_number(text),
        None => Some(1_099_511_627_776),
    }
}

/// Parses the kinds that are left out. `None` if the text is no list of kinds.
fn skips_for(text: Option<&str>) -> Option<Skips>
    ensures { result ≡ skips_for (option_copied text.entry) }
{
    let text = text.unwrap_or("");
    if !text.is_empty() && !are_kinds(text) {
        return None;
    }
    Some(Skips {
        erasure_coded: has_word(text, "erasure-coded"),
        open_files: has_word(text, "open"),
        snapshots: has_word(text, "snapshots"),
        over_replicated: has_word(text, "replication-over-16"),
    })
}

/// Whether each word of a list with commas names a kind of file.
fn are_kinds(list: &str) -> bool
    ensures { result ≡ are_kinds list.now }
{
    list.split(',').all(|word| is_kind(word))
}

/// Whether a word names a kind of file.
fn is_kind(word: &str) -> bool
    ensures { result ≡ is_kind word.now }
{
    matches!(
        word,
        "erasure-coded" | "open" | "snapshots" | "replication-over-16"
    )
}

/// Whether a word is in a list with commas.
fn has_word(list: &str, word: &str) -> bool
    ensures { result ≡ has_word list.now word.now }
{
    list.split(',').any(|one| word == one)
}

/// Parses the treatment of unclear blocks. `None` if the text is none of the words.
fn unclear_for(text: Option<&str>) -> Option<Unclear>
    ensures { result ≡ unclear_for (option_copied text.entry) }
{
    match text {
        None => Some(Unclear::Refuse),
        Some("omit") => Some(Unclear::Omit),
        Some("good") => Some(Unclear::Good),
        Some(_) => None,
    }
}

/// The message about a text that is no value of its option.
fn wrong_value(alloc: Global) -> Result<Error, AllocError>
    ensures { IfOk result (λ e. kind_of e ≡ ValueValidation) }
{
    let mut command = command(alloc)?;
    command.error(
        ErrorKind::ValueValidation,
        "--remaining takes a whole number below 2^64; --skip takes erasure-coded, \
         replication-over-16, open and snapshots with commas between them; --unclear takes omit \
         or good",
    )
}
