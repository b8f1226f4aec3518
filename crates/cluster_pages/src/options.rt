// The options of a report.
use clap::error::ErrorKind;
use clap::{Arg, ArgAction, ArgMatches, Command, Error};
use cluster_input::options::{WRONG_VALUE, with_input};
use cluster_report::options::with;
use std::alloc::{AllocError, Global};

/// The standard number of blocks and files of each list.
pub const MOST_NAMED: usize = 10;

const EXAMPLES: &str = "Examples:\n  \
./puljemrod report cluster.jsonl\n  \
./puljemrod report --nodes nodes.txt fsck.txt\n  \
./puljemrod report --all --json fsck.txt > report.json\n  \
./puljemrod report --html report.html fsck.txt\n\n\
A FILE holds lines of the line tool, or is a text of hdfs fsck. Several are read one after \
another,\n\
and a text of fsck only as the first. Without FILE standard input is read.";

/// The options of a report; those for loading the cluster are apart.
#[derive(Clone, Copy)]
pub struct Form<'a> {
    /// The greatest number of entries of each list.
    pub most: usize,
    /// Whether the report is one JSON value instead of lines.
    pub is_json: bool,
    /// The file for the page, if one is asked for.
    pub page: Option<&'a str>,
}

/// The words of a command line, the program's name first. An `Err` is a request for help, a command
/// line that is refused, or out of memory.
pub fn parse_words<'a>(alloc: Global, words: &'a [String]) -> Result<ArgMatches<'a>, Error> {
    let command = command(alloc)?;
    command.try_get_matches_from(words)
}

pub fn form_of<'a>(matches: &ArgMatches<'a>) -> Form<'a> {
    Form {
        most: if matches.get_flag("all") {
            usize::MAX
        } else {
            MOST_NAMED
        },
        is_json: matches.get_flag("json"),
        page: matches.get_str("html"),
    }
}

fn command<'a>(alloc: Global) -> Result<Command<'a>, AllocError> {
    let command = Command::new(alloc, "report").about("Prints the state of a cluster");
    let command = with(
        command,
        flag(
            alloc,
            "all",
            "names all blocks and files, not the first ten of each list",
        ),
    )?;
    let command = with(command, flag(alloc, "json", "prints one JSON value"))?;
    let command = with(command, page(alloc))?;
    let command = with_input(alloc, command)?;
    Ok(command.after_help(EXAMPLES))
}

fn flag<'a>(alloc: Global, name: &'a str, help: &'a str) -> Arg<'a> {
    Arg::new(alloc, name)
        .action(ArgAction::SetTrue)
        .long(name)
        .help(help)
}

fn page<'a>(alloc: Global) -> Arg<'a> {
    Arg::new(alloc, "html")
        .action(ArgAction::Set)
        .long("html")
        .value_name("FILE")
        .help("writes the report to FILE too, as one self-contained page")
}

/// The message about a text that is no value of its option.
pub fn wrong_value(alloc: Global) -> Result<Error, AllocError> {
    let mut command = command(alloc)?;
    command.error(ErrorKind::ValueValidation, WRONG_VALUE)
}
