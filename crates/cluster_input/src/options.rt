// The options for loading a cluster, the same for each command that loads one.
use bm_base::Config;
use clap::{Arg, ArgAction, ArgMatches, Command, value_parser};
use cluster_report::options::{NUMBERS, argument, config_from, with};
use fsck_import::options::{Values, input_bytes_of, values_of};
use std::alloc::{AllocError, Global};

/// The values of the options for loading a cluster.
#[derive(Clone, Copy)]
pub struct LoadOptions<'a> {
    pub config: Config,
    /// The options for a text of fsck.
    pub values: Values,
    /// The report on DataNodes, if one is named.
    pub nodes: Option<&'a str>,
    /// The length of the input in bytes, if its progress is shown; 0 if it is unknown.
    pub input_bytes: Option<u64>,
}

/// An option with a value, for a text of fsck.
struct TextOption {
    name: &'static str,
    value: &'static str,
    help: &'static str,
}

static TEXT_OPTIONS: [TextOption; 4] = [
    TextOption {
        name: "nodes",
        value: "FILE",
        help: "text of hdfs dfsadmin -report: racks, free bytes, decommissioned and empty nodes",
    },
    TextOption {
        name: "remaining",
        value: "BYTES",
        help: "free bytes of each storage without --nodes, below 2^64; without it 1099511627776",
    },
    TextOption {
        name: "skip",
        value: "KINDS",
        help: "files left out: erasure-coded, replication-over-16, open, snapshots, \
               commas between them",
    },
    TextOption {
        name: "unclear",
        value: "HOW",
        help: "blocks with more places than live replicas: omit, good; without it they are refused",
    },
];

/// The message about a text that is no value of its option.
pub const WRONG_VALUE: &str = "--remaining takes a whole number below 2^64; --skip takes \
erasure-coded, replication-over-16, open and snapshots with commas between them; \
--unclear takes omit or good";

/// The command with the options for loading a cluster, and the files.
pub fn with_input<'a>(alloc: Global, command: Command<'a>) -> Result<Command<'a>, AllocError> {
    let mut command = with(command, files(alloc))?;
    for option in &TEXT_OPTIONS {
        command = with(command, text_option(alloc, option))?;
    }
    for number in &NUMBERS {
        command = with(command, argument(alloc, number))?;
    }
    let command = with(command, quiet(alloc))?;
    with(command, progress(alloc))
}

fn files<'a>(alloc: Global) -> Arg<'a> {
    Arg::new(alloc, "FILE")
        .action(ArgAction::Append)
        .num_args(1..)
        .help("files with lines of the line tool, or one text of hdfs fsck")
}

fn text_option<'a>(alloc: Global, option: &TextOption) -> Arg<'a> {
    new_arg(alloc, option.name)
        .action(ArgAction::Set)
        .long(option.name)
        .value_name(option.value)
        .help(option.help)
}

fn quiet<'a>(alloc: Global) -> Arg<'a> {
    new_arg(alloc, "quiet")
        .action(ArgAction::SetTrue)
        .long("quiet")
        .help("shows no progress on standard error")
}

/// The option `--progress`, for a caller that knows that standard error is a terminal. Its value is
/// the length of the input in bytes, 0 if that is unknown.
fn progress<'a>(alloc: Global) -> Arg<'a> {
    new_arg(alloc, "progress")
        .action(ArgAction::Set)
        .long("progress")
        .value_name("BYTES")
        .hide(true)
        .value_parser(value_parser!(u64))
}

fn new_arg<'a>(alloc: Global, name: &'a str) -> Arg<'a> {
    Arg::new(alloc, name)
}

/// Reads the values of the options. `None` if a text is no value of its option.
pub fn parse_load_options<'a>(matches: &ArgMatches<'a>) -> Option<LoadOptions<'a>> {
    let values = values_of(
        matches.get_str("remaining"),
        matches.get_str("skip"),
        matches.get_str("unclear"),
    )?;
    Some(LoadOptions {
        config: config_from(matches),
        values,
        nodes: matches.get_str("nodes"),
        input_bytes: input_bytes_of(matches),
    })
}

/// The files that the words name; `None` is standard input.
pub fn files_of<'m, 'a>(matches: &'m ArgMatches<'a>) -> Option<&'m [&'a str]> {
    matches.get_strs("FILE")
}
