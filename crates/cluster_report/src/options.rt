// The options of a manager: those of the line tool.
use bm_base::Config;
use clap::{Arg, ArgAction, ArgMatches, Command, value_parser};
use std::alloc::{AllocError, Global};

/// An option with a whole number from 1 to `most`.
pub struct Number {
    name: &'static str,
    standard: &'static str,
    most: u32,
    help: &'static str,
}

pub static NUMBERS: [Number; 5] = [
    Number {
        name: "shards",
        standard: "1",
        most: 64,
        help: "parts into which the blocks are cut, 1 to 64",
    },
    Number {
        name: "workers",
        standard: "1",
        most: 16,
        help: "threads that work on a call, 1 to 16",
    },
    Number {
        name: "work",
        standard: "2",
        most: 1_000,
        help: "copies that a round commands for each alive node, 1 to 1,000",
    },
    Number {
        name: "invalidate",
        standard: "1000",
        most: 1_000_000,
        help: "deletes that a round commands one node, 1 to 1,000,000",
    },
    Number {
        name: "pend",
        standard: "100",
        most: 1_000_000,
        help: "rounds after which a copy is given up, 1 to 1,000,000",
    },
];

/// Adds one argument to the command.
pub fn with<'a>(command: Command<'a>, arg: Arg<'a>) -> Result<Command<'a>, AllocError> {
    command.arg(arg)
}

pub fn argument<'a>(alloc: Global, number: &Number) -> Arg<'a> {
    new_arg(alloc, number.name)
        .action(ArgAction::Set)
        .long(number.name)
        .value_name("N")
        .default_value(number.standard)
        .help(number.help)
        .value_parser(value_parser!(u32).range(1..=i64::from(number.most)))
}

fn new_arg<'a>(alloc: Global, name: &'a str) -> Arg<'a> {
    Arg::new(alloc, name)
}

pub fn config_from(matches: &ArgMatches<'_>) -> Config {
    let standard = Config::standard();
    Config {
        shards: get_number(matches, "shards", standard.shards),
        workers: get_number(matches, "workers", standard.workers),
        work: get_number(matches, "work", standard.work),
        invalidate: get_number(matches, "invalidate", standard.invalidate),
        pend: get_number(matches, "pend", standard.pend),
        ..standard
    }
}

/// The number of an option. Each option has a default value, so `standard` is never used.
fn get_number(matches: &ArgMatches<'_>, name: &str, standard: u32) -> u32 {
    matches.get_one::<u32>(name).unwrap_or(standard)
}
