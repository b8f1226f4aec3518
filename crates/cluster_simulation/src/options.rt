// The options of the program.
ghost use Rattle.std.specs.Prelude.{◌<◌, ◌≤◌};

use crate::help::EXAMPLES;
use crate::misuse::Misuse;
use crate::plan::{Plan, incidents_of};
use crate::shape::{MOST_NODES, MOST_RACKS, MOST_STORAGES, Shape};
use bm_base::{Config, MAX_REPLICATION};
use clap::error::ErrorKind;
use clap::{Arg, ArgAction, ArgMatches, Command, Error, value_parser};
use cluster_repair::repair::Pace;
use std::alloc::{AllocError, Global};

const MOST_BLOCKS: u32 = 1_000_000;

/// At least the default of `--at`, so that this round is always among the rounds.
const LEAST_ROUNDS: u32 = 5;

const MOST_ROUNDS: u32 = 1_000;

const NONE_CORRUPT: u32 = 0;

/// The format of the counts.
#[derive(Clone, Copy)]
pub enum Form {
    Csv,
    Svg,
}

/// A parsed command line.
#[derive(Drop)]
pub struct Arguments {
    pub options: Options,
    pub plan: Plan,
    /// Whether standard error shows the progress in rounds.
    pub shows_progress: bool,
}

/// The cluster, the course of the run, and the format of the output.
#[derive(Clone, Copy)]
pub struct Options {
    pub shape: Shape,
    pub blocks: u32,
    /// The number of wanted replicas of each block.
    pub replication: u32,
    pub seed: u64,
    /// How fast DataNodes are, and how often rounds come.
    pub pace: Pace,
    pub rounds: u32,
    pub form: Form,
    ghost blocks_fit: { (1 ≤ blocks) × (blocks ≤ 1000000) },
    ghost rounds_fit: { (5 ≤ rounds) × (rounds ≤ 1000) },
}

/// Parses a command line, the program's name first. `Err` is a request for help, a refused command
/// line, or out of memory.
pub fn parse_arguments(alloc: Global, words: &[String]) -> Result<Arguments, Error> {
    let command = command(alloc)?;
    let matches = command.try_get_matches_from(words)?;
    let options = parse_options(&matches);
    match parse_plan(alloc, &matches, &options) {
        Ok(plan) => Ok(Arguments {
            options,
            plan,
            shows_progress: matches.get_flag("progress") && !matches.get_flag("quiet"),
        }),
        Err(misuse) => Err(refusal(alloc, misuse)?),
    }
}

/// The error that explains a misuse.
fn refusal(alloc: Global, misuse: Misuse<'_>) -> Result<Error, AllocError> {
    if matches!(misuse, Misuse::Memory) {
        return Err(AllocError);
    }
    let mut command = command(alloc)?;
    let message = format!(in alloc; "{misuse}")?;
    command.error(ErrorKind::ValueValidation, message.as_str())
}

/// An option with a whole number from `least` to `most`.
struct Number {
    name: &'static str,
    standard: &'static str,
    least: u32,
    most: u32,
    help: &'static str,
}

/// The options that describe the cluster.
static CLUSTER: [Number; 5] = [
    Number {
        name: "nodes",
        standard: "30",
        least: 1,
        most: MOST_NODES,
        help: "DataNodes, 1 to 65,536",
    },
    Number {
        name: "racks",
        standard: "3",
        least: 1,
        most: MOST_RACKS,
        help: "racks of the nodes, 1 to 65,536",
    },
    Number {
        name: "storages",
        standard: "2",
        least: 1,
        most: MOST_STORAGES,
        help: "disks of a node, 1 to 16",
    },
    Number {
        name: "blocks",
        standard: "3000",
        least: 1,
        most: MOST_BLOCKS,
        help: "blocks, 1 to 1,000,000",
    },
    Number {
        name: "replication",
        standard: "3",
        least: 1,
        most: MAX_REPLICATION,
        help: "replicas that are wanted of a block, 1 to 16",
    },
];

/// The options that describe the course.
static COURSE: [Number; 3] = [
    Number {
        name: "bandwidth",
        standard: "50",
        least: 1,
        most: 100_000,
        help: "megabytes a second that a node sends, and receives, 1 to 100,000",
    },
    Number {
        name: "interval",
        standard: "3",
        least: 1,
        most: 3_600,
        help: "least seconds from round to round, 1 to 3,600",
    },
    Number {
        name: "rounds",
        standard: "40",
        least: LEAST_ROUNDS,
        most: MOST_ROUNDS,
        help: "rounds, 5 to 1,000",
    },
];

static AT: Number = Number {
    name: "at",
    standard: "5",
    least: 1,
    most: MOST_ROUNDS,
    help: "the round in which it goes wrong, 1 to the last round",
};

fn command<'a>(alloc: Global) -> Result<Command<'a>, AllocError> {
    let command = with_numbers(alloc, program(alloc), &CLUSTER)?;
    let command = with(command, seed(alloc))?;
    let command = with_numbers(alloc, command, &COURSE)?;
    with_form(alloc, with_plan(alloc, command)?)
}

/// Adds the options of the incidents to the command.
fn with_plan<'a>(alloc: Global, command: Command<'a>) -> Result<Command<'a>, AllocError> {
    let command = with(command, lose(alloc))?;
    let command = with(command, drain(alloc))?;
    let command = with(command, corrupt(alloc))?;
    with(command, argument(alloc, &AT))
}

/// Adds the options of the format to the command.
fn with_form<'a>(alloc: Global, command: Command<'a>) -> Result<Command<'a>, AllocError> {
    let command = with(command, csv(alloc))?;
    let command = with(command, svg(alloc)?)?;
    let command = with(command, quiet(alloc))?;
    with(command, progress(alloc))
}

fn program<'a>(alloc: Global) -> Command<'a> {
    Command::new(alloc, "simulate")
        .about("Shows how a made-up cluster of DataNodes mends what goes wrong, round by round")
        .after_help(EXAMPLES)
}

fn with_numbers<'a>(
    alloc: Global,
    mut command: Command<'a>,
    numbers: &[Number],
) -> Result<Command<'a>, AllocError> {
    for number in numbers {
        command = with(command, argument(alloc, number))?;
    }
    Ok(command)
}

/// Adds one argument to the command.
fn with<'a>(command: Command<'a>, arg: Arg<'a>) -> Result<Command<'a>, AllocError> {
    command.arg(arg)
}

fn seed<'a>(alloc: Global) -> Arg<'a> {
    option(alloc, "seed", "1")
        .value_name("X")
        .help("what the random choices start from")
        .value_parser(value_parser!(u64))
}

fn lose<'a>(alloc: Global) -> Arg<'a> {
    several(alloc, "lose", "WHAT").help(
        "rack:N, node:N or storage:N is lost, numbered from 0; may be given several times",
    )
}

fn drain<'a>(alloc: Global) -> Arg<'a> {
    several(alloc, "drain", "N").help("this node is to be taken away; may be given several times")
}

fn corrupt<'a>(alloc: Global) -> Arg<'a> {
    new_arg(alloc, "corrupt")
        .action(ArgAction::Set)
        .long("corrupt")
        .value_name("N")
        .help("one replica of each of N blocks is found corrupt")
        .value_parser(value_parser!(u32).range(1..=i64::from(MOST_BLOCKS)))
}

/// An option that may be given several times.
fn several<'a>(alloc: Global, name: &'a str, value: &'a str) -> Arg<'a> {
    new_arg(alloc, name)
        .action(ArgAction::Append)
        .long(name)
        .value_name(value)
}

fn csv<'a>(alloc: Global) -> Arg<'a> {
    flag(alloc, "csv").help("writes the counts as a table, a line for each round; the default")
}

fn svg<'a>(alloc: Global) -> Result<Arg<'a>, AllocError> {
    flag(alloc, "svg")
        .help("writes the counts as a picture")
        .conflicts_with("csv")
}

fn quiet<'a>(alloc: Global) -> Arg<'a> {
    flag(alloc, "quiet").help("shows no progress on standard error")
}

/// A hidden option, for a caller that knows that standard error is a terminal.
fn progress<'a>(alloc: Global) -> Arg<'a> {
    flag(alloc, "progress").hide(true)
}

fn argument<'a>(alloc: Global, number: &Number) -> Arg<'a> {
    option(alloc, number.name, number.standard)
        .value_name("N")
        .help(number.help)
        .value_parser(value_parser!(u32).range(i64::from(number.least)..=i64::from(number.most)))
}

fn option<'a>(alloc: Global, name: &'a str, standard: &'a str) -> Arg<'a> {
    new_arg(alloc, name)
        .action(ArgAction::Set)
        .long(name)
        .default_value(standard)
}

fn flag<'a>(alloc: Global, name: &'a str) -> Arg<'a> {
    new_arg(alloc, name).action(ArgAction::SetTrue).long(name)
}

fn new_arg<'a>(alloc: Global, name: &'a str) -> Arg<'a> {
    Arg::new(alloc, name)
}

/// The parsed options. Each is within its range already, so the clamps change nothing.
fn parse_options(matches: &ArgMatches<'_>) -> Options {
    Options {
        shape: Shape::new(
            get_number(matches, "nodes"),
            get_number(matches, "racks"),
            get_number(matches, "storages"),
        ),
        blocks: get_number(matches, "blocks").clamp(1, MOST_BLOCKS),
        replication: get_number(matches, "replication"),
        seed: matches.get_one::<u64>("seed").unwrap_or(0),
        pace: Pace {
            bandwidth: u64::from(get_number(matches, "bandwidth")) * 1_000_000,
            interval: get_number(matches, "interval"),
            work: Config::standard().work,
        },
        rounds: get_number(matches, "rounds").clamp(LEAST_ROUNDS, MOST_ROUNDS),
        form: if matches.get_flag("svg") {
            Form::Svg
        } else {
            Form::Csv
        },
    }
}

fn get_number(matches: &ArgMatches<'_>, name: &str) -> u32 {
    matches.get_one::<u32>(name).unwrap_or(0)
}

/// The parsed incidents, if the cluster has what they name and their round is among the rounds.
fn parse_plan<'a>(
    alloc: Global,
    matches: &ArgMatches<'a>,
    options: &Options,
) -> Result<Plan, Misuse<'a>> {
    let lose = matches.get_strs("lose").unwrap_or(&[]);
    let drain = matches.get_strs("drain").unwrap_or(&[]);
    let plan = Plan {
        round: get_number(matches, "at"),
        incidents: incidents_of(alloc, options.shape, lose, drain)?,
        corrupt: matches.get_one::<u32>("corrupt").unwrap_or(NONE_CORRUPT),
    };
    match find_misuse(&plan, options) {
        Some(misuse) => Err(misuse),
        None => Ok(plan),
    }
}

/// The misuse in the numbers of a plan, if any.
fn find_misuse<'a>(plan: &Plan, options: &Options) -> Option<Misuse<'a>> {
    let Options { blocks, rounds, .. } = *options;
    if plan.corrupt > blocks {
        let corrupt = plan.corrupt;
        return Some(Misuse::FewBlocks { corrupt, blocks });
    }
    if plan.round > rounds {
        let round = plan.round;
        return Some(Misuse::TooLate { round, rounds });
    }
    None
}
