// The options of the program.
use crate::help::{EXAMPLES, wrong_question, wrong_value};
use clap::{Arg, ArgAction, ArgMatches, Command, Error, value_parser};
use cluster_input::options as input;
use cluster_input::options::with_input;
use cluster_losses::loss::{Question, parse_question};
use cluster_repair::repair::Pace;
use cluster_report::options::with;
use std::alloc::{AllocError, Global};

/// How many lost blocks and files are named, if not all.
pub const MOST_NAMED: usize = 10;

/// The request of a command line.
#[derive(Drop)]
pub struct Arguments<'a> {
    pub input: input::LoadOptions<'a>,
    pub question: Question<'a>,
    /// The speed of the repair, if one is asked for.
    pub pace: Option<Pace>,
    /// Whether the answer is a picture.
    pub is_picture: bool,
    /// The file for the page, if one is asked for.
    pub page: Option<&'a str>,
    /// How many of each list are named at most.
    pub most: usize,
    pub shows_progress: bool,
}

/// The words of a command line, the program's name first. An `Err` is a request for help, a command
/// line that is refused, or out of memory.
pub fn parse_words<'a>(alloc: Global, words: &'a [String]) -> Result<ArgMatches<'a>, Error> {
    let command = command(alloc)?;
    command.try_get_matches_from(words)
}

/// The request of these words.
pub fn parse_arguments<'a>(
    alloc: Global,
    matches: &ArgMatches<'a>,
) -> Result<Arguments<'a>, Error> {
    let Some(input) = input::parse_load_options(matches) else {
        return Err(wrong_value(alloc)?);
    };
    let lose = matches.get_strs("lose").unwrap_or(&[]);
    let drain = matches.get_strs("drain").unwrap_or(&[]);
    let pace = parse_pace(matches, input.config.work);
    let is_picture = matches.get_flag("svg");
    let Some(question) = parse_question(alloc, lose, drain)? else {
        return Err(wrong_question(alloc)?);
    };
    if !may_ask(&question, pace, is_picture) {
        return Err(wrong_question(alloc)?);
    }
    let most = if matches.get_flag("all") {
        usize::MAX
    } else {
        MOST_NAMED
    };
    Ok(Arguments {
        input,
        question,
        pace,
        is_picture,
        page: matches.get_str("html"),
        most,
        shows_progress: input.input_bytes.is_some(),
    })
}

/// Whether the options fit: a repair is of losses that happen together, a picture of a repair.
fn may_ask(question: &Question<'_>, pace: Option<Pace>, is_picture: bool) -> bool {
    match pace {
        Some(_) => question.is_one(),
        None => !is_picture,
    }
}

/// The speed of the repair, if one is asked for, by a manager with this `work`.
fn parse_pace(matches: &ArgMatches<'_>, work: u32) -> Option<Pace> {
    if !matches.get_flag("mend") {
        return None;
    }
    let megabytes = matches.get_one::<u32>("bandwidth").unwrap_or(50);
    Some(Pace {
        bandwidth: u64::from(megabytes) * 1_000_000,
        interval: matches.get_one::<u32>("interval").unwrap_or(3),
        work,
    })
}

/// The command line.
pub fn command<'a>(alloc: Global) -> Result<Command<'a>, AllocError> {
    let command = with_losses(alloc, program(alloc))?;
    let command = with_repair(alloc, command)?;
    let command = with_input(alloc, command)?;
    Ok(command.after_help(EXAMPLES))
}

/// The command with the options for losses.
fn with_losses<'a>(alloc: Global, command: Command<'a>) -> Result<Command<'a>, AllocError> {
    let lose = several(alloc, "lose", "WHAT").help(
        "rack:NAME, node:HOST, storage:ID, each-rack or each-node, the last two alone",
    );
    let drain = several(alloc, "drain", "HOST").help(
        "a node that is to be taken away; may be given several times",
    );
    let all = flag(alloc, "all").help("names all lost files and blocks, not the first ten");
    let command = with(command, lose)?;
    let command = with(command, drain)?;
    let command = with(command, all)?;
    with(command, page(alloc))
}

fn page<'a>(alloc: Global) -> Arg<'a> {
    new_arg(alloc, "html")
        .action(ArgAction::Set)
        .long("html")
        .value_name("FILE")
        .help("writes the answer to FILE too, as one self-contained page")
}

/// The command with the options for the repair.
fn with_repair<'a>(alloc: Global, command: Command<'a>) -> Result<Command<'a>, AllocError> {
    let mend = flag(alloc, "mend").help("goes on in rounds until nothing more is copied");
    let svg = flag(alloc, "svg").help("with --mend: a picture of the rounds");
    let bandwidth = number(alloc, "bandwidth", "50", 100_000).help(
        "with --mend: megabytes a second that a node sends, and receives, 1 to 100,000",
    );
    let interval = number(alloc, "interval", "3", 3_600).help(
        "with --mend: least seconds from round to round, 1 to 3,600",
    );
    let command = with(command, mend)?;
    let command = with(command, svg)?;
    let command = with(command, bandwidth)?;
    with(command, interval)
}

fn program<'a>(alloc: Global) -> Command<'a> {
    Command::new(alloc, "what-if").about(
        "Prints what is lost with racks, nodes and storages of a cluster",
    )
}

/// An option that may occur several times.
fn several<'a>(alloc: Global, name: &'a str, value: &'a str) -> Arg<'a> {
    new_arg(alloc, name)
        .action(ArgAction::Append)
        .long(name)
        .value_name(value)
}

fn flag<'a>(alloc: Global, name: &'a str) -> Arg<'a> {
    new_arg(alloc, name).action(ArgAction::SetTrue).long(name)
}

/// An option with a whole number from 1 to `most`.
fn number<'a>(alloc: Global, name: &'a str, standard: &'a str, most: u32) -> Arg<'a> {
    new_arg(alloc, name)
        .action(ArgAction::Set)
        .long(name)
        .value_name("N")
        .default_value(standard)
        .value_parser(value_parser!(u32).range(1..=i64::from(most)))
}

fn new_arg<'a>(alloc: Global, name: &'a str) -> Arg<'a> {
    Arg::new(alloc, name)
}
