// The options of the program.
ghost use Rattle.std.specs.Prelude.{◌≡◌, false, None, IfOk, string_bytes, map, codes};
ghost use Rattle.bm_base.specs.Words.{config_refusal};
ghost use Rattle.clap.specs.Words.{FailsBy, app_of, found_of, rule_of};
ghost use Rattle.bm_tool.specs.Options.{IsNumberOf, configured_by, option_rule, refusals_of, tool};

use bm_base::Config;
use clap::{Arg, ArgAction, ArgMatches, Command, Error, value_parser};
use std::alloc::{AllocError, Global};

/// The configuration that the words of a command line name, the program's name first: each option
/// at most once, a whole number within its range. Other options have their defaults, and both
/// numbers begin at 0. An `Err` is a request for help, a refused command line, or out of memory.
pub fn config_of(alloc: Global, words: &[String]) -> Result<Config, Error>
    ensures exact { IfOk result (λ c. c ≡ configured_by (map string_bytes words.now)) }
    ensures allowed { IfOk result (λ c. config_refusal c ≡ None) }
    ensures refused { FailsBy (refusals_of (map string_bytes words.now)) result }
{
    let command = command(alloc)?;
    let matches = command.try_get_matches_from(words)?;
    Ok(config_from(&matches))
}

fn command<'a>(alloc: Global) -> Result<Command<'a>, AllocError>
    ensures { IfOk result (λ c. app_of c ≡ tool) }
{
    Command::new(alloc, "bm_tool")
        .about(
            "Answers calls on a block manager: one JSON object a line in, one line of text for each out\n\n\
             There is no safe mode: a replica that is reported before its block is added is stray, and the next\n\
             round orders its delete. Add all blocks before the first report, and start rounds after it.",
        )
        .arg(option(
            alloc,
            "shards",
            "1",
            64,
            "parts into which the blocks are cut, 1 to 64",
        ))?
        .arg(option(
            alloc,
            "workers",
            "1",
            16,
            "threads that work on a call, 1 to 16",
        ))?
        .arg(option(
            alloc,
            "work",
            "2",
            1_000,
            "copies that a round commands for each alive node, 1 to 1,000",
        ))?
        .arg(option(
            alloc,
            "invalidate",
            "1000",
            1_000_000,
            "deletes that a round commands one node, 1 to 1,000,000",
        ))?
        .arg(option(
            alloc,
            "pend",
            "100",
            1_000_000,
            "rounds after which a copy is given up, 1 to 1,000,000",
        ))
}

/// An option with a whole number from 1 to `most`.
fn option<'a>(alloc: Global, name: &'a str, standard: &'a str, most: u32, help: &'a str) -> Arg<'a>
    ensures rule { rule_of result ≡ option_rule name.entry.now standard.entry.now most }
    ensures local { result.global ≡ false }
{
    Arg::new(alloc, name)
        .action(ArgAction::Set)
        .long(name)
        .value_name("N")
        .value_parser(value_parser!(u32).range(1..=i64::from(most)))
        .default_value(standard)
        .help(help)
}

fn config_from(matches: &ArgMatches<'_>) -> Config
    ensures shards { IsNumberOf (found_of matches.now) (codes "shards") result.shards }
    ensures workers { IsNumberOf (found_of matches.now) (codes "workers") result.workers }
    ensures work { IsNumberOf (found_of matches.now) (codes "work") result.work }
    ensures invalidate { IsNumberOf (found_of matches.now) (codes "invalidate") result.invalidate }
    ensures pend { IsNumberOf (found_of matches.now) (codes "pend") result.pend }
    ensures counts { (result.first_round ≡ 0) × (result.first_call ≡ 0) }
{
    let standard = Config::standard();
    Config {
        shards: number(matches, "shards", standard.shards),
        workers: number(matches, "workers", standard.workers),
        work: number(matches, "work", standard.work),
        invalidate: number(matches, "invalidate", standard.invalidate),
        pend: number(matches, "pend", standard.pend),
        ..standard
    }
}

/// The number of an option; `standard` if it has none, which a default value rules out.
fn number(matches: &ArgMatches<'_>, name: &str, standard: u32) -> u32
    ensures { IsNumberOf (found_of matches.now) name.now result }
{
    matches.get_one::<u32>(name).unwrap_or(standard)
}
