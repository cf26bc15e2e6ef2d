ghost use Rattle.std.specs.Prelude.{◌≡◌, IfOk, false, string_bytes, map, codes};
ghost use Rattle.clap.specs.Words.{app_of, rule_of, rows_of, found_of, matches_of, fault_of, FailsBy};
ghost use Rattle.bmc_words.specs.Arguments.{strict, log_cap, sample, config, bmcreplay};
ghost use Rattle.bmc_words.specs.Numbers.{IsNumberIn};

use clap::builder::ValueParser;
use clap::{Arg, ArgAction, ArgMatches, Command, Error};
use std::alloc::{AllocError, Global};

// The greatest cap of a log.
const MOST_LOG_CAP: u64 = 1000;

// The greatest seed of a sample.
const MOST_SEED: u64 = 2_147_483_647;

fn strict<'a>(alloc: Global) -> Arg<'a>
    ensures rule { rule_of result ≡ strict }
    ensures local { result.global ≡ false }
{
    Arg::new(alloc, "strict")
        .long("strict")
        .action(ArgAction::SetTrue)
}

fn log_cap<'a>(alloc: Global) -> Arg<'a>
    ensures rule { rule_of result ≡ log_cap }
    ensures local { result.global ≡ false }
{
    Arg::new(alloc, "log_cap")
        .long("log-cap")
        .value_parser(ValueParser::unsigned(1, MOST_LOG_CAP))
}

fn sample<'a>(alloc: Global) -> Arg<'a>
    ensures rule { rule_of result ≡ sample }
    ensures local { result.global ≡ false }
{
    Arg::new(alloc, "sample")
        .long("sample")
        .value_parser(ValueParser::unsigned(0, MOST_SEED))
}

fn config<'a>(alloc: Global) -> Arg<'a>
    ensures rule { rule_of result ≡ config }
    ensures local { result.global ≡ false }
{
    Arg::new(alloc, "config").action(ArgAction::Append)
}

fn command<'a>(alloc: Global) -> Result<Command<'a>, AllocError>
    ensures { IfOk result (λ command. app_of command ≡ bmcreplay) }
{
    Command::new(alloc, "bmcreplay")
        .no_binary_name(true)
        .arg(strict(alloc))?
        .arg(log_cap(alloc))?
        .arg(sample(alloc))?
        .arg(config(alloc))
}

// Parses the words. The numbers of the options are in their ranges.
pub(crate) fn parse<'a>(alloc: Global, words: &'a [String]) -> Result<ArgMatches<'a>, Error>
    ensures rows { IfOk result (λ matches.
        rows_of (found_of matches) ≡ matches_of bmcreplay (map string_bytes words.entry.now)) }
    ensures log_cap { IfOk result (λ matches. IsNumberIn (codes "log_cap") 1 1000 (rows_of (found_of matches))) }
    ensures sample { IfOk result (λ matches. IsNumberIn (codes "sample") 0 2147483647 (rows_of (found_of matches))) }
    ensures fault { FailsBy (fault_of bmcreplay (map string_bytes words.entry.now)) result }
{
    command(alloc)?.try_get_matches_from(words)
}
