//! The command and its options.

ghost use Rattle.std.specs.Prelude.{◌≡◌, false, IfOk};
ghost use Rattle.clap.specs.Words.{app_of, rule_of};
ghost use Rattle.program_io.specs.Words.{check_rule, clock_rule, command, seed_rule, tries_rule, workers_rule};

use clap::builder::ValueParser;
use clap::{Arg, ArgAction, Command, value_parser};
use std::alloc::{AllocError, Global};

pub(crate) const MOST_WORKERS: u32 = 64;

pub(crate) const MOST_TRIES: u32 = 1_000;

/// The command with its options.
pub(crate) fn cicada_command<'a>(alloc: Global) -> Result<Command<'a>, AllocError>
    ensures { IfOk result (λ r. app_of r ≡ command) }
{
    Command::new(alloc, "cicada")
        .no_binary_name(true)
        .about("Runs the transactions of an input text over tables in memory, and reports.")
        .after_help(
            "The input is read from standard input, and the report written to standard output.",
        )
        .arg(workers(alloc))?
        .arg(tries(alloc))?
        .arg(clock(alloc))?
        .arg(seed(alloc))?
        .arg(check(alloc))
}

fn workers<'a>(alloc: Global) -> Arg<'a>
    ensures rule { rule_of result ≡ workers_rule }
    ensures own { result.global ≡ false }
{
    Arg::new(alloc, "workers")
        .long("workers")
        .action(ArgAction::Set)
        .value_name("N")
        .value_parser(ValueParser::unsigned(1, MOST_WORKERS as u64))
        .help("How many workers run lanes, 1 to 64 [default: 4]")
}

fn tries<'a>(alloc: Global) -> Arg<'a>
    ensures rule { rule_of result ≡ tries_rule }
    ensures own { result.global ≡ false }
{
    Arg::new(alloc, "tries")
        .long("tries")
        .action(ArgAction::Set)
        .value_name("N")
        .value_parser(ValueParser::unsigned(1, MOST_TRIES as u64))
        .help("How often a worker tries a block at most, 1 to 1000 [default: 64]")
}

fn clock<'a>(alloc: Global) -> Arg<'a>
    ensures rule { rule_of result ≡ clock_rule }
    ensures own { result.global ≡ false }
{
    Arg::new(alloc, "clock")
        .long("clock")
        .action(ArgAction::Set)
        .value_name("CLOCK")
        .help("What stamps go by: count, or real for the machine's clock too [default: count]")
}

fn seed<'a>(alloc: Global) -> Arg<'a>
    ensures rule { rule_of result ≡ seed_rule }
    ensures own { result.global ≡ false }
{
    Arg::new(alloc, "gen")
        .long("gen")
        .action(ArgAction::Set)
        .value_name("SEED")
        .value_parser(value_parser!(u64))
        .help(
            "Run the input that is generated from this number of 64 bits, and sum up what it comes to",
        )
}

fn check<'a>(alloc: Global) -> Arg<'a>
    ensures rule { rule_of result ≡ check_rule }
    ensures own { result.global ≡ false }
{
    Arg::new(alloc, "check")
        .long("check")
        .action(ArgAction::SetTrue)
        .help("Check the report that standard input holds behind an input")
}
