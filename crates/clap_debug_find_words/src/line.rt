//! The command line.
ghost use Rattle.std.specs.Prelude.{◌≡◌, false, IfOk};
ghost use Rattle.clap.specs.Words.{app_of, rule_of};
ghost use Rattle.clap_debug_find_words.specs.CommandLine as spec;

use clap::builder::ValueParser;
use clap::{Arg, ArgAction, Command};
use std::alloc::{AllocError, Global};
use tc_limits::limits::BUDGET;

/// The greatest number of outcomes that can be asked for.
pub(crate) const OUTCOMES: u64 = 65_535;

/// The greatest number of logs that can be asked for.
pub(crate) const LOGS: u64 = 4_294_967_295;

/// The default number of outcomes.
pub(crate) const USUAL_OUTCOMES: u64 = 12;

/// The default number of logs.
pub(crate) const USUAL_LOGS: u64 = 10_000;

/// The default number of conflicts.
pub(crate) const USUAL_BUDGET: u64 = 1_000_000;

/// `PROGRAM OUT [--check] [--model MODEL] [--deadlock] [--outcomes N] [--logs K] [--budget B]`.
pub(crate) fn command_line<'a>(alloc: Global) -> Result<Command<'a>, AllocError>
    ensures { IfOk result (λ command. app_of command ≡ spec.command_line) }
{
    kinds_line(alloc)?
        .arg(number(alloc, "outcomes", 0, OUTCOMES))?
        .arg(number(alloc, "logs", 1, LOGS))?
        .arg(number(alloc, "budget", 1, BUDGET as u64))
}

/// `PROGRAM OUT [--check] [--model MODEL] [--deadlock]`.
fn kinds_line<'a>(alloc: Global) -> Result<Command<'a>, AllocError>
    ensures { IfOk result (λ command. app_of command ≡ spec.kinds_line) }
{
    names_line(alloc)?
        .arg(flag(alloc, "check"))?
        .arg(option(alloc, "model"))?
        .arg(flag(alloc, "deadlock"))
}

/// `PROGRAM OUT`.
fn names_line<'a>(alloc: Global) -> Result<Command<'a>, AllocError>
    ensures { IfOk result (λ command. app_of command ≡ spec.names_line) }
{
    Command::new(alloc, "clap_debug_find")
        .disable_help_flag(true)
        .arg(positional(alloc, "program"))?
        .arg(positional(alloc, "out"))
}

/// A required positional argument.
fn positional<'a>(alloc: Global, name: &'a str) -> Arg<'a>
    ensures rule { rule_of result ≡ spec.positional name.entry.now }
    ensures local { result.global ≡ false }
{
    Arg::new(alloc, name).required(true)
}

/// An option that takes any one value.
fn option<'a>(alloc: Global, name: &'a str) -> Arg<'a>
    ensures rule { rule_of result ≡ spec.option name.entry.now }
    ensures local { result.global ≡ false }
{
    Arg::new(alloc, name).long(name)
}

/// An option that takes a number in a range.
fn number<'a>(alloc: Global, name: &'a str, low: u64, high: u64) -> Arg<'a>
    ensures rule { rule_of result ≡ spec.number name.entry.now low high }
    ensures local { result.global ≡ false }
{
    parsed(alloc, name, ValueParser::unsigned(low, high))
}

/// An option whose value a parser reads.
fn parsed<'a>(alloc: Global, name: &'a str, parser: ValueParser<'a>) -> Arg<'a>
    ensures rule { rule_of result ≡ spec.parsed name.entry.now parser.entry }
    ensures local { result.global ≡ false }
{
    Arg::new(alloc, name).long(name).value_parser(parser)
}

/// An option without a value.
fn flag<'a>(alloc: Global, name: &'a str) -> Arg<'a>
    ensures rule { rule_of result ≡ spec.flag name.entry.now }
    ensures local { result.global ≡ false }
{
    Arg::new(alloc, name).long(name).action(ArgAction::SetTrue)
}
