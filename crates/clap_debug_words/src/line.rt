//! The command line.
ghost use Rattle.std.specs.Prelude.{◌≡◌, [], ◌∷◌, true, false, codes, IfOk};
ghost use Rattle.clap.specs.Words.{app_of, new_app, rule_of, shape_of, with_rule, with_subcommand, App, Rule, Shape};
ghost use Rattle.clap_debug_words.specs.CommandLine as spec;
ghost use Rattle.clap_debug_words.specs.CommandLine.{of_log};

use clap::{Arg, Command};
use std::alloc::{AllocError, Global};
use std::mem::drop;

/// The whole command.
pub(crate) fn command_line<'a>(alloc: Global) -> Result<Command<'a>, AllocError>
    ensures { IfOk result (λ command. app_of command ≡ spec.command_line) }
{
    let command = Ok(commands(Command::new(alloc, "clap_debug")));
    let command = add(command, list(alloc));
    let command = add(command, with_file(alloc, "replay", "schedule"));
    let command = add(command, recording(alloc));
    let command = add(command, with_file(alloc, "migrate", "out"));
    let command = add(command, solving(alloc));
    let command = add(command, with_file(alloc, "check", "refutation"));
    let command = add(command, workload(alloc));
    let command = add(command, cnf(alloc));
    let command = add(command, import(alloc));
    add(command, with_file(alloc, "why", "refutation"))
}

/// Adds a subcommand to a command, if there is one.
fn add<'a>(
    command: Result<Command<'a>, AllocError>,
    subcommand: Result<Command<'a>, AllocError>,
) -> Result<Command<'a>, AllocError>
    ensures { (app : App) (shape : Shape) → shape.is_plain ≡ true → IfOk command.entry (λ c. app_of c ≡ app)
        → IfOk subcommand.entry (λ s. shape_of s ≡ shape) → IfOk result (λ whole. app_of whole ≡ with_subcommand app shape) }
{
    match command {
        Ok(command) => with_command(command, subcommand),
        Err(fault) => {
            drop(subcommand);
            Err(fault)
        }
    }
}

/// Adds a subcommand to a command.
fn with_command<'a>(
    command: Command<'a>,
    subcommand: Result<Command<'a>, AllocError>,
) -> Result<Command<'a>, AllocError>
    ensures { (shape : Shape) → shape.is_plain ≡ true → IfOk subcommand.entry (λ s. shape_of s ≡ shape)
        → IfOk result (λ whole. app_of whole ≡ with_subcommand (app_of command.entry) shape) }
{
    match subcommand {
        Ok(subcommand) => command.subcommand(subcommand),
        Err(fault) => {
            drop(command);
            Err(fault)
        }
    }
}

/// The command, made to require a subcommand and to have no help.
fn commands<'a>(command: Command<'a>) -> Command<'a>
    ensures { app_of result ≡ spec.commands (app_of command.entry) }
{
    command
        .disable_help_flag(true)
        .disable_help_subcommand(true)
        .subcommand_required(true)
}

/// `list PROGRAM`.
fn list<'a>(alloc: Global) -> Result<Command<'a>, AllocError>
    ensures { IfOk result (λ command. shape_of command
        ≡ spec.shape_of (record { name = codes "list"; positionals = codes "program" ∷ []; options = [] })) }
{
    Command::new(alloc, "list").arg(positional(alloc, "program"))
}

/// `record PROGRAM LOG [--model MODEL] [--seed N] [--steps N]`.
fn recording<'a>(alloc: Global) -> Result<Command<'a>, AllocError>
    ensures { IfOk result (λ command. shape_of command
        ≡ spec.shape_of (of_log (codes "record") [] (codes "model" ∷ codes "seed" ∷ codes "steps" ∷ []))) }
{
    let command = with(two_files(alloc, "record"), option(alloc, "model"));
    with(with(command, option(alloc, "seed")), option(alloc, "steps"))
}

/// `solve PROGRAM LOG OUT [--model MODEL] [--budget N] [--least REFUTATION]`.
fn solving<'a>(alloc: Global) -> Result<Command<'a>, AllocError>
    ensures { IfOk result (λ command. shape_of command
        ≡ spec.shape_of (of_log (codes "solve") (codes "out" ∷ []) (codes "model" ∷ codes "budget" ∷ codes "least" ∷ []))) }
{
    let command = with(three_files(alloc, "solve", "out"), option(alloc, "model"));
    with(
        with(command, option(alloc, "budget")),
        option(alloc, "least"),
    )
}

/// `workload N SEED`.
fn workload<'a>(alloc: Global) -> Result<Command<'a>, AllocError>
    ensures { IfOk result (λ command. shape_of command
        ≡ spec.shape_of (record { name = codes "workload"; positionals = codes "workers" ∷ codes "seed" ∷ []; options = [] })) }
{
    let command = Command::new(alloc, "workload").arg(positional(alloc, "workers"));
    with(command, positional(alloc, "seed"))
}

/// `cnf PROGRAM LOG OUT [--model MODEL]`.
fn cnf<'a>(alloc: Global) -> Result<Command<'a>, AllocError>
    ensures { IfOk result (λ command. shape_of command
        ≡ spec.shape_of (of_log (codes "cnf") (codes "out" ∷ []) (codes "model" ∷ []))) }
{
    with(three_files(alloc, "cnf", "out"), option(alloc, "model"))
}

/// `import PROGRAM LOG ANSWER OUT [--model MODEL]`.
fn import<'a>(alloc: Global) -> Result<Command<'a>, AllocError>
    ensures { IfOk result (λ command. shape_of command
        ≡ spec.shape_of (of_log (codes "import") (codes "answer" ∷ codes "out" ∷ []) (codes "model" ∷ []))) }
{
    let command = with(
        three_files(alloc, "import", "answer"),
        positional(alloc, "out"),
    );
    with(command, option(alloc, "model"))
}

/// A command of a program, its log and one more file.
fn with_file<'a>(alloc: Global, name: &'a str, file: &'a str) -> Result<Command<'a>, AllocError>
    ensures { IfOk result (λ command. shape_of command ≡ spec.shape_of (of_log name.entry.now (file.entry.now ∷ []) [])) }
{
    three_files(alloc, name, file)
}

/// A command of a program, its log and one more file, to which more can be added.
fn three_files<'a>(alloc: Global, name: &'a str, file: &'a str) -> Result<Command<'a>, AllocError>
    ensures { IfOk result (λ command. app_of command ≡ with_rule (with_rule (with_rule (new_app name.entry.now)
        (spec.positional (codes "program"))) (spec.positional (codes "log"))) (spec.positional file.entry.now)) }
{
    with(two_files(alloc, name), positional(alloc, file))
}

/// A command of a program and its log, to which more can be added.
fn two_files<'a>(alloc: Global, name: &'a str) -> Result<Command<'a>, AllocError>
    ensures { IfOk result (λ command. app_of command
        ≡ with_rule (with_rule (new_app name.entry.now) (spec.positional (codes "program"))) (spec.positional (codes "log"))) }
{
    let command = Command::new(alloc, name).arg(positional(alloc, "program"));
    with(command, positional(alloc, "log"))
}

/// Adds an argument to a command, if there is one.
fn with<'a>(
    command: Result<Command<'a>, AllocError>,
    argument: Arg<'a>,
) -> Result<Command<'a>, AllocError>
    requires { argument.global ≡ false }
    ensures { (app : App) (rule : Rule) → IfOk command.entry (λ c. app_of c ≡ app) → rule_of argument.entry ≡ rule
        → IfOk result (λ c. app_of c ≡ with_rule app rule) }
{
    match command {
        Ok(command) => command.arg(argument),
        Err(fault) => {
            drop(argument);
            Err(fault)
        }
    }
}

/// A required positional.
fn positional<'a>(alloc: Global, name: &'a str) -> Arg<'a>
    ensures rule { rule_of result ≡ spec.positional name.entry.now }
    ensures local { result.global ≡ false }
{
    Arg::new(alloc, name).required(true)
}

/// An option that takes any one value.
fn option<'a>(alloc: Global, name: &'a str) -> Arg<'a>
    ensures rule { rule_of result ≡ spec.option name.entry.now }
    ensures local { result.global ≡ false }
{
    Arg::new(alloc, name).long(name)
}
