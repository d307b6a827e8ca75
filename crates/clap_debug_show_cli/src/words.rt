//! The words of a command line, read by `clap`.
ghost use Rattle.std.specs.Prelude.{◌≡◌, false, map, IfOk, option_map, string_bytes};
ghost use Rattle.clap.specs.Words.{app_of, found_of, new_rule, rows_of, rule_of};
ghost use Rattle.clap_debug_show_cli.specs.Calls as spec;
ghost use Rattle.clap_debug_show_cli.specs.Calls.{call_in, call_of, plain_call, plain_text};
ghost use Rattle.clap_debug_show_cli.specs.helpers.Lines.{names_line};

use clap::error::ErrorKind;
use clap::{Arg, ArgAction, ArgMatches, Command};
use std::alloc::{AllocError, Global};

/// A call that shows a schedule or a log of a program, as text, optionally with a row for each
/// move, or as a page.
#[derive(Clone, Copy)]
pub(crate) struct Showing<'a> {
    pub(crate) program: &'a str,
    /// The name of the schedule, or of the log.
    pub(crate) file: &'a str,
    /// The name under which to keep a page, if any.
    pub(crate) page: Option<&'a str>,
    /// Whether each move gets a row.
    pub(crate) moves: bool,
}

/// The call that the words ask for.
#[derive(Clone, Copy)]
pub(crate) enum Call<'a> {
    /// Explains why the text under this name isn't a program, or describes the program.
    Help(&'a str),
    /// Shows a file.
    Show(Showing<'a>),
}

/// The call that the words ask for, or `None` if the words aren't accepted. An `Err` means that
/// memory ran out.
pub(crate) fn call_of<'a>(
    alloc: Global,
    words: &'a [String],
) -> Result<Option<Call<'a>>, AllocError>
    ensures { IfOk result (λ call. option_map plain_call call ≡ call_of (map string_bytes words.now)) }
{
    match command_line(alloc)?.try_get_matches_from(words) {
        Ok(matches) => Ok(call_in(&matches)),
        Err(error) => match error.kind() {
            ErrorKind::OutOfMemory => Err(AllocError),
            _ => Ok(None),
        },
    }
}

/// The call that the matches ask for, if any.
fn call_in<'a>(matches: &ArgMatches<'a>) -> Option<Call<'a>>
    ensures { option_map plain_call result ≡ call_in (rows_of (found_of matches.now)) }
{
    let program = text(matches, "program");
    let (file, page) = (matches.get_str("file"), matches.get_str("html"));
    asked(program, file, page, is_given(matches, "moves"))
}

/// The call for a program, with a file to show or without one.
fn asked<'a>(
    program: &'a str,
    file: Option<&'a str>,
    page: Option<&'a str>,
    moves: bool,
) -> Option<Call<'a>>
    ensures { option_map plain_call result ≡ spec.asked program.now (plain_text file.entry) (plain_text page.entry) moves }
{
    match (file, page, moves) {
        (Some(file), _, _) => Some(Call::Show(Showing {
            program,
            file,
            page,
            moves,
        })),
        (None, None, false) => Some(Call::Help(program)),
        (None, None, true) | (None, Some(_), _) => None,
    }
}

/// Whether a flag is given.
fn is_given(matches: &ArgMatches<'_>, id: &str) -> bool
    ensures { result ≡ spec.is_given id.now (rows_of (found_of matches.now)) }
{
    is_true(matches.get_str(id))
}

/// Whether the value of a flag says that the flag is given.
fn is_true(word: Option<&str>) -> bool
    ensures { result ≡ spec.is_true (plain_text word.entry) }
{
    match word {
        Some(word) => word == "true",
        None => false,
    }
}

/// The value of a positional argument.
fn text<'a>(matches: &ArgMatches<'a>, id: &str) -> &'a str
    ensures { result.now ≡ spec.text_of id.now (rows_of (found_of matches.now)) }
{
    matches.get_str(id).unwrap_or("")
}

/// `PROGRAM [FILE] [--html OUT] [--moves]`.
fn command_line<'a>(alloc: Global) -> Result<Command<'a>, AllocError>
    ensures { IfOk result (λ command. app_of command ≡ spec.command_line) }
{
    let page = option(alloc, "html");
    let moves = flag(alloc, "moves");
    names_line(alloc)?.arg(page)?.arg(moves)
}

/// `PROGRAM [FILE]`.
fn names_line<'a>(alloc: Global) -> Result<Command<'a>, AllocError>
    ensures { IfOk result (λ command. app_of command ≡ names_line) }
{
    Command::new(alloc, "clap_debug_show")
        .disable_help_flag(true)
        .arg(positional(alloc, "program"))?
        .arg(optional(alloc, "file"))
}

/// A required positional argument.
fn positional<'a>(alloc: Global, name: &'a str) -> Arg<'a>
    ensures rule { rule_of result ≡ spec.positional name.entry.now }
    ensures local { result.global ≡ false }
{
    Arg::new(alloc, name).required(true)
}

/// An optional positional argument.
fn optional<'a>(alloc: Global, name: &'a str) -> Arg<'a>
    ensures rule { rule_of result ≡ new_rule name.entry.now }
    ensures local { result.global ≡ false }
{
    Arg::new(alloc, name)
}

/// An option with a value.
fn option<'a>(alloc: Global, name: &'a str) -> Arg<'a>
    ensures rule { rule_of result ≡ spec.option name.entry.now }
    ensures local { result.global ≡ false }
{
    Arg::new(alloc, name).long(name)
}

/// An option without a value.
fn flag<'a>(alloc: Global, name: &'a str) -> Arg<'a>
    ensures rule { rule_of result ≡ spec.flag name.entry.now }
    ensures local { result.global ≡ false }
{
    Arg::new(alloc, name).long(name).action(ArgAction::SetTrue)
}
