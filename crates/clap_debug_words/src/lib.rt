//! The words of a command line, read by `clap`: one command of the program, with its files.
#![tactic(auto)]

ghost use Rattle.std.specs.Prelude.{◌≡◌, List, Some, true, map, IfOk, IsSomeAnd, option_and_then, option_map, string_bytes};
ghost use Rattle.clap.specs.Words.{subcommand_of, subcommand_rows_of, Text};
ghost use Rattle.clap_debug_words.specs.Calls as spec;
ghost use Rattle.clap_debug_words.specs.Calls.{call_of, plain_call, words_taken, Called};
ghost use Rattle.clap_debug_words.specs.CommandLine.{command_line};
ghost use Rattle.clap_debug_words.specs.PlainWords.{is_plain, words_of};
ghost use Rattle.clap_debug_words.specs.Given.{HasFiles, HasValues};

mod call;
mod line;
mod matched;
mod values;

pub use call::{Budget, Call, Workers};
use clap::ArgMatches;
use clap::error::ErrorKind;
use line::command_line;
use matched::called;
use std::alloc::{AllocError, Global};

/// The call that the words ask for, or `None` if they aren't accepted; a request for help isn't.
///
/// The first word is the program's own name. `Err` means that there is no memory.
pub fn call_of<'a>(alloc: Global, words: &'a [String]) -> Result<Option<Call<'a>>, AllocError>
    ensures { IfOk result (λ call. option_map plain_call call ≡ call_of (map string_bytes words.now)) }
{
    match command_line(alloc)?.try_get_matches_from(words) {
        Ok(matches) => Ok(call_in(&matches)),
        Err(error) => match error.kind() {
            ErrorKind::OutOfMemory => Err(AllocError),
            _ => Ok(None),
        },
    }
}

/// The call in the matches of the whole command.
fn call_in<'a>(matches: &ArgMatches<'a>) -> Option<Call<'a>>
    ensures { option_map plain_call result ≡ option_and_then spec.called (subcommand_rows_of matches.now) }
{
    let (name, inner) = matches.subcommand()?;
    called(name, inner)
}

/// Plain words are accepted, with the names and values that they have.
pub fn plain_words_are_taken()
    ensures { (first : Text) (call : Called) → is_plain call ≡ true → call_of (words_of first call) ≡ Some call }
{}

/// Accepted words name a command, and each file that it needs.
pub fn taken_words_name_their_files()
    ensures { (words : List Text) → words_taken words ≡ true → IsSomeAnd (subcommand_of command_line words) HasFiles }
{}

/// Accepted words give each option a value that it allows.
pub fn taken_words_have_values()
    ensures { (words : List Text) → words_taken words ≡ true → IsSomeAnd (subcommand_of command_line words) HasValues }
{}
