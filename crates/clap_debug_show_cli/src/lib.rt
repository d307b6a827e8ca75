//! The top call of the program that shows a run: from the words and the input files to the text or
//! the page, and the status.
#![tactic(auto)]

ghost use Rattle.std.specs.Prelude.{IfSome, map, string_bytes};
ghost use Rattle.command_frame.specs.Answers.{SaysLine};
ghost use Rattle.command_frame.specs.Inputs.{texts_under};
ghost use Rattle.command_frame.specs.Run.{Runs, RunsOver};
ghost use Rattle.command_frame.specs.declared.status.Status.TheVariants.{Usage};
ghost use Rattle.clap_debug_show_cli.specs.Answers.{usage_text};
ghost use Rattle.clap_debug_show_cli.specs.Calls.{plain_showing};
ghost use Rattle.clap_debug_show_cli.specs.Commands.{help_of, show_of};
ghost use Rattle.clap_debug_show_cli.specs.Call.{CallAnswers, IfTold, ToldAnswers};

mod asked;
mod help;
mod limits;
mod refusal;
mod show;
mod shown;
mod words;

use asked::{Help, Show};
use command_frame::{run, say_no_memory, say_usage};
use std::alloc::Global;
use tc_io::{Shelf, Sink};
use words::{Call, Showing, call_of};

const USAGE: &str = concat!(
    "usage: clap_debug_show PROGRAM SCHEDULE [--moves] [--html OUT]\n",
    "usage: clap_debug_show PROGRAM LOG [--html OUT]\n",
    "usage: clap_debug_show PROGRAM\n",
);

/// Shows the schedule or the log that the words name, or helps with the program if they name only
/// that. Reads the files from the shelf, puts a text into the sink or keeps a page, and returns the
/// status of the program.
///
/// The first word is the program's own name. [`show_rows::tell`] and [`path_walk::walk`] define
/// what is shown, and [`next_tokens::stuck_of`] the tokens possible where a text stops being a
/// program; no clause says how it is worded.
pub fn clap_debug_show<H: Shelf, K: Sink>(
    alloc: Global,
    words: &[String],
    shelf: &mut H,
    sink: &mut K,
) -> u8
    ensures call { CallAnswers (map string_bytes words.now) (H.tells shelf.old) (H.tells shelf.new) result (K.tells sink.old) (K.tells sink.new) }
    ensures told { IfTold (map string_bytes words.now) (H.tells shelf.old).held
        (λ call files. ToldAnswers call files result (K.tells sink.old) (K.tells sink.new)) }
{
    match call_of(alloc, words) {
        Ok(Some(Call::Help(name))) => run_help(alloc, name, shelf, sink),
        Ok(Some(Call::Show(showing))) => run_show(alloc, showing, shelf, sink),
        Ok(None) => put_usage(sink),
        Err(_) => say_no_memory(sink),
    }
}
/// Helps with the program of this name.
fn run_help<H: Shelf, K: Sink>(alloc: Global, name: &str, shelf: &mut H, sink: &mut K) -> u8
    ensures runs { Runs (help_of name.now) (H.tells shelf.old) (H.tells shelf.new) result (K.tells sink.old) (K.tells sink.new) }
    ensures over { IfSome (H.tells shelf.old).held (λ files. RunsOver (help_of name.now)
        (texts_under files (help_of name.now).inputs) result (K.tells sink.old) (K.tells sink.new)) }
{
    let help = Help::new(name);
    run(alloc, &help, shelf, sink)
}

/// Shows a file.
fn run_show<H: Shelf, K: Sink>(
    alloc: Global,
    showing: Showing<'_>,
    shelf: &mut H,
    sink: &mut K,
) -> u8
    ensures runs { Runs (show_of (plain_showing showing.entry)) (H.tells shelf.old) (H.tells shelf.new) result (K.tells sink.old) (K.tells sink.new) }
    ensures over { IfSome (H.tells shelf.old).held (λ files. RunsOver (show_of (plain_showing showing.entry))
        (texts_under files (show_of (plain_showing showing.entry)).inputs) result (K.tells sink.old) (K.tells sink.new)) }
{
    let show = Show::new(showing);
    run(alloc, &show, shelf, sink)
}

/// Puts the usage.
fn put_usage<K: Sink>(sink: &mut K) -> u8
    ensures { SaysLine usage_text Usage result (K.tells sink.old) (K.tells sink.new) }
{
    say_usage(USAGE, sink)
}
