//! The top call of the program that searches for failures: from the words to the search, or the
//! check of a certificate, that they ask for.
#![tactic(auto)]

ghost use Rattle.std.specs.Prelude.{map, string_bytes};
ghost use Rattle.command_frame.specs.Answers.{SaysLine};
ghost use Rattle.command_frame.specs.declared.status.Status.TheVariants.{Usage};
ghost use Rattle.clap_debug_find_words.specs.Calls.{call_of, plain_call};
ghost use Rattle.clap_debug_find_cli.specs.Call.{Answers, Does, IfTold, RunsCall, usage_text};

use certificate_check::check_certificate;
use clap_debug_find_words::{Call, call_of};
use command_frame::{say_no_memory, say_usage};
use find_command::search_program;
use std::alloc::Global;
use tc_io::{Shelf, Sink};

const USAGE: &str = concat!(
    "usage: clap_debug_find PROGRAM OUT [--model sc|tso|pso] [--deadlock] [--outcomes N] ",
    "[--logs K] [--budget B]\n",
    "usage: clap_debug_find PROGRAM CERTIFICATE --check\n",
);

/// Does what the words ask for with the files of the shelf, puts one line into the sink, and returns
/// the exit status.
///
/// The first word is the program's own name.
pub fn clap_debug_find<H: Shelf, K: Sink>(
    alloc: Global,
    words: &[String],
    shelf: &mut H,
    sink: &mut K,
) -> u8
    ensures call { Does (call_of (map string_bytes words.now)) (H.tells shelf.old) (H.tells shelf.new) result (K.tells sink.old) (K.tells sink.new) }
    ensures answers { IfTold (map string_bytes words.now) (H.tells shelf.old).held (λ call files. Answers call files
        (record { status = result; held = (H.tells shelf.new).held; before = K.tells sink.old; after = K.tells sink.new })) }
{
    match call_of(alloc, words) {
        Ok(Some(call)) => run_call(alloc, &call, shelf, sink),
        Ok(None) => put_usage(sink),
        Err(_) => say_no_memory(sink),
    }
}

/// Runs the command of a call.
fn run_call<H: Shelf, K: Sink>(alloc: Global, call: &Call<'_>, shelf: &mut H, sink: &mut K) -> u8
    ensures { RunsCall (plain_call call.now) (H.tells shelf.old) (H.tells shelf.new) result (K.tells sink.old) (K.tells sink.new) }
{
    match call {
        Call::Search(call) => search_program(alloc, call, shelf, sink),
        Call::Check(call) => check_certificate(alloc, call, shelf, sink),
    }
}

/// Puts the usage.
fn put_usage<K: Sink>(sink: &mut K) -> u8
    ensures { SaysLine usage_text Usage result (K.tells sink.old) (K.tells sink.new) }
{
    say_usage(USAGE, sink)
}
