//! `PROGRAM OUT`: a search for a failure or a deadlock of a program, without a run.
//!
//! The log of one is kept, or a certificate that there is none.
#![tactic(auto)]

ghost use Rattle.std.specs.Prelude.{IfSome};
ghost use Rattle.command_frame.specs.Run.{Runs};
ghost use Rattle.find_command.specs.Answers.{SearchAnswers};
ghost use Rattle.find_command.specs.Calls.{plain_search};
ghost use Rattle.find_command.specs.Meanings.{search_of};

mod command;
mod finding;
mod line;
mod search;
mod searching;

use command_frame::run;
pub use finding::{Finding, Findings};
pub use search::Search;
use std::alloc::Global;
use tc_io::{Shelf, Sink};

/// Searches for a failure or a deadlock, and keeps the log of one, or a certificate that there is none.
pub fn search_program<H: Shelf, K: Sink>(
    alloc: Global,
    search: &Search<'_>,
    shelf: &mut H,
    sink: &mut K,
) -> u8
    ensures runs { Runs (search_of (plain_search search.now)) (H.tells shelf.old) (H.tells shelf.new) result (K.tells sink.old) (K.tells sink.new) }
    ensures answers { IfSome (H.tells shelf.old).held (λ files. SearchAnswers (plain_search search.now) files
        (record { status = result; held = (H.tells shelf.new).held; before = K.tells sink.old; after = K.tells sink.new })) }
{
    run(alloc, search, shelf, sink)
}
