//! `solve PROGRAM LOG OUT --least REFUTATION`: a schedule that leads to a log's failure or deadlock
//! with the fewest context switches, and a refutation that proves that none has fewer.
#![tactic(auto)]

ghost use Rattle.std.specs.Prelude.{IfSome};
ghost use Rattle.command_frame.specs.Run.{Runs};
ghost use Rattle.least_command.specs.Answers.{LeastAnswers};
ghost use Rattle.least_command.specs.Meanings.{least_of};
ghost use Rattle.least_command.specs.Calls.{plain_least};

mod command;
mod search;
mod solution;
mod texts;

pub use command::Least;
use command_frame::run;
pub use solution::Solution;
use std::alloc::Global;
use tc_io::{Shelf, Sink};

/// Searches for a schedule with the fewest context switches.
pub fn find_least<H: Shelf, K: Sink>(
    alloc: Global,
    least: &Least<'_>,
    shelf: &mut H,
    sink: &mut K,
) -> u8
    ensures runs { Runs (least_of (plain_least least.now)) (H.tells shelf.old) (H.tells shelf.new) result (K.tells sink.old) (K.tells sink.new) }
    ensures answers { IfSome (H.tells shelf.old).held (λ files. LeastAnswers (plain_least least.now) files
        (record { status = result; held = (H.tells shelf.new).held; before = K.tells sink.old; after = K.tells sink.new })) }
{
    run(alloc, least, shelf, sink)
}
