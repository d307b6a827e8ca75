//! `why PROGRAM LOG REFUTATION`: the rules that no run meets together, if a refutation proves that
//! no schedule leads to a log's failure or deadlock.
#![tactic(auto)]

ghost use Rattle.std.specs.Prelude.{IfSome};
ghost use Rattle.command_frame.specs.Run.{Runs};
ghost use Rattle.why_command.specs.Answers.{WhyAnswers};
ghost use Rattle.why_command.specs.Meanings.{names_of, why_of};

mod command;
mod explain;
mod plain;

pub use command::Why;
use command_frame::run;
use std::alloc::Global;
use tc_io::{Shelf, Sink};

/// Tells the rules that a refutation of a log of a program uses.
pub fn explain_refutation<H: Shelf, K: Sink>(
    alloc: Global,
    why: &Why<'_>,
    shelf: &mut H,
    sink: &mut K,
) -> u8
    ensures runs { Runs (why_of (names_of why.now)) (H.tells shelf.old) (H.tells shelf.new) result (K.tells sink.old) (K.tells sink.new) }
    ensures answers { IfSome (H.tells shelf.old).held (λ files. WhyAnswers (names_of why.now) files
        (record { status = result; held = (H.tells shelf.new).held; before = K.tells sink.old; after = K.tells sink.new })) }
{
    run(alloc, why, shelf, sink)
}
