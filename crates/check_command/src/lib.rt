//! `check PROGRAM LOG REFUTATION`: whether a refutation proves that no schedule leads to a log's
//! failure or deadlock, or none with as few context switches as it names.
#![tactic(auto)]

ghost use Rattle.std.specs.Prelude.{IfSome};
ghost use Rattle.command_frame.specs.Run.{Runs};
ghost use Rattle.check_command.specs.Answers.{CheckAnswers};
ghost use Rattle.check_command.specs.Laws.{ClosedIsAccepted, OpenIsAccepted};
ghost use Rattle.check_command.specs.Meanings.{check_of, names_of};

mod command;

pub use command::Check;
use command_frame::run_in_pieces;
use std::alloc::Global;
use tc_io::{Shelf, Sink};

/// Checks a refutation of a log of a program.
pub fn check_refutation<H: Shelf, K: Sink>(
    alloc: Global,
    check: &Check<'_>,
    shelf: &mut H,
    sink: &mut K,
) -> u8
    ensures runs { Runs (check_of (names_of check.now)) (H.tells shelf.old) (H.tells shelf.new) result (K.tells sink.old) (K.tells sink.new) }
    ensures answers { IfSome (H.tells shelf.old).held (λ files. CheckAnswers (names_of check.now) files
        (record { status = result; held = (H.tells shelf.new).held; before = K.tells sink.old; after = K.tells sink.new })) }
{
    run_in_pieces(alloc, check, shelf, sink)
}

/// The text of any refutation is accepted whose lines are closed on the clauses of its header.
pub fn closed_is_accepted()
    ensures { ClosedIsAccepted }
{}

/// The text of any refutation is accepted as open whose lines are open on them.
pub fn open_is_accepted()
    ensures { OpenIsAccepted }
{}
