//! `solve PROGRAM LOG OUT`: a schedule that leads to a log's failure or deadlock, a refutation that
//! proves that there is none, or an open one.
#![tactic(auto)]

ghost use Rattle.std.specs.Prelude.{IfSome};
ghost use Rattle.command_frame.specs.Run.{Runs};
ghost use Rattle.solve_command.specs.Answers.{SolveAnswers};
ghost use Rattle.solve_command.specs.Meanings.{solve_of};
ghost use Rattle.solve_command.specs.Calls.{plain_solve};

mod command;
mod search;
mod solution;

pub use command::Solve;
use command_frame::run;
pub use solution::Solution;
use std::alloc::Global;
use tc_io::{Shelf, Sink};

/// Searches for a schedule.
pub fn solve_log<H: Shelf, K: Sink>(
    alloc: Global,
    solve: &Solve<'_>,
    shelf: &mut H,
    sink: &mut K,
) -> u8
    ensures runs { Runs (solve_of (plain_solve solve.now)) (H.tells shelf.old) (H.tells shelf.new) result (K.tells sink.old) (K.tells sink.new) }
    ensures answers { IfSome (H.tells shelf.old).held (λ files. SolveAnswers (plain_solve solve.now) files
        (record { status = result; held = (H.tells shelf.new).held; before = K.tells sink.old; after = K.tells sink.new })) }
{
    run(alloc, solve, shelf, sink)
}
