//! `replay PROGRAM LOG SCHEDULE`: whether a schedule leads to a log's failure or deadlock.
#![tactic(auto)]

ghost use Rattle.std.specs.Prelude.{IfSome};
ghost use Rattle.tc_io.specs.Outside.{bytes_at};
ghost use Rattle.command_frame.specs.Run.{Runs};
ghost use Rattle.replay_command.specs.Answers.{ReplayAnswers};
ghost use Rattle.replay_command.specs.Meanings.{replay_of};

mod command;
mod replay;

pub use command::Replay;
use command_frame::run;
use std::alloc::Global;
use tc_io::{Shelf, Sink};

/// Replays the schedule of a log of a program.
pub fn replay_files<H: Shelf, K: Sink>(
    alloc: Global,
    replay: &Replay<'_>,
    shelf: &mut H,
    sink: &mut K,
) -> u8
    ensures runs { Runs (replay_of replay.now.inputs.0.0.name.now replay.now.inputs.0.1.name.now replay.now.inputs.1.name.now)
        (H.tells shelf.old) (H.tells shelf.new) result (K.tells sink.old) (K.tells sink.new) }
    ensures answers { IfSome (H.tells shelf.old).held (λ files. ReplayAnswers (bytes_at files replay.now.inputs.0.0.name.now)
        (bytes_at files replay.now.inputs.0.1.name.now) (bytes_at files replay.now.inputs.1.name.now) result (K.tells sink.old) (K.tells sink.new)) }
{
    run(alloc, replay, shelf, sink)
}
