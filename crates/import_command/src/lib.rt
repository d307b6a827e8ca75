//! `import PROGRAM LOG ANSWER OUT`: a schedule from another solver's answer to the clauses of a log.
#![tactic(auto)]

ghost use Rattle.std.specs.Prelude.{IfSome};
ghost use Rattle.command_frame.specs.Run.{Runs};
ghost use Rattle.import_command.specs.Answers.{ImportAnswers};
ghost use Rattle.import_command.specs.Calls.{plain_import};
ghost use Rattle.import_command.specs.Meanings.{import_of};

mod answer;
mod command;
mod imported;

pub use answer::AnswerFile;
pub use command::Import;
use command_frame::run;
pub use imported::Imported;
use std::alloc::Global;
use tc_io::{Shelf, Sink};

/// Imports another solver's answer.
pub fn import_answer<H: Shelf, K: Sink>(
    alloc: Global,
    import: &Import<'_>,
    shelf: &mut H,
    sink: &mut K,
) -> u8
    ensures runs { Runs (import_of (plain_import import.now)) (H.tells shelf.old) (H.tells shelf.new) result (K.tells sink.old) (K.tells sink.new) }
    ensures answers { IfSome (H.tells shelf.old).held (λ files. ImportAnswers (plain_import import.now) files
        (record { status = result; held = (H.tells shelf.new).held; before = K.tells sink.old; after = K.tells sink.new })) }
{
    run(alloc, import, shelf, sink)
}
