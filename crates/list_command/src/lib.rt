//! `list PROGRAM`: the listing of a program's code.
#![tactic(auto)]

ghost use Rattle.std.specs.Prelude.{IfSome};
ghost use Rattle.tc_io.specs.Outside.{bytes_at};
ghost use Rattle.command_frame.specs.Run.{Runs};
ghost use Rattle.list_command.specs.Answers.{ListAnswers};
ghost use Rattle.list_command.specs.Listing.{list_of};

mod command;

pub use command::List;
use command_frame::run;
use std::alloc::Global;
use tc_io::{Shelf, Sink};

/// Lists the code of a program.
pub fn list<H: Shelf, K: Sink>(alloc: Global, list: &List<'_>, shelf: &mut H, sink: &mut K) -> u8
    ensures runs { Runs (list_of list.now.program.name.now) (H.tells shelf.old) (H.tells shelf.new) result (K.tells sink.old) (K.tells sink.new) }
    ensures answers { IfSome (H.tells shelf.old).held (λ files. ListAnswers (bytes_at files list.now.program.name.now) result
        (K.tells sink.old) (K.tells sink.new)) }
{
    run(alloc, list, shelf, sink)
}
