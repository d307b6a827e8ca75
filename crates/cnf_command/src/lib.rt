//! `cnf PROGRAM LOG OUT`: the clauses of a log, as text for other solvers.
#![tactic(auto)]

ghost use Rattle.std.specs.Prelude.{IfSome};
ghost use Rattle.command_frame.specs.Run.{Runs};
ghost use Rattle.cnf_command.specs.Answers.{CnfAnswers};
ghost use Rattle.cnf_command.specs.Calls.{plain_cnf};
ghost use Rattle.cnf_command.specs.Meanings.{cnf_of};

mod command;
mod export;

pub use command::Cnf;
use command_frame::run;
pub use export::Exported;
use std::alloc::Global;
use tc_io::{Shelf, Sink};

/// Exports the clauses of a log.
pub fn export_clauses<H: Shelf, K: Sink>(
    alloc: Global,
    cnf: &Cnf<'_>,
    shelf: &mut H,
    sink: &mut K,
) -> u8
    ensures runs { Runs (cnf_of (plain_cnf cnf.now)) (H.tells shelf.old) (H.tells shelf.new) result (K.tells sink.old) (K.tells sink.new) }
    ensures answers { IfSome (H.tells shelf.old).held (λ files. CnfAnswers (plain_cnf cnf.now) files
        (record { status = result; held = (H.tells shelf.new).held; before = K.tells sink.old; after = K.tells sink.new })) }
{
    run(alloc, cnf, shelf, sink)
}
