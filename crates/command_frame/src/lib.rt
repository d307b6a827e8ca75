//! One frame for all commands.
//!
//! A command reads inputs from a shelf in a fixed order, works out an outcome from their bytes (a
//! result or a refusal), keeps outputs, puts one text, and ends with a status. A [`Command`] says
//! what it keeps and says, and [`Work`] what it reads and works out; [`run`] does it, and its
//! theorem (`specs/Run.antt`) says of every command which answer comes when, and what the shelf
//! holds afterwards. A command of [`WorkInPieces`] reads its last input in pieces, and
//! [`run_in_pieces`] shows the same of it.
#![tactic(auto)]

ghost use Rattle.std.specs.Prelude.{◌≡◌, IfErr, IfSome, OnOk};
ghost use Rattle.command_frame.specs.Answers.{Says};
ghost use Rattle.command_frame.specs.Causes.{IsCause};
ghost use Rattle.command_frame.specs.Inputs.{texts_under};
ghost use Rattle.command_frame.specs.Keeps.{KeptAll};
ghost use Rattle.command_frame.specs.Run.{Runs, RunsOver};
ghost use Rattle.command_frame.specs.helpers.Failures.{IsWhyUnkept, answer_of};

mod command;
mod failure;
mod input;
mod keeping;
mod limit;
mod pieces;
mod say;
mod status;

pub use command::{Command, Work};
pub use failure::Failure;
pub use input::{Entire, Inputs, Whole, read_whole};
pub use keeping::Keep;
use keeping::keep_all;
pub use limit::Limit;
pub use pieces::WorkInPieces;
use pieces::carry_out_in_pieces;
pub use say::{say_no_memory, say_usage};
use say::{say_failure, say_outcome};
pub use status::Status;
use std::alloc::Global;
use tc_io::{Shelf, Sink};

/// Runs a command: reads its inputs from the shelf, keeps what comes of them there, puts the text
/// of the answer into the sink, and returns the number of its status.
pub fn run<C: Work, H: Shelf, K: Sink>(
    alloc: Global,
    command: &C,
    shelf: &mut H,
    sink: &mut K,
) -> u8
    ensures runs { Runs (C.meaning command.now) (H.tells shelf.old) (H.tells shelf.new) result (K.tells sink.old) (K.tells sink.new) }
    ensures over { IfSome (H.tells shelf.old).held (λ files. RunsOver (C.meaning command.now)
        (texts_under files (C.meaning command.now).inputs) result (K.tells sink.old) (K.tells sink.new)) }
{
    let end = carry_out(alloc, command, shelf);
    say_answer(alloc, command, &end, sink)
}

/// Runs a command that reads its last input in pieces.
pub fn run_in_pieces<C: WorkInPieces, H: Shelf, K: Sink>(
    alloc: Global,
    command: &C,
    shelf: &mut H,
    sink: &mut K,
) -> u8
    ensures runs { Runs (C.meaning command.now) (H.tells shelf.old) (H.tells shelf.new) result (K.tells sink.old) (K.tells sink.new) }
    ensures over { IfSome (H.tells shelf.old).held (λ files. RunsOver (C.meaning command.now)
        (texts_under files (C.meaning command.now).inputs) result (K.tells sink.old) (K.tells sink.new)) }
{
    let end = carry_out_in_pieces(alloc, command, shelf);
    say_answer(alloc, command, &end, sink)
}

/// Says the outcome of a command, or the failure in its place, and returns the number of its status.
fn say_answer<C: Command, K: Sink>(
    alloc: Global,
    command: &C,
    end: &Result<C::Outcome, Failure<'_>>,
    sink: &mut K,
) -> u8
    ensures { Says (C.meaning command.now) (answer_of end.now) result (K.tells sink.old) (K.tells sink.new) }
{
    match end {
        Ok(outcome) => say_outcome(alloc, command, outcome, sink),
        Err(failure) => say_failure(alloc, failure, sink),
    }
}

/// The outcome of a command, of which everything is kept, or why it has none or not all is kept.
fn carry_out<'a, C: Work, H: Shelf>(
    alloc: Global,
    command: &'a C,
    shelf: &mut H,
) -> Result<C::Outcome, Failure<'a>>
    ensures { IsCause (C.meaning command.now) (H.tells shelf.old) (H.tells shelf.new) (answer_of result) }
{
    let bytes = command.inputs().read(alloc, shelf)?;
    let outcome = command.work(alloc, &bytes)?;
    keep_outcome(alloc, command, &outcome, shelf)?;
    Ok(outcome)
}

/// Makes the keeps of an outcome.
fn keep_outcome<'a, C: Command, H: Shelf>(
    alloc: Global,
    command: &'a C,
    outcome: &C::Outcome,
    shelf: &mut H,
) -> Result<(), Failure<'a>>
    ensures kept { OnOk result (KeptAll ((C.meaning command.now).keeps_of outcome.now) (H.tells shelf.old) (H.tells shelf.new)) }
    ensures unkept { IfErr result (IsWhyUnkept ((C.meaning command.now).keeps_of outcome.now) (H.tells shelf.old) (H.tells shelf.new)) }
{
    let keeps = command.keeps(alloc, outcome)?;
    keep_all(alloc, shelf, &keeps)
}
