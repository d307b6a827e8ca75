//! `record PROGRAM LOG`: a run of a program by moves chosen with a seed, and the log of a failure or
//! deadlock.
#![tactic(auto)]

ghost use Rattle.std.specs.Prelude.{◌≡◌, true, ℕ, List, IfSome};
ghost use Rattle.memory_models.specs.declared.model.Model.{Model};
ghost use Rattle.store_buffers.specs.Buffers.{buffer_of};
ghost use Rattle.tc_base.specs.declared.moves.Move.{Move};
ghost use Rattle.tc_code.specs.Code.{Code};
ghost use Rattle.tc_code.specs.Run.{Reproduces};
ghost use Rattle.tc_compile.specs.Programs.{IsCodeOf};
ghost use Rattle.command_frame.specs.Run.{Runs};
ghost use Rattle.record_command.specs.Answers.{RecordAnswers};
ghost use Rattle.record_command.specs.Logs.{IsLogText, IsRecorded, allows};
ghost use Rattle.record_command.specs.Meanings.{record_of};
ghost use Rattle.record_command.specs.Runs.{HasOutcome, Record as PlainRecord, run_of};
ghost use Rattle.record_command.specs.declared.ending.Outcome.{Outcome};
ghost use Rattle.record_command.specs.Runs.{plain_record};

mod command;
mod ending;
mod line;
mod running;

pub use command::Record;
use command_frame::run;
pub use ending::{Ending, Failure, Outcome, Ran};
use std::alloc::Global;
use tc_io::{Shelf, Sink};

/// Runs a program, and keeps the log of a failure or deadlock.
pub fn record_run<H: Shelf, K: Sink>(
    alloc: Global,
    call: &Record<'_>,
    shelf: &mut H,
    sink: &mut K,
) -> u8
    ensures runs { Runs (record_of (plain_record call.now)) (H.tells shelf.old) (H.tells shelf.new) result (K.tells sink.old) (K.tells sink.new) }
    ensures answers { IfSome (H.tells shelf.old).held (λ files. RecordAnswers (plain_record call.now) files
        (record { status = result; held = (H.tells shelf.new).held; before = K.tells sink.old; after = K.tells sink.new })) }
{
    run(alloc, call, shelf, sink)
}

/// The log of a failed or deadlocked run, whose text `record` keeps, is reproduced by that run's
/// moves.
pub fn recorded_logs_are_reproduced()
    ensures { (call : PlainRecord) (program text : List ℕ) (code : Code) (o : Outcome) → IsCodeOf program code → HasOutcome code (run_of call code) o
        → IsLogText call.model program (run_of call code) text → IsRecorded call program o text }
{}

/// Some moves reproduce a log that `record` wrote, under its memory model and under each that
/// allows more, so `solve` never calls it impossible there.
pub fn recorded_logs_are_possible()
    ensures { (call : PlainRecord) (program text : List ℕ) (o : Outcome) (m : Model) → IsRecorded call program o text → allows call.model m ≡ true
        → (r : IsRecorded call program o text) × (moves : List Move) × Reproduces (buffer_of m) r.code r.logged.log moves }
{}
