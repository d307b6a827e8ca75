//! The line and the status of each end of a run.
ghost use Rattle.std.specs.Prelude.{◌≡◌, IfOk, string_bytes};
ghost use Rattle.record_command.specs.Lines.{ending_said, outcome_line, over_line, ran_said, which_text};
ghost use Rattle.record_command.specs.declared.ending.Outcome.TheVariants.{Failed};

use crate::ending::{Ending, Failure, Outcome, Ran};
use command_frame::Status;
use std::alloc::{AllocError, Global};
use tc_record::Which;

impl Ran {
    /// The line that says it.
    pub(crate) fn line(&self, alloc: Global) -> Result<String, AllocError>
        ensures { IfOk result (λ text. string_bytes text ≡ (ran_said self.now).1) }
    {
        match self {
            Ran::Logged(outcome, _) => outcome_line(alloc, outcome),
            Ran::Unlogged(ending) => ending_line(alloc, *ending),
        }
    }

    /// Its status.
    pub(crate) fn status(&self) -> Status
        ensures { result ≡ (ran_said self.now).0 }
    {
        match self {
            Ran::Logged(_, _) => Status::Done,
            Ran::Unlogged(Ending::Finished) => Status::Fails,
            Ran::Unlogged(Ending::StepLimit(_)) => Status::Open,
            Ran::Unlogged(Ending::Over(_)) => Status::OverLimit,
        }
    }
}

fn outcome_line(alloc: Global, outcome: &Outcome) -> Result<String, AllocError>
    ensures { IfOk result (λ text. string_bytes text ≡ outcome_line outcome.now) }
{
    match outcome {
        Outcome::Failed(failure) => failure_line(alloc, failure),
        Outcome::Deadlock(moves) => format!(in alloc; "deadlock after {moves} moves\n"),
    }
}

fn failure_line(alloc: Global, failure: &Failure) -> Result<String, AllocError>
    ensures { IfOk result (λ text. string_bytes text ≡ outcome_line (Failed failure.now)) }
{
    let Failure { name, line, moves } = failure;
    format!(in alloc; "failed {name} line {line} after {moves} moves\n")
}

fn ending_line(alloc: Global, ending: Ending) -> Result<String, AllocError>
    ensures { IfOk result (λ text. string_bytes text ≡ (ending_said ending).1) }
{
    match ending {
        Ending::Finished => String::from_str(alloc, "finished\n"),
        Ending::StepLimit(moves) => format!(in alloc; "no failure in {moves} moves\n"),
        Ending::Over(which) => over_line(alloc, which),
    }
}

fn over_line(alloc: Global, which: Which) -> Result<String, AllocError>
    ensures { IfOk result (λ text. string_bytes text ≡ over_line which) }
{
    let (what, most) = (which_text(which), which.limit());
    let past = most + 1;
    format!(in alloc; "limit {what} {past} of {most}\n")
}

fn which_text(which: Which) -> &'static str
    ensures { result.now ≡ which_text which }
{
    match which {
        Which::Threads => "threads",
        Which::Depth => "depth",
        Which::Steps => "steps",
    }
}
