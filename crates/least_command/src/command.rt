//! The command.
ghost use Rattle.std.specs.Prelude.{◌≡◌, IfOk, string_bytes};
ghost use Rattle.least_command.specs.Meanings.{least_of, least_said};
ghost use Rattle.least_command.specs.Calls.{plain_least};
ghost use Rattle.least_command.specs.helpers.Lines.{spent_at_line};

use crate::search::searched;
use crate::solution::Solution;
use command_frame::{Command, Keep, Status, Work};
use command_inputs::{Fault, LogFile, ProgramFile, Refusal};
use least_switch::Least as Minimum;
use log_tasks::{Budget, impossible_line, spent_line};
use memory_models::Model;
use std::alloc::{AllocError, Global};

/// Searches for a schedule of a log of a program with the fewest context switches.
#[derive(Clone, Copy)]
pub struct Least<'a> {
    pub inputs: (ProgramFile<'a>, LogFile<'a>),
    pub out: &'a str,
    /// Where the refutation of schedules with fewer switches is kept.
    pub refutation: &'a str,
    /// The memory model that is asked for; by default the log's.
    pub model: Option<Model>,
    pub budget: Budget,
}

impl<'a> Command for Least<'a> {
    type Outcome = Result<Solution, Refusal>;

    ghost meaning = { λ least. least_of (plain_least least) };

    fn keeps<'n, 'b>(
        &'n self,
        alloc: Global,
        outcome: &'b Result<Solution, Refusal>,
    ) -> Result<Vec<Keep<'n, 'b>>, AllocError> {
        let mut keeps = Vec::new(alloc);
        if let Ok(solution) = outcome {
            keeps.push(Keep::new(self.out, &solution.out))?;
            if let Some(text) = &solution.refutation {
                keeps.push(Keep::new(self.refutation, text))?;
            }
        }
        Ok(keeps)
    }

    fn text(
        &self,
        alloc: Global,
        outcome: &Result<Solution, Refusal>,
    ) -> Result<Vec<u8>, AllocError> {
        match outcome {
            Ok(solution) => {
                let line = least_line(alloc, self.budget, &solution.least)?;
                Ok(line.into_bytes())
            }
            Err(refusal) => refusal.line(alloc),
        }
    }

    fn status(&self, outcome: &Result<Solution, Refusal>) -> Status {
        match outcome {
            Ok(solution) => match &solution.least {
                Minimum::Found(_, _, _) => Status::Done,
                Minimum::Impossible(_) => Status::Fails,
                Minimum::Spent(_) | Minimum::SpentAt(_, _, _) => Status::Open,
            },
            Err(refusal) => refusal.status(),
        }
    }
}

impl<'a> Work for Least<'a> {
    type Inputs = (ProgramFile<'a>, LogFile<'a>);

    fn inputs(&self) -> &(ProgramFile<'a>, LogFile<'a>) {
        &self.inputs
    }

    fn work(
        &self,
        alloc: Global,
        bytes: &(Vec<u8>, Vec<u8>),
    ) -> Result<Result<Solution, Refusal>, AllocError> {
        match searched(alloc, self, &bytes.0, &bytes.1) {
            Ok(solution) => Ok(Ok(solution)),
            Err(Fault::Refused(refusal)) => Ok(Err(refusal)),
            Err(Fault::Memory) => Err(AllocError),
        }
    }
}

/// The line for what searches with this budget found.
fn least_line(alloc: Global, budget: Budget, least: &Minimum) -> Result<String, AllocError>
    ensures { IfOk result (λ text. string_bytes text ≡ (least_said budget.conflicts least.now).1) }
{
    match least {
        Minimum::Found(schedule, count, _) => {
            let moves = schedule.moves.len();
            format!(in alloc; "schedule {moves} moves, {count} switches\n")
        }
        Minimum::Impossible(derivation) => impossible_line(alloc, derivation),
        Minimum::Spent(_) => spent_line(alloc, budget.conflicts),
        Minimum::SpentAt(_, count, _) => spent_at_line(alloc, budget.conflicts, *count),
    }
}

/// The line for a search for fewer switches that was given up after this many conflicts.
fn spent_at_line(alloc: Global, conflicts: u32, count: u32) -> Result<String, AllocError>
    ensures { IfOk result (λ text. string_bytes text ≡ spent_at_line conflicts count) }
{
    format!(in alloc; "spent after {conflicts} conflicts, {count} switches\n")
}
