//! The command.
ghost use Rattle.std.specs.Prelude.{◌≡◌, IfOk, string_bytes};
ghost use Rattle.solve_command.specs.Meanings.{answer_said, solve_of};
ghost use Rattle.solve_command.specs.Calls.{plain_solve};

use crate::search::searched;
use crate::solution::Solution;
use clap_solve::Answer;
use command_frame::{Command, Keep, Status, Work};
use command_inputs::{Fault, LogFile, ProgramFile, Refusal};
use log_tasks::{Budget, impossible_line, moves_line, spent_line};
use memory_models::Model;
use schedule_file::Schedule;
use std::alloc::{AllocError, Global};

/// Searches for a schedule of a log of a program.
#[derive(Clone, Copy)]
pub struct Solve<'a> {
    pub inputs: (ProgramFile<'a>, LogFile<'a>),
    pub out: &'a str,
    /// The memory model that is asked for; by default the log's.
    pub model: Option<Model>,
    pub budget: Budget,
}

impl<'a> Command for Solve<'a> {
    type Outcome = Result<Solution, Refusal>;

    ghost meaning = { λ solve. solve_of (plain_solve solve) };

    fn keeps<'n, 'b>(
        &'n self,
        alloc: Global,
        outcome: &'b Result<Solution, Refusal>,
    ) -> Result<Vec<Keep<'n, 'b>>, AllocError> {
        let mut keeps = Vec::new(alloc);
        if let Ok(solution) = outcome {
            keeps.push(Keep::new(self.out, &solution.text))?;
        }
        Ok(keeps)
    }

    fn text(
        &self,
        alloc: Global,
        outcome: &Result<Solution, Refusal>,
    ) -> Result<Vec<u8>, AllocError> {
        match outcome {
            Ok(solution) => {
                let line = answer_line(alloc, self.budget, &solution.answer)?;
                Ok(line.into_bytes())
            }
            Err(refusal) => refusal.line(alloc),
        }
    }

    fn status(&self, outcome: &Result<Solution, Refusal>) -> Status {
        match outcome {
            Ok(solution) => match &solution.answer {
                Answer::Found(_) => Status::Done,
                Answer::Impossible(_) => Status::Fails,
                Answer::Spent(_) => Status::Open,
            },
            Err(refusal) => refusal.status(),
        }
    }
}

impl<'a> Work for Solve<'a> {
    type Inputs = (ProgramFile<'a>, LogFile<'a>);

    fn inputs(&self) -> &(ProgramFile<'a>, LogFile<'a>) {
        &self.inputs
    }

    fn work(
        &self,
        alloc: Global,
        bytes: &(Vec<u8>, Vec<u8>),
    ) -> Result<Result<Solution, Refusal>, AllocError> {
        match searched(alloc, self, &bytes.0, &bytes.1) {
            Ok(solution) => Ok(Ok(solution)),
            Err(Fault::Refused(refusal)) => Ok(Err(refusal)),
            Err(Fault::Memory) => Err(AllocError),
        }
    }
}

/// The line for what a search with this budget found.
fn answer_line(
    alloc: Global,
    budget: Budget,
    answer: &Answer<Schedule>,
) -> Result<String, AllocError>
    ensures { IfOk result (λ text. string_bytes text ≡ (answer_said budget.conflicts answer.now).1) }
{
    match answer {
        Answer::Found(schedule) => moves_line(alloc, schedule),
        Answer::Impossible(derivation) => impossible_line(alloc, derivation),
        Answer::Spent(_) => spent_line(alloc, budget.conflicts),
    }
}
