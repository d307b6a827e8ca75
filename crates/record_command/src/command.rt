//! The command.
ghost use Rattle.record_command.specs.Meanings.{record_of};
ghost use Rattle.record_command.specs.Runs.{plain_record};

use crate::ending::Ran;
use crate::running::run_program;
use command_frame::{Command, Keep, Status, Work};
use command_inputs::{Fault, ProgramFile, Refusal};
use memory_models::Model;
use std::alloc::{AllocError, Global};

/// Runs a program, and keeps the log of a failure or deadlock.
#[derive(Clone, Copy)]
pub struct Record<'a> {
    pub program: ProgramFile<'a>,
    /// The name under which the log is kept.
    pub log: &'a str,
    pub model: Model,
    /// The seed of the generator that chooses the moves.
    pub seed: u64,
    /// The most moves of the run.
    pub steps: u32,
}

impl<'a> Command for Record<'a> {
    type Outcome = Result<Ran, Refusal>;

    ghost meaning = { λ call. record_of (plain_record call) };

    fn keeps<'n, 'b>(
        &'n self,
        alloc: Global,
        outcome: &'b Result<Ran, Refusal>,
    ) -> Result<Vec<Keep<'n, 'b>>, AllocError> {
        let mut keeps = Vec::new(alloc);
        if let Ok(Ran::Logged(_, text)) = outcome {
            keeps.push(Keep::new(self.log, text))?;
        }
        Ok(keeps)
    }

    fn text(&self, alloc: Global, outcome: &Result<Ran, Refusal>) -> Result<Vec<u8>, AllocError> {
        match outcome {
            Ok(ran) => Ok(ran.line(alloc)?.into_bytes()),
            Err(refusal) => refusal.line(alloc),
        }
    }

    fn status(&self, outcome: &Result<Ran, Refusal>) -> Status {
        match outcome {
            Ok(ran) => ran.status(),
            Err(refusal) => refusal.status(),
        }
    }
}

impl<'a> Work for Record<'a> {
    type Inputs = ProgramFile<'a>;

    fn inputs(&self) -> &ProgramFile<'a> {
        &self.program
    }

    fn work(&self, alloc: Global, program: &Vec<u8>) -> Result<Result<Ran, Refusal>, AllocError> {
        match run_program(alloc, self, program) {
            Ok(ran) => Ok(Ok(ran)),
            Err(Fault::Refused(refusal)) => Ok(Err(refusal)),
            Err(Fault::Memory) => Err(AllocError),
        }
    }
}
