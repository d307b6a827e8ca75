//! The command.
ghost use Rattle.why_command.specs.Meanings.{names_of, why_of};

use crate::explain::explained;
use command_frame::{Command, Entire, Keep, Status, Work};
use command_inputs::{Fault, LogFile, ProgramFile, Refusal};
use refutation_verdicts::{Verdict, open_line, refused_line};
use std::alloc::{AllocError, Global};
use why_impossible::Reasons;

/// Tells the rules that a refutation of a log of a program uses.
#[derive(Clone, Copy)]
pub struct Why<'a> {
    pub inputs: ((ProgramFile<'a>, LogFile<'a>), Entire<'a>),
}

impl<'a> Command for Why<'a> {
    type Outcome = Result<Verdict<Reasons>, Refusal>;

    ghost meaning = { λ why. why_of (names_of why) };

    fn keeps<'n, 'b>(
        &'n self,
        alloc: Global,
        _outcome: &'b Result<Verdict<Reasons>, Refusal>,
    ) -> Result<Vec<Keep<'n, 'b>>, AllocError> {
        Ok(Vec::new(alloc))
    }

    fn text(
        &self,
        alloc: Global,
        outcome: &Result<Verdict<Reasons>, Refusal>,
    ) -> Result<Vec<u8>, AllocError> {
        let line = match outcome {
            Ok(Verdict::Closed(reasons)) => reasons.text(alloc)?,
            Ok(Verdict::Open) => open_line(alloc)?,
            Ok(Verdict::LineRefused(line)) => refused_line(alloc, *line)?,
            Err(refusal) => return refusal.line(alloc),
        };
        Ok(line.into_bytes())
    }

    fn status(&self, outcome: &Result<Verdict<Reasons>, Refusal>) -> Status {
        match outcome {
            Ok(verdict) => verdict.status(),
            Err(refusal) => refusal.status(),
        }
    }
}

impl<'a> Work for Why<'a> {
    type Inputs = ((ProgramFile<'a>, LogFile<'a>), Entire<'a>);

    fn inputs(&self) -> &((ProgramFile<'a>, LogFile<'a>), Entire<'a>) {
        &self.inputs
    }

    fn work(
        &self,
        alloc: Global,
        bytes: &((Vec<u8>, Vec<u8>), Vec<u8>),
    ) -> Result<Result<Verdict<Reasons>, Refusal>, AllocError> {
        let (both, refutation) = (&bytes.0, &bytes.1);
        match explained(alloc, &both.0, &both.1, refutation) {
            Ok(verdict) => Ok(Ok(verdict)),
            Err(Fault::Refused(refusal)) => Ok(Err(refusal)),
            Err(Fault::Memory) => Err(AllocError),
        }
    }
}
