//! The command.
ghost use Rattle.check_command.specs.Meanings.{check_of, names_of};

use command_frame::{Command, Keep, Status, WorkInPieces};
use command_inputs::{Fault, LogFile, ProgramFile, Refusal, read_both};
use refutation_input::Incoming;
use refutation_verdicts::{Verdict, closed_line, open_line, refused_line};
use std::alloc::{AllocError, Global};

/// Checks a refutation of a log of a program.
#[derive(Clone, Copy)]
pub struct Check<'a> {
    pub inputs: (ProgramFile<'a>, LogFile<'a>),
    /// The name of the refutation, which may have any length.
    pub refutation: &'a str,
}

impl<'a> Command for Check<'a> {
    type Outcome = Result<Verdict<Option<u8>>, Refusal>;

    ghost meaning = { λ check. check_of (names_of check) };

    fn keeps<'n, 'b>(
        &'n self,
        alloc: Global,
        _outcome: &'b Result<Verdict<Option<u8>>, Refusal>,
    ) -> Result<Vec<Keep<'n, 'b>>, AllocError> {
        Ok(Vec::new(alloc))
    }

    fn text(
        &self,
        alloc: Global,
        outcome: &Result<Verdict<Option<u8>>, Refusal>,
    ) -> Result<Vec<u8>, AllocError> {
        let line = match outcome {
            Ok(Verdict::Closed(most)) => closed_line(alloc, *most)?,
            Ok(Verdict::Open) => open_line(alloc)?,
            Ok(Verdict::LineRefused(line)) => refused_line(alloc, *line)?,
            Err(refusal) => return refusal.line(alloc),
        };
        Ok(line.into_bytes())
    }

    fn status(&self, outcome: &Result<Verdict<Option<u8>>, Refusal>) -> Status {
        match outcome {
            Ok(verdict) => verdict.status(),
            Err(refusal) => refusal.status(),
        }
    }
}

impl<'a> WorkInPieces for Check<'a> {
    ghost use Rattle.check_command.specs.helpers.Known.{Knows};

    type Inputs = (ProgramFile<'a>, LogFile<'a>);

    /// A refutation that is read, or why it needn't be.
    type State = Result<Incoming, Refusal>;

    ghost knows = { λ _. Knows };

    fn inputs(&self) -> (&(ProgramFile<'a>, LogFile<'a>), &str) {
        (&self.inputs, self.refutation)
    }

    fn begin(
        &self,
        alloc: Global,
        bytes: &(Vec<u8>, Vec<u8>),
    ) -> Result<Result<Incoming, Refusal>, AllocError> {
        let (program, log) = (&bytes.0, &bytes.1);
        match read_both(alloc, program, log) {
            Ok((code, log)) => Ok(Ok(Incoming::new(alloc, program, code, log))),
            Err(Fault::Refused(refusal)) => Ok(Err(refusal)),
            Err(Fault::Memory) => Err(AllocError),
        }
    }

    fn take(
        &self,
        alloc: Global,
        state: &mut Result<Incoming, Refusal>,
        piece: &[u8],
    ) -> Result<(), AllocError> {
        match state {
            Ok(incoming) => incoming.take(alloc, piece),
            Err(_) => Ok(()),
        }
    }

    fn finish(
        &self,
        _alloc: Global,
        state: Result<Incoming, Refusal>,
    ) -> Result<Result<Verdict<Option<u8>>, Refusal>, AllocError> {
        match state {
            Ok(incoming) => incoming.outcome(),
            Err(refusal) => Ok(Err(refusal)),
        }
    }
}
