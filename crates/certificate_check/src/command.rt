//! The command.
ghost use Rattle.certificate_check.specs.Meanings.{plain_check, check_of};

use crate::line::{verdict_line, verdict_status};
use certificate_input::{Incoming, Verdict};
use command_frame::{Command, Keep, Status, WorkInPieces};
use command_inputs::{ProgramFile, Refusal};
use std::alloc::{AllocError, Global};
use tc_compile::{CompileFault, compile};

/// Checks a certificate for a program.
#[derive(Clone, Copy)]
pub struct CheckCertificate<'a> {
    pub program: ProgramFile<'a>,
    /// The name of the certificate, which may have any length.
    pub certificate: &'a str,
}

impl<'a> Command for CheckCertificate<'a> {
    type Outcome = Result<Verdict, Refusal>;

    ghost meaning = { λ check. check_of (plain_check check) };

    fn keeps<'n, 'b>(
        &'n self,
        alloc: Global,
        _outcome: &'b Result<Verdict, Refusal>,
    ) -> Result<Vec<Keep<'n, 'b>>, AllocError> {
        Ok(Vec::new(alloc))
    }

    fn text(
        &self,
        alloc: Global,
        outcome: &Result<Verdict, Refusal>,
    ) -> Result<Vec<u8>, AllocError> {
        match outcome {
            Ok(verdict) => Ok(verdict_line(alloc, *verdict)?.into_bytes()),
            Err(refusal) => refusal.line(alloc),
        }
    }

    fn status(&self, outcome: &Result<Verdict, Refusal>) -> Status {
        match outcome {
            Ok(verdict) => verdict_status(verdict),
            Err(refusal) => refusal.status(),
        }
    }
}

impl<'a> WorkInPieces for CheckCertificate<'a> {
    ghost use Rattle.certificate_check.specs.helpers.Known.{Knows};

    type Inputs = ProgramFile<'a>;

    /// A certificate that is read, or why it needn't be.
    type State = Result<Incoming, Refusal>;

    ghost knows = { λ _. Knows };

    fn inputs(&self) -> (&ProgramFile<'a>, &str) {
        (&self.program, self.certificate)
    }

    fn begin(
        &self,
        alloc: Global,
        program: &Vec<u8>,
    ) -> Result<Result<Incoming, Refusal>, AllocError> {
        match compile(alloc, program) {
            Ok(code) => Ok(Ok(Incoming::new(alloc, code))),
            Err(CompileFault::Refused(fault)) => Ok(Err(Refusal::Program(fault))),
            Err(CompileFault::Memory) => Err(AllocError),
        }
    }

    fn take(
        &self,
        alloc: Global,
        state: &mut Result<Incoming, Refusal>,
        piece: &[u8],
    ) -> Result<(), AllocError> {
        match state {
            Ok(incoming) => incoming.take(alloc, piece),
            Err(_) => Ok(()),
        }
    }

    fn finish(
        &self,
        alloc: Global,
        state: Result<Incoming, Refusal>,
    ) -> Result<Result<Verdict, Refusal>, AllocError> {
        match state {
            Ok(incoming) => Ok(Ok(incoming.outcome(alloc)?)),
            Err(refusal) => Ok(Err(refusal)),
        }
    }
}
