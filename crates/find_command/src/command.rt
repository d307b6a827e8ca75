//! The command.
ghost use Rattle.find_command.specs.Calls.{plain_search};
ghost use Rattle.find_command.specs.Meanings.{search_of};

use crate::finding::{Finding, Findings};
use crate::search::Search;
use crate::searching::search;
use command_frame::{Command, Keep, Status, Work};
use command_inputs::{Fault, ProgramFile, Refusal};
use std::alloc::{AllocError, Global};

impl<'a> Command for Search<'a> {
    type Outcome = Result<Findings, Refusal>;

    ghost meaning = { λ call. search_of (plain_search call) };

    fn keeps<'n, 'b>(
        &'n self,
        alloc: Global,
        outcome: &'b Result<Findings, Refusal>,
    ) -> Result<Vec<Keep<'n, 'b>>, AllocError> {
        let mut keeps = Vec::new(alloc);
        if let Ok(
            Findings {
                finding: Finding::Possible(text) | Finding::Never(_, text) | Finding::Spent(text),
                ..
            },
        ) = outcome
        {
            keeps.push(Keep::new(self.out, text))?;
        }
        Ok(keeps)
    }

    fn text(
        &self,
        alloc: Global,
        outcome: &Result<Findings, Refusal>,
    ) -> Result<Vec<u8>, AllocError> {
        match outcome {
            Ok(findings) => Ok(findings.line(alloc, self.asked)?.into_bytes()),
            Err(refusal) => refusal.line(alloc),
        }
    }

    fn status(&self, outcome: &Result<Findings, Refusal>) -> Status {
        match outcome {
            Ok(findings) => findings.finding.status(),
            Err(refusal) => refusal.status(),
        }
    }
}

impl<'a> Work for Search<'a> {
    type Inputs = ProgramFile<'a>;

    fn inputs(&self) -> &ProgramFile<'a> {
        &self.program
    }

    fn work(
        &self,
        alloc: Global,
        program: &Vec<u8>,
    ) -> Result<Result<Findings, Refusal>, AllocError> {
        match search(alloc, self, program) {
            Ok(findings) => Ok(Ok(findings)),
            Err(Fault::Refused(refusal)) => Ok(Err(refusal)),
            Err(Fault::Memory) => Err(AllocError),
        }
    }
}
