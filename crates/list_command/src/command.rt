//! The command.
ghost use Rattle.list_command.specs.Listing.{list_of};

use command_frame::{Command, Keep, Status, Work};
use command_inputs::{ProgramFile, Refusal};
use std::alloc::{AllocError, Global};
use tc_code::{Code, listing};
use tc_compile::{CompileFault, compile};

/// Lists the code of a program.
#[derive(Clone, Copy)]
pub struct List<'a> {
    pub program: ProgramFile<'a>,
}

impl<'a> Command for List<'a> {
    type Outcome = Result<Code, Refusal>;

    ghost meaning = { λ list. list_of list.program.name.now };

    fn keeps<'n, 'b>(
        &'n self,
        alloc: Global,
        _outcome: &'b Result<Code, Refusal>,
    ) -> Result<Vec<Keep<'n, 'b>>, AllocError> {
        Ok(Vec::new(alloc))
    }

    fn text(&self, alloc: Global, outcome: &Result<Code, Refusal>) -> Result<Vec<u8>, AllocError> {
        match outcome {
            Ok(code) => listing(alloc, code),
            Err(refusal) => refusal.line(alloc),
        }
    }

    fn status(&self, outcome: &Result<Code, Refusal>) -> Status {
        match outcome {
            Ok(_) => Status::Done,
            Err(refusal) => refusal.status(),
        }
    }
}

impl<'a> Work for List<'a> {
    type Inputs = ProgramFile<'a>;

    fn inputs(&self) -> &ProgramFile<'a> {
        &self.program
    }

    fn work(&self, alloc: Global, program: &Vec<u8>) -> Result<Result<Code, Refusal>, AllocError> {
        match compile(alloc, program) {
            Ok(code) => Ok(Ok(code)),
            Err(CompileFault::Refused(fault)) => Ok(Err(Refusal::Program(fault))),
            Err(CompileFault::Memory) => Err(AllocError),
        }
    }
}
