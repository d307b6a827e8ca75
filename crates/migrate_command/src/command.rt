//! The command.
ghost use Rattle.migrate_command.specs.Meanings.{migrate_of};
ghost use Rattle.migrate_command.specs.Meanings.{plain_migrate};

use crate::migrate::{Migration, migrated};
use command_frame::{Command, Keep, Status, Work};
use command_inputs::{Fault, LogFile, ProgramFile, Refusal};
use std::alloc::{AllocError, Global};

/// Keeps a log in format 2, with the digest of its program.
#[derive(Clone, Copy)]
pub struct Migrate<'a> {
    pub inputs: (ProgramFile<'a>, LogFile<'a>),
    /// The name under which the text is kept.
    pub out: &'a str,
}

impl<'a> Command for Migrate<'a> {
    type Outcome = Result<Migration, Refusal>;

    ghost meaning = { λ call. migrate_of (plain_migrate call) };

    fn keeps<'n, 'b>(
        &'n self,
        alloc: Global,
        outcome: &'b Result<Migration, Refusal>,
    ) -> Result<Vec<Keep<'n, 'b>>, AllocError> {
        let mut keeps = Vec::new(alloc);
        if let Ok(migration) = outcome {
            keeps.push(Keep::new(self.out, &migration.text))?;
        }
        Ok(keeps)
    }

    fn text(
        &self,
        alloc: Global,
        outcome: &Result<Migration, Refusal>,
    ) -> Result<Vec<u8>, AllocError> {
        match outcome {
            Ok(_) => Ok(String::from_str(alloc, "migrated\n")?.into_bytes()),
            Err(refusal) => refusal.line(alloc),
        }
    }

    fn status(&self, outcome: &Result<Migration, Refusal>) -> Status {
        match outcome {
            Ok(_) => Status::Done,
            Err(refusal) => refusal.status(),
        }
    }
}

impl<'a> Work for Migrate<'a> {
    type Inputs = (ProgramFile<'a>, LogFile<'a>);

    fn inputs(&self) -> &(ProgramFile<'a>, LogFile<'a>) {
        &self.inputs
    }

    fn work(
        &self,
        alloc: Global,
        bytes: &(Vec<u8>, Vec<u8>),
    ) -> Result<Result<Migration, Refusal>, AllocError> {
        match migrated(alloc, &bytes.0, &bytes.1) {
            Ok(migration) => Ok(Ok(migration)),
            Err(Fault::Refused(refusal)) => Ok(Err(refusal)),
            Err(Fault::Memory) => Err(AllocError),
        }
    }
}
