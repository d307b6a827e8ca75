//! The command.
ghost use Rattle.std.specs.Prelude.{◌≡◌, IfOk, string_bytes};
ghost use Rattle.import_command.specs.Calls.{plain_import};
ghost use Rattle.import_command.specs.Lines.{imported_said};
ghost use Rattle.import_command.specs.Meanings.{import_of};

use crate::answer::AnswerFile;
use crate::imported::{Imported, import};
use command_frame::{Command, Keep, Status, Work};
use command_inputs::{Fault, LogFile, ProgramFile, Refusal};
use log_tasks::moves_line;
use memory_models::Model;
use std::alloc::{AllocError, Global};

/// Imports another solver's answer to the clauses of a log of a program.
#[derive(Clone, Copy)]
pub struct Import<'a> {
    pub inputs: ((ProgramFile<'a>, LogFile<'a>), AnswerFile<'a>),
    /// The name of the schedule.
    pub out: &'a str,
    /// The memory model that is asked for; without one, the log's is meant.
    pub model: Option<Model>,
}

impl<'a> Command for Import<'a> {
    type Outcome = Result<Imported, Refusal>;

    ghost meaning = { λ import. import_of (plain_import import) };

    fn keeps<'n, 'b>(
        &'n self,
        alloc: Global,
        outcome: &'b Result<Imported, Refusal>,
    ) -> Result<Vec<Keep<'n, 'b>>, AllocError> {
        let mut keeps = Vec::new(alloc);
        if let Ok(Imported::Found(_, text)) = outcome {
            keeps.push(Keep::new(self.out, text))?;
        }
        Ok(keeps)
    }

    fn text(
        &self,
        alloc: Global,
        outcome: &Result<Imported, Refusal>,
    ) -> Result<Vec<u8>, AllocError> {
        match outcome {
            Ok(imported) => Ok(imported_line(alloc, imported)?.into_bytes()),
            Err(refusal) => refusal.line(alloc),
        }
    }

    fn status(&self, outcome: &Result<Imported, Refusal>) -> Status {
        match outcome {
            Ok(imported) => imported_status(imported),
            Err(refusal) => refusal.status(),
        }
    }
}

impl<'a> Work for Import<'a> {
    type Inputs = ((ProgramFile<'a>, LogFile<'a>), AnswerFile<'a>);

    fn inputs(&self) -> &((ProgramFile<'a>, LogFile<'a>), AnswerFile<'a>) {
        &self.inputs
    }

    fn work(
        &self,
        alloc: Global,
        bytes: &((Vec<u8>, Vec<u8>), Vec<u8>),
    ) -> Result<Result<Imported, Refusal>, AllocError> {
        let (both, answer) = (&bytes.0, &bytes.1);
        match import(alloc, &both.0, &both.1, answer, self.model) {
            Ok(imported) => Ok(Ok(imported)),
            Err(Fault::Refused(refusal)) => Ok(Err(refusal)),
            Err(Fault::Memory) => Err(AllocError),
        }
    }
}

/// The line for what an answer gives.
fn imported_line(alloc: Global, imported: &Imported) -> Result<String, AllocError>
    ensures { IfOk result (λ text. string_bytes text ≡ (imported_said imported.now).1) }
{
    match imported {
        Imported::Found(schedule, _) => moves_line(alloc, schedule),
        Imported::False(number) => format!(in alloc; "clause {number} false\n"),
    }
}

/// Its status.
fn imported_status(imported: &Imported) -> Status
    ensures { result ≡ (imported_said imported.now).0 }
{
    match imported {
        Imported::Found(_, _) => Status::Done,
        Imported::False(_) => Status::Fails,
    }
}
