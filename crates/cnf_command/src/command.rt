//! The command.
ghost use Rattle.std.specs.Prelude.{◌≡◌, IfOk, string_bytes};
ghost use Rattle.cnf_command.specs.Calls.{plain_cnf};
ghost use Rattle.cnf_command.specs.Lines.{clauses_line};
ghost use Rattle.cnf_command.specs.Meanings.{cnf_of};
ghost use Rattle.cnf_command.specs.helpers.Lines.{count_line};

use crate::export::{Exported, export};
use cnf_core::Cnf as Clauses;
use command_frame::{Command, Keep, Status, Work};
use command_inputs::{Fault, LogFile, ProgramFile, Refusal};
use memory_models::Model;
use std::alloc::{AllocError, Global};

/// Exports the clauses of a log of a program.
#[derive(Clone, Copy)]
pub struct Cnf<'a> {
    pub inputs: (ProgramFile<'a>, LogFile<'a>),
    /// The name of the clauses.
    pub out: &'a str,
    /// The memory model that is asked for; without one, the log's is meant.
    pub model: Option<Model>,
}

impl<'a> Command for Cnf<'a> {
    type Outcome = Result<Exported, Refusal>;

    ghost meaning = { λ cnf. cnf_of (plain_cnf cnf) };

    fn keeps<'n, 'b>(
        &'n self,
        alloc: Global,
        outcome: &'b Result<Exported, Refusal>,
    ) -> Result<Vec<Keep<'n, 'b>>, AllocError> {
        let mut keeps = Vec::new(alloc);
        if let Ok(exported) = outcome {
            keeps.push(Keep::new(self.out, &exported.text))?;
        }
        Ok(keeps)
    }

    fn text(
        &self,
        alloc: Global,
        outcome: &Result<Exported, Refusal>,
    ) -> Result<Vec<u8>, AllocError> {
        match outcome {
            Ok(exported) => Ok(clauses_line(alloc, &exported.clauses)?.into_bytes()),
            Err(refusal) => refusal.line(alloc),
        }
    }

    fn status(&self, outcome: &Result<Exported, Refusal>) -> Status {
        match outcome {
            Ok(_) => Status::Done,
            Err(refusal) => refusal.status(),
        }
    }
}

impl<'a> Work for Cnf<'a> {
    type Inputs = (ProgramFile<'a>, LogFile<'a>);

    fn inputs(&self) -> &(ProgramFile<'a>, LogFile<'a>) {
        &self.inputs
    }

    fn work(
        &self,
        alloc: Global,
        bytes: &(Vec<u8>, Vec<u8>),
    ) -> Result<Result<Exported, Refusal>, AllocError> {
        match export(alloc, &bytes.0, &bytes.1, self.model) {
            Ok(exported) => Ok(Ok(exported)),
            Err(Fault::Refused(refusal)) => Ok(Err(refusal)),
            Err(Fault::Memory) => Err(AllocError),
        }
    }
}

/// The line with the number of variables and clauses.
fn clauses_line(alloc: Global, clauses: &Clauses) -> Result<String, AllocError>
    ensures { IfOk result (λ text. string_bytes text ≡ clauses_line clauses.now) }
{
    count_line(alloc, clauses.vars(), clauses.len())
}

fn count_line(alloc: Global, variables: u32, clauses: usize) -> Result<String, AllocError>
    ensures { IfOk result (λ text. string_bytes text ≡ count_line variables clauses) }
{
    format!(in alloc; "cnf {variables} variables, {clauses} clauses\n")
}
