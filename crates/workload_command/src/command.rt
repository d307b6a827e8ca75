//! The command.
ghost use Rattle.workload_command.specs.Meanings.{workload_of};
ghost use Rattle.workload_command.specs.Works.{plain_workload};

use crate::line::{work_line, work_status};
use crate::work::{Work as Worked, worked};
use crate::workers::Workers;
use command_frame::{Command, Keep, Status, Work};
use command_inputs::{Fault, Refusal};
use std::alloc::{AllocError, Global};

/// Generates a program, runs it, and searches its log.
#[derive(Clone, Copy)]
pub struct Workload {
    pub workers: Workers,
    /// The seed of the generator that chooses what workers read, and the moves of the run.
    pub seed: u64,
}

impl Command for Workload {
    type Outcome = Result<Worked, Refusal>;

    ghost meaning = { λ call. workload_of (plain_workload call) };

    fn keeps<'n, 'b>(
        &'n self,
        alloc: Global,
        _outcome: &'b Result<Worked, Refusal>,
    ) -> Result<Vec<Keep<'n, 'b>>, AllocError> {
        Ok(Vec::new(alloc))
    }

    fn text(
        &self,
        alloc: Global,
        outcome: &Result<Worked, Refusal>,
    ) -> Result<Vec<u8>, AllocError> {
        match outcome {
            Ok(work) => Ok(work_line(alloc, self, work)?.into_bytes()),
            Err(refusal) => refusal.line(alloc),
        }
    }

    fn status(&self, outcome: &Result<Worked, Refusal>) -> Status {
        match outcome {
            Ok(work) => work_status(work),
            Err(refusal) => refusal.status(),
        }
    }
}

impl Work for Workload {
    type Inputs = ();

    fn inputs(&self) -> &() {
        &()
    }

    fn work(&self, alloc: Global, _bytes: &()) -> Result<Result<Worked, Refusal>, AllocError> {
        match worked(alloc, self) {
            Ok(work) => Ok(Ok(work)),
            Err(Fault::Refused(refusal)) => Ok(Err(refusal)),
            Err(Fault::Memory) => Err(AllocError),
        }
    }
}
