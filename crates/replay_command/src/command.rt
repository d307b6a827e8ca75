//! The command.
ghost use Rattle.std.specs.Prelude.{◌≡◌, IfOk, string_bytes};
ghost use Rattle.replay_command.specs.Lines.{verdict_said};
ghost use Rattle.replay_command.specs.Meanings.{replay_of};

use crate::replay::replayed;
use command_frame::{Command, Keep, Status, Work};
use command_inputs::{Fault, LogFile, ProgramFile, Refusal, ScheduleFile};
use schedule_replay::Verdict;
use std::alloc::{AllocError, Global};

/// Replays a schedule of a log of a program.
#[derive(Clone, Copy)]
pub struct Replay<'a> {
    pub inputs: ((ProgramFile<'a>, LogFile<'a>), ScheduleFile<'a>),
}

impl<'a> Command for Replay<'a> {
    type Outcome = Result<Verdict, Refusal>;

    ghost meaning = { λ replay. replay_of replay.inputs.0.0.name.now replay.inputs.0.1.name.now replay.inputs.1.name.now };

    fn keeps<'n, 'b>(
        &'n self,
        alloc: Global,
        _outcome: &'b Result<Verdict, Refusal>,
    ) -> Result<Vec<Keep<'n, 'b>>, AllocError> {
        Ok(Vec::new(alloc))
    }

    fn text(
        &self,
        alloc: Global,
        outcome: &Result<Verdict, Refusal>,
    ) -> Result<Vec<u8>, AllocError> {
        match outcome {
            Ok(verdict) => Ok(verdict_line(alloc, verdict)?.into_bytes()),
            Err(refusal) => refusal.line(alloc),
        }
    }

    fn status(&self, outcome: &Result<Verdict, Refusal>) -> Status {
        match outcome {
            Ok(verdict) => verdict_status(verdict),
            Err(refusal) => refusal.status(),
        }
    }
}

impl<'a> Work for Replay<'a> {
    type Inputs = ((ProgramFile<'a>, LogFile<'a>), ScheduleFile<'a>);

    fn inputs(&self) -> &((ProgramFile<'a>, LogFile<'a>), ScheduleFile<'a>) {
        &self.inputs
    }

    fn work(
        &self,
        alloc: Global,
        bytes: &((Vec<u8>, Vec<u8>), Vec<u8>),
    ) -> Result<Result<Verdict, Refusal>, AllocError> {
        let (both, schedule) = (&bytes.0, &bytes.1);
        match replayed(alloc, &both.0, &both.1, schedule) {
            Ok(verdict) => Ok(Ok(verdict)),
            Err(Fault::Refused(refusal)) => Ok(Err(refusal)),
            Err(Fault::Memory) => Err(AllocError),
        }
    }
}

/// The line that says a verdict.
fn verdict_line(alloc: Global, verdict: &Verdict) -> Result<String, AllocError>
    ensures { IfOk result (λ text. string_bytes text ≡ (verdict_said verdict.now).1) }
{
    match verdict {
        Verdict::Reproduces => String::from_str(alloc, "reproduces\n"),
        Verdict::Stops(number, why) => format!(in alloc; "stops at move {number}: {why}\n"),
        Verdict::NoFailure => String::from_str(alloc, "no failure\n"),
        Verdict::NotStuck => String::from_str(alloc, "not stuck\n"),
        Verdict::OtherFailure(name) => format!(in alloc; "other failure {name}\n"),
        Verdict::OtherPath(name) => format!(in alloc; "other path {name}\n"),
    }
}

/// The status of a verdict.
fn verdict_status(verdict: &Verdict) -> Status
    ensures { result ≡ (verdict_said verdict.now).0 }
{
    match verdict {
        Verdict::Reproduces => Status::Done,
        _ => Status::Fails,
    }
}
