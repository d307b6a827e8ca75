//! A refutation while it is read: only the unfinished line and the clauses still in use are kept.
ghost use Rattle.std.specs.Prelude.{◌≡◌, ◌<◌, ◌≤◌, ◌++◌, ℕ, List, [], length, take, IfOk, OnOk};
ghost use Rattle.command_inputs.specs.path_log.Texts.{IsLog, IsOfOther};
ghost use Rattle.refute_check.specs.Refutations.{verdict};
ghost use Rattle.command_inputs.specs.tc_compile.Programs.{IsCodeOf};
ghost use Rattle.refutation_input.specs.Checked.{IsChecked};
ghost use Rattle.refutation_verdicts.specs.Verdicts.{IsVerdict};
ghost use Rattle.refutation_input.specs.helpers.Incoming.{HasRoom, IsBegun, IsEndOf, IsFirst, IsRead, begins, stage_after};

use crate::start::start_by;
use command_inputs::{Fault, Refusal, refuse_other};
use log_tasks::refuse_built;
use refutation_verdicts::{Verdict, line_of};
use refute_check::{CheckFault, Checked, Checker, Head, Line, RefutationText, Taken};
use run_log::Log;
use std::alloc::{AllocError, Global};
use tc_code::Code;

/// What becomes of the lines of a refutation.
#[derive(Drop)]
enum Stage {
    /// The header isn't complete.
    Begins,
    /// The lines aren't checked, since the log is refused.
    Refuses(Refusal),
    /// The lines are checked over the log's clauses, with the header's bound on switches, if any.
    Checks(Option<u8>, Checker),
}

/// A refutation of a log while it is read.
#[derive(Drop)]
pub struct Incoming {
    code: Code,
    log: Log,
    text: RefutationText,
    stage: Stage,
}

impl Incoming {
    /// Before any byte of a refutation of this log.
    pub fn new(alloc: Global, program: &[u8], code: Code, log: Log) -> Incoming
        ensures { (bytes : List ℕ) → IsCodeOf program.now code → IsLog bytes log → IsRead program.now bytes result [] }
    {
        let stage = Stage::new(program, &log);
        Incoming {
            code,
            log,
            text: RefutationText::new(alloc),
            stage,
        }
    }

    /// Takes the next bytes.
    pub fn take(&mut self, alloc: Global, bytes: &[u8]) -> Result<(), AllocError>
        requires { (program log front : List ℕ) × IsRead program log self.old front }
        ensures { OnOk result ((program log front : List ℕ) → IsRead program log self.old front
            → IsRead program log self.new (front ++ bytes.now)) }
    {
        let mut from = 0;
        while from < bytes.len() {
            from += self.take_line(alloc, &bytes[from..])?;
        }
        Ok(())
    }

    /// Takes bytes up to the first line end and returns their number: all if the form is broken.
    fn take_line(&mut self, alloc: Global, bytes: &[u8]) -> Result<usize, AllocError>
        requires some { 0 < length bytes.now }
        requires read { (program log front : List ℕ) × IsRead program log self.old front }
        ensures count { IfOk result (λ n. (0 < n) × (n ≤ length bytes.now)) }
        ensures read { IfOk result (λ n. (program log front : List ℕ) → IsRead program log self.old front
            → IsRead program log self.new (front ++ take n bytes.now)) }
    {
        let (count, taken) = self.text.take(bytes)?;
        match taken {
            Taken::More => {}
            Taken::Header(head) => {
                if self.stage.begins() {
                    self.stage = begun(alloc, &self.code, &self.log, head)?;
                }
            }
            Taken::Line(line) => self.stage.take(&line)?,
            Taken::Form(_) => return Ok(bytes.len()),
        }
        Ok(count)
    }

    /// What comes of the whole refutation.
    pub fn outcome(self) -> Result<Result<Verdict<Option<u8>>, Refusal>, AllocError>
        ensures { IfOk result (λ outcome. (program log bytes : List ℕ) → IsRead program log self bytes
            → IsChecked program log bytes outcome) }
    {
        let Incoming {
            code: _,
            log: _,
            text,
            stage,
        } = self;
        match text.finish() {
            Ok(()) => stage.outcome(),
            Err(line) => Ok(Err(Refusal::Refutation(line))),
        }
    }
}

impl Stage {
    /// Before any byte of a refutation of this log.
    fn new(program: &[u8], log: &Log) -> Stage
        ensures { IsFirst program.now log.now result }
    {
        match refuse_other(program, log) {
            Ok(()) => Stage::Begins,
            Err(refusal) => Stage::Refuses(refusal),
        }
    }

    /// Whether the header isn't complete.
    fn begins(&self) -> bool
        ensures { result ≡ begins self.now }
    {
        matches!(self, Stage::Begins)
    }

    /// Takes another line.
    fn take(&mut self, line: &Line) -> Result<(), AllocError>
        requires { HasRoom self.old }
        ensures { OnOk result (self.new ≡ stage_after self.old line.now) }
    {
        let Stage::Checks(_, checker) = self else {
            return Ok(());
        };
        match checker.add(line) {
            Err(CheckFault::Memory) => Err(AllocError),
            Ok(()) | Err(_) => Ok(()),
        }
    }

    /// What comes of it if the text has its form.
    fn outcome(self) -> Result<Result<Verdict<Option<u8>>, Refusal>, AllocError>
        ensures { IfOk result (IsEndOf self) }
    {
        match self {
            // A text that ends with a whole line has a header.
            Stage::Begins => Ok(Err(Refusal::Refutation(1))),
            Stage::Refuses(refusal) => Ok(Err(refusal)),
            Stage::Checks(most, checker) => Ok(Ok(verdict_by(most, &checker)?)),
        }
    }
}

/// The stage after the header.
fn begun(alloc: Global, code: &Code, log: &Log, head: Head) -> Result<Stage, AllocError>
    ensures { IfOk result (λ stage. (program bytes : List ℕ) → IsCodeOf program code.now → IsLog bytes log.now
        → (IsOfOther program log.now → ⊥) → IsBegun program bytes head stage) }
{
    match start_by(alloc, code, log, head) {
        Ok(checker) => Ok(Stage::Checks(head.switches, checker)),
        Err(fault) => match refuse_built(fault) {
            Fault::Refused(refusal) => Ok(Stage::Refuses(refusal)),
            Fault::Memory => Err(AllocError),
        },
    }
}

/// The verdict of a checker, over clauses with a bound on switches if there is one.
fn verdict_by(most: Option<u8>, checker: &Checker) -> Result<Verdict<Option<u8>>, AllocError>
    ensures { IfOk result (IsVerdict (λ named. named ≡ most) (verdict checker.now)) }
{
    match checker.verdict() {
        Ok(Checked::Closed) => Ok(Verdict::Closed(most)),
        Ok(Checked::Open) => Ok(Verdict::Open),
        Err(fault) => match line_of(fault) {
            Some(line) => Ok(Verdict::LineRefused(line)),
            None => Err(AllocError),
        },
    }
}
