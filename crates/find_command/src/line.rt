//! The line and the status of each finding.
ghost use Rattle.std.specs.Prelude.{◌≡◌, IfOk, string_bytes};
ghost use Rattle.find_command.specs.Lines.{finding_status, findings_line, found_line, kind_text, many_line, never_line, spent_line};

use crate::finding::{Finding, Findings};
use command_frame::Status;
use find_failures::{Asked, Reach};
use log_walk::Kind;
use std::alloc::{AllocError, Global};

impl Findings {
    /// The line that says what was found.
    pub(crate) fn line(&self, alloc: Global, asked: Asked) -> Result<String, AllocError>
        ensures { IfOk result (λ text. string_bytes text ≡ findings_line asked self.now) }
    {
        match &self.finding {
            Finding::Possible(_) => found_line(alloc, self.impossible),
            Finding::Never(reach, _) => never_line(alloc, asked.outcomes, *reach, self.impossible),
            Finding::Spent(_) => spent_line(alloc, asked.budget, self.impossible),
            Finding::TooMany => many_line(alloc, asked),
            Finding::Over(part, number) => part.over_line(alloc, *number),
        }
    }
}

impl Finding {
    /// Its status.
    pub(crate) fn status(&self) -> Status
        ensures { result ≡ finding_status self.now }
    {
        match self {
            Finding::Possible(_) => Status::Done,
            Finding::Never(_, _) => Status::Fails,
            Finding::Spent(_) | Finding::TooMany => Status::Open,
            Finding::Over(_, _) => Status::OverLimit,
        }
    }
}

fn found_line(alloc: Global, logs: usize) -> Result<String, AllocError>
    ensures { IfOk result (λ text. string_bytes text ≡ found_line logs) }
{
    format!(in alloc; "found after {logs} logs\n")
}

fn never_line(alloc: Global, outcomes: u16, reach: Reach, logs: usize) -> Result<String, AllocError>
    ensures { IfOk result (λ text. string_bytes text ≡ never_line outcomes reach logs) }
{
    match reach {
        Reach::Every => format!(in alloc; "none in {logs} logs\n"),
        Reach::Bounded => format!(in alloc; "none in {logs} logs, {outcomes} outcomes\n"),
    }
}

fn spent_line(alloc: Global, budget: u32, logs: usize) -> Result<String, AllocError>
    ensures { IfOk result (λ text. string_bytes text ≡ spent_line budget logs) }
{
    format!(in alloc; "spent after {logs} logs and {budget} conflicts\n")
}

fn many_line(alloc: Global, asked: Asked) -> Result<String, AllocError>
    ensures { IfOk result (λ text. string_bytes text ≡ many_line asked.kind asked.logs) }
{
    let (end, logs) = (kind_text(asked.kind), asked.logs);
    format!(in alloc; "no {end} in {logs} logs\n")
}

fn kind_text(kind: Kind) -> &'static str
    ensures { result.now ≡ kind_text kind }
{
    match kind {
        Kind::Failure => "failure",
        Kind::Deadlock => "deadlock",
    }
}
