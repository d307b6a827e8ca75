//! The line and the status of each verdict.
ghost use Rattle.std.specs.Prelude.{◌≡◌, IfOk, string_bytes};
ghost use Rattle.certificate_check.specs.Lines.{form_line, holds_line, left_line, verdict_line, verdict_status};

use certificate_input::Verdict;
use command_frame::Status;
use log_limits::{Part, part_left, part_of};
use none_certificates::Header;
use refutation_verdicts::{open_line, refused_line};
use std::alloc::{AllocError, Global};

/// The line that says a verdict.
pub(crate) fn verdict_line(alloc: Global, verdict: Verdict) -> Result<String, AllocError>
    ensures { IfOk result (λ text. string_bytes text ≡ verdict_line verdict) }
{
    match verdict {
        Verdict::Holds(header) => holds_line(alloc, header),
        Verdict::Open => open_line(alloc),
        Verdict::LineRefused(line) => refused_line(alloc, line),
        Verdict::Form(line) => form_line(alloc, line),
        Verdict::Limit(which, number, _) => part_of(which).over_line(alloc, number),
        Verdict::LeftOut(out) => left_line(alloc, part_left(out)),
    }
}

/// The status of a verdict.
pub(crate) fn verdict_status(verdict: &Verdict) -> Status
    ensures { result ≡ verdict_status verdict.now }
{
    match verdict {
        Verdict::Holds(_) => Status::Done,
        Verdict::Open => Status::Open,
        Verdict::LineRefused(_) => Status::Fails,
        Verdict::Form(_) => Status::InputRefused,
        Verdict::Limit(_, _, _) | Verdict::LeftOut(_) => Status::OverLimit,
    }
}

/// No run ends as the header says.
fn holds_line(alloc: Global, header: Header) -> Result<String, AllocError>
    ensures { IfOk result (λ text. string_bytes text ≡ holds_line header) }
{
    let outcomes = header.bounds.most;
    if header.whole {
        String::from_str(alloc, "accepted, none\n")
    } else {
        format!(in alloc; "accepted, none, {outcomes} outcomes\n")
    }
}

fn form_line(alloc: Global, line: u32) -> Result<String, AllocError>
    ensures { IfOk result (λ text. string_bytes text ≡ form_line line) }
{
    format!(in alloc; "certificate refused: line {line}\n")
}

/// Logs with more than the limit of these were left out.
fn left_line(alloc: Global, part: Part) -> Result<String, AllocError>
    ensures { IfOk result (λ text. string_bytes text ≡ left_line part) }
{
    part.over_line(alloc, part.limit() + 1)
}
