//! The verdict on a refutation.
ghost use Rattle.std.specs.Prelude.{◌≡◌, IfOk, string_bytes};
ghost use Rattle.refutation_verdicts.specs.Verdicts.{closed_line, line_of, open_line, refused_line, verdict_status};

use command_frame::Status;
use refute_check::CheckFault;
use std::alloc::{AllocError, Global};

/// The verdict on a refutation.
#[derive(Drop)]
pub enum Verdict<A> {
    /// All lines pass and leave no possibility open; this is what they show.
    Closed(A),
    /// All lines pass, but they prove nothing yet.
    Open,
    /// The line of this number is the first that doesn't pass.
    LineRefused(u32),
}

impl<A> Verdict<A> {
    /// Its status.
    pub fn status(&self) -> Status
        ensures { result ≡ verdict_status self.now }
    {
        match self {
            Verdict::Closed(_) => Status::Done,
            Verdict::Open => Status::Open,
            Verdict::LineRefused(_) => Status::Fails,
        }
    }
}

/// The line of a fault, unless memory ran out.
pub fn line_of(fault: CheckFault) -> Option<u32>
    ensures { result ≡ line_of fault }
{
    match fault {
        CheckFault::NoVariable(line)
        | CheckFault::NoClause(line)
        | CheckFault::Hint(line)
        | CheckFault::NoConflict(line) => Some(line),
        CheckFault::Memory => None,
    }
}

/// The line for a closed refutation, by the number of switches that it names, if any.
pub fn closed_line(alloc: Global, most: Option<u8>) -> Result<String, AllocError>
    ensures { IfOk result (λ text. string_bytes text ≡ closed_line most) }
{
    match most {
        None => String::from_str(alloc, "accepted, impossible\n"),
        Some(most) => format!(in alloc; "accepted, more than {most} switches\n"),
    }
}

/// The line for an open refutation.
pub fn open_line(alloc: Global) -> Result<String, AllocError>
    ensures { IfOk result (λ text. string_bytes text ≡ open_line) }
{
    String::from_str(alloc, "accepted, open\n")
}

/// The line for a refutation whose line of this number doesn't pass.
pub fn refused_line(alloc: Global, line: u32) -> Result<String, AllocError>
    ensures { IfOk result (λ text. string_bytes text ≡ refused_line line) }
{
    format!(in alloc; "line {line} refused\n")
}
