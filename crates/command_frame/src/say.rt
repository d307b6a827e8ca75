//! Puts the texts of answers into the sink.
ghost use Rattle.std.specs.Prelude.{◌≡◌, IfOk, string_bytes};
ghost use Rattle.command_frame.specs.Answers.{Gives, Says, SaysLine, SaysNoMemory, limit_line};
ghost use Rattle.command_frame.specs.helpers.Failures.{SaysFailure, SaysNoMoreOf, failure_line, failure_status, plain_limit};
ghost use Rattle.command_frame.specs.declared.status.Status.TheVariants as status;

use crate::command::Command;
use crate::failure::Failure;
use crate::limit::Limit;
use crate::status::Status;
use std::alloc::{AllocError, Global};
use tc_io::{PutFault, Sink};

/// Puts the text of an outcome, and returns the number of its status.
pub(crate) fn say_outcome<C: Command, K: Sink>(
    alloc: Global,
    command: &C,
    outcome: &C::Outcome,
    sink: &mut K,
) -> u8
    ensures { Says (C.meaning command.now) (Gives outcome.now) result (K.tells sink.old) (K.tells sink.new) }
{
    let Ok(text) = command.text(alloc, outcome) else {
        return say_no_memory(sink);
    };
    match sink.put(&text) {
        Ok(()) => command.status(outcome).number(),
        Err(PutFault::Failed) => Status::WriteFault.number(),
        Err(PutFault::Memory) => say_no_memory(sink),
    }
}

/// Puts the line of a failure, and returns the number of its status.
pub(crate) fn say_failure<K: Sink>(alloc: Global, failure: &Failure<'_>, sink: &mut K) -> u8
    ensures { SaysFailure failure.now result (K.tells sink.old) (K.tells sink.new) }
{
    let Ok(line) = line_of(alloc, failure) else {
        return say_no_more(failure, sink);
    };
    match sink.put(line.as_bytes()) {
        Ok(()) => status_of(failure).number(),
        Err(PutFault::Failed) => Status::WriteFault.number(),
        Err(PutFault::Memory) => say_no_more(failure, sink),
    }
}

/// Puts the usage, and returns the number of its status.
pub fn say_usage<K: Sink>(usage: &str, sink: &mut K) -> u8
    ensures { SaysLine usage.now status.Usage result (K.tells sink.old) (K.tells sink.new) }
{
    match sink.put(usage.as_bytes()) {
        Ok(()) => Status::Usage.number(),
        Err(PutFault::Failed) => Status::WriteFault.number(),
        Err(PutFault::Memory) => say_no_memory(sink),
    }
}

/// Puts the line for lack of memory, and returns the number of that status.
pub fn say_no_memory<K: Sink>(sink: &mut K) -> u8
    ensures { SaysNoMemory result (K.tells sink.old) (K.tells sink.new) }
{
    match sink.put(b"no memory\n") {
        Ok(()) | Err(PutFault::Memory) => Status::NoMemory.number(),
        Err(PutFault::Failed) => Status::WriteFault.number(),
    }
}

/// Puts the line for lack of memory, or nothing after a failed keep.
fn say_no_more<K: Sink>(failure: &Failure<'_>, sink: &mut K) -> u8
    ensures { SaysNoMoreOf failure.now result (K.tells sink.old) (K.tells sink.new) }
{
    match failure {
        Failure::Write(_) => Status::WriteFault.number(),
        _ => say_no_memory(sink),
    }
}

/// The line for a failure.
fn line_of(alloc: Global, failure: &Failure<'_>) -> Result<String, AllocError>
    ensures { IfOk result (λ line. string_bytes line ≡ failure_line failure.now) }
{
    match failure {
        Failure::Read(name) => format!(in alloc; "read fault: {name}\n"),
        Failure::TooLong(limit) => limit_line(alloc, *limit),
        Failure::Write(name) => format!(in alloc; "write fault: {name}\n"),
        Failure::Memory => String::from_str(alloc, "no memory\n"),
    }
}

/// The line for an input with more bytes than this limit.
fn limit_line(alloc: Global, limit: Limit) -> Result<String, AllocError>
    ensures { IfOk result (λ line. string_bytes line ≡ limit_line (plain_limit limit)) }
{
    let (kind, most) = (limit.kind, limit.most);
    let past = most + 1;
    format!(in alloc; "limit {kind}-bytes {past} of {most}\n")
}

/// The status of a failure.
fn status_of(failure: &Failure<'_>) -> Status
    ensures { result ≡ failure_status failure.now }
{
    match failure {
        Failure::Read(_) => Status::ReadFault,
        Failure::TooLong(_) => Status::OverLimit,
        Failure::Write(_) => Status::WriteFault,
        Failure::Memory => Status::NoMemory,
    }
}
