//! Schedules and logs.
use anyhow::{Result, bail};
use path_log::{LogFault, program_digest, read_log, write_log};
use run_log::Log;
use schedule_file::{Schedule, ScheduleFault, read_schedule, write_schedule};
use std::alloc::{AllocError, Global};
use std::mem::drop;
use tc_base::Move;
use test_table::answers::Answers;
use test_table::given::Given;

/// Adds a move as a schedule writes it.
pub(crate) fn push_move(text: &mut String, m: &Move) -> Result<(), AllocError> {
    match m {
        Move::Run(name) => write!(text, "r {name}"),
        Move::Wake(name, waiter) => write!(text, "w {name} {waiter}"),
        Move::Drain(name, None) => write!(text, "d {name}"),
        Move::Drain(name, Some(cell)) => write!(text, "d {name} {cell}"),
    }
}

/// The model and the moves of a text, after writing them as the text again; or its fault.
pub(crate) fn schedule(alloc: Global, text: &[u8]) -> Result<String> {
    let schedule = match read_schedule(alloc, text) {
        Ok(schedule) => schedule,
        Err(fault) => return Ok(format!(in alloc; "{fault}")?),
    };
    if write_schedule(alloc, &schedule)?.as_slice() != text {
        bail!("another text was written");
    }
    let text = schedule_text(alloc, &schedule);
    Ok(text?)
}

/// The model and the moves of a schedule.
fn schedule_text(alloc: Global, schedule: &Schedule) -> Result<String, AllocError> {
    let mut text = format!(in alloc; "{}", schedule.model)?;
    for m in &schedule.moves {
        text.push_str(", ")?;
        push_move(&mut text, m)?;
    }
    Ok(text)
}

/// The answers to each beginning of a text.
pub(crate) fn cut_schedule(alloc: Global, text: &[u8]) -> Result<String> {
    let mut answers = Answers::new(alloc);
    for len in 0..text.len() {
        answers.push(schedule(alloc, &text[..len])?)?;
    }
    Ok(answers.told(alloc)?)
}

/// The bytes that hex digits write; blanks between them are skipped.
pub(crate) fn hex_bytes(alloc: Global, hex: &str) -> Result<Vec<u8>> {
    let mut bytes = Vec::new(alloc);
    for word in hex.split_whitespace() {
        bytes.extend_from_slice(hex::decode(alloc, word.as_bytes())?.as_slice())?;
    }
    Ok(bytes)
}

/// The log of a text, after writing it as the text again.
fn log_of(alloc: Global, text: &[u8]) -> Result<Result<Log, LogFault>> {
    let log = match read_log(alloc, text) {
        Ok(log) => log,
        Err(fault) => return Ok(Err(fault)),
    };
    if write_log(alloc, &log)?.as_slice() != text {
        bail!("another text was written");
    }
    Ok(Ok(log))
}

/// The number of threads of a log, or its fault.
pub(crate) fn log(alloc: Global, given: &mut Given) -> Result<String> {
    match log_of(alloc, hex_bytes(alloc, given.rest())?.as_slice())? {
        Ok(log) => Ok(format!(in alloc; "{} threads", log.threads().len())?),
        Err(fault) => Ok(format!(in alloc; "{fault}")?),
    }
}

/// The parts of a log.
pub(crate) fn paths(alloc: Global, given: &mut Given) -> Result<String> {
    let log = log_of(alloc, hex_bytes(alloc, given.rest())?.as_slice())??;
    let mut text = String::new(alloc);
    let pushed = push_log(&mut text, &log);
    drop(log);
    pushed?;
    Ok(text)
}

fn push_log(text: &mut String, log: &Log) -> Result<(), AllocError> {
    write!(text, "{}", log.model())?;
    if let Some(digest) = log.digest() {
        write!(text, " {:02x}..{:02x}", digest[0], digest[31])?;
    }
    match log.failing_name() {
        Some(name) => write!(text, ", {name} fails")?,
        None => text.push_str(", deadlock")?,
    }
    for path in log.threads() {
        write!(text, "; {} after {}", path.name(), path.steps())?;
        push_outcomes(text, path.outcomes())?;
    }
    Ok(())
}

/// Adds the outcomes of a thread.
pub(crate) fn push_outcomes(text: &mut String, outcomes: &[bool]) -> Result<(), AllocError> {
    for outcome in outcomes {
        text.push_str(if *outcome { " 1" } else { " 0" })?;
    }
    Ok(())
}

/// The digest of a text.
pub(crate) fn digest(alloc: Global, text: &[u8]) -> Result<String> {
    Ok(hex::encode(alloc, program_digest(text).as_slice())?)
}
