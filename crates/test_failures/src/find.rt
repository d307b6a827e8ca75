//! The search of a program.

use anyhow::{Context, Result, bail};
use find_failures::{Asked, Found, Reach, Searched, find};
use log_walk::Kind;
use run_log::{Log, ThreadPath};
use std::alloc::Global;
use std::fmt::Write;
use store_buffers::{PsoModel, Sc, TsoModel};
use tc_code::Code;
use tc_compile::compile;
use tc_limits::limits::PROGRAM_BYTES;

/// The greatest number of logs in a row.
const LOGS: u32 = 1_000;

/// The number of clauses that the search for a schedule of one log may learn.
const BUDGET: u32 = 10_000;

fn kind_of(word: &str) -> Result<Kind> {
    match word {
        "failure" => Ok(Kind::Failure),
        "deadlock" => Ok(Kind::Deadlock),
        _ => bail!("no such kind"),
    }
}

/// The code of a program.
fn code_of(alloc: Global, text: &[u8]) -> Result<Code> {
    if text.len() as u64 > PROGRAM_BYTES {
        bail!("a program that is too long");
    }
    Ok(compile(alloc, text)?)
}

fn push_thread(text: &mut String, thread: &ThreadPath) -> Result<()> {
    write!(text, " {}:{}:", thread.name(), thread.steps())?;
    for outcome in thread.outcomes() {
        text.push(if *outcome { '1' } else { '0' })?;
    }
    Ok(())
}

fn possible(alloc: Global, log: &Log) -> Result<String> {
    let mut text = String::from_str(alloc, "possible")?;
    for thread in log.threads() {
        push_thread(&mut text, thread)?;
    }
    Ok(text)
}

fn never(alloc: Global, reach: Reach, refuted: usize) -> Result<String> {
    let reach = match reach {
        Reach::Every => "every",
        Reach::Bounded => "bounded",
    };
    Ok(format!(in alloc; "never {reach} {refuted}")?)
}

fn found_text(alloc: Global, searched: &Searched) -> Result<String> {
    match &searched.found {
        Found::Possible(log) => possible(alloc, log),
        Found::Never(reach) => never(alloc, *reach, searched.refuted.len()),
        Found::Unknown(_) => Ok(String::from_str(alloc, "unknown")?),
        Found::TooMany => Ok(String::from_str(alloc, "too many")?),
        Found::LeftOut(_) => Ok(String::from_str(alloc, "left out")?),
    }
}

/// The result under a memory model.
fn find_under(
    alloc: Global,
    model: &str,
    code: &Code,
    kind: Kind,
    outcomes: u16,
) -> Result<Searched> {
    let asked = Asked {
        kind,
        outcomes,
        logs: LOGS,
        budget: BUDGET,
    };
    match model {
        "sc" => Ok(find::<Sc>(alloc, code, asked)?),
        "tso" => Ok(find::<TsoModel>(alloc, code, asked)?),
        "pso" => Ok(find::<PsoModel>(alloc, code, asked)?),
        _ => bail!("no such model"),
    }
}

/// The result of a search of a program.
pub(crate) fn find_row(alloc: Global, given: &str) -> Result<String> {
    let (words, program) = given.split_once(" : ").context("no program")?;
    let mut words = words.split_whitespace();
    let model = words.next().context("no model")?;
    let kind = kind_of(words.next().context("no kind")?)?;
    let outcomes = words.next().context("no number of outcomes")?;
    let outcomes = outcomes.parse::<u16>()?;
    let code = code_of(alloc, program.as_bytes())?;
    let searched = find_under(alloc, model, &code, kind, outcomes)?;
    found_text(alloc, &searched)
}
