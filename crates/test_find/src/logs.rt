//! The threads of logs.
ghost use Rattle.std.specs.Prelude.{IfOk, IfSome, option_map};
ghost use Rattle.log_walk.specs.Given.{IsOne};

use crate::threads::code_of;
use anyhow::{Context, Result, bail};
use log_walk::{Bounds, Given, Kind, LeftOut, Program, first_threads, next_threads};
use run_log::ThreadPath;
use slot_liveness::live_slots;
use std::alloc::Global;
use std::fmt::Write;

/// The greatest number of logs in a row.
const MOST: u32 = 1_000;

fn kind_of(word: &str) -> Result<Kind> {
    match word {
        "failure" => Ok(Kind::Failure),
        "deadlock" => Ok(Kind::Deadlock),
        _ => bail!("no such kind"),
    }
}

/// The bounds of the search.
fn bounds_of(words: &str) -> Result<Bounds> {
    let mut words = words.split_whitespace();
    let kind = kind_of(words.next().context("no kind")?)?;
    let most = words
        .next()
        .context("no number of outcomes")?
        .parse::<u16>()?;
    Ok(Bounds { kind, most })
}

fn push_thread(text: &mut String, thread: &ThreadPath) -> Result<()> {
    write!(text, "{}:{}:", thread.name(), thread.steps())?;
    for outcome in thread.outcomes() {
        text.push(if *outcome { '1' } else { '0' })?;
    }
    text.push(' ')?;
    Ok(())
}

fn push_log(text: &mut String, threads: &[ThreadPath]) -> Result<()> {
    for thread in threads {
        push_thread(text, thread)?;
    }
    text.push_str("| ")?;
    Ok(())
}

/// What the search left out beyond the bounds.
fn push_end(text: &mut String, out: LeftOut) -> Result<()> {
    if out.steps {
        text.push_str("steps ")?;
    }
    if out.depth {
        text.push_str("depth ")?;
    }
    if out.threads {
        text.push_str("threads ")?;
    }
    text.push_str("end")?;
    Ok(())
}

/// The first log, or the one after a given log.
fn following(
    alloc: Global,
    program: Program<'_>,
    bounds: Bounds,
    last: &Option<Vec<ThreadPath>>,
) -> Result<Given>
    requires { IfSome (option_map (λ v. v.items) last.now) (IsOne program.code.now bounds) }
    ensures { IfOk result (λ given. IfSome given.threads (IsOne program.entry.code.now bounds)) }
{
    match last {
        Some(threads) => Ok(next_threads(alloc, program, bounds, threads)?),
        None => Ok(first_threads(alloc, program, bounds)?),
    }
}

/// The logs, one after another.
fn all_logs(alloc: Global, program: Program<'_>, bounds: Bounds) -> Result<String> {
    let mut text = String::new(alloc);
    let mut last = None;
    'logs: for _ in 0..MOST {
        let given = following(alloc, program, bounds, &last)?;
        last = given.threads;
        match &last {
            Some(threads) => push_log(&mut text, threads)?,
            None => {
                push_end(&mut text, given.out)?;
                return Ok(text);
            }
        }
    }
    bail!("too many logs")
}

/// The logs of a program.
pub(crate) fn logs(alloc: Global, given: &str) -> Result<String> {
    let (words, program) = given.split_once(" : ").context("no program")?;
    let bounds = bounds_of(words)?;
    let code = code_of(alloc, program.as_bytes())?;
    let live = live_slots(alloc, &code)?;
    let program = Program {
        code: &code,
        live: &live,
    };
    all_logs(alloc, program, bounds)
}
