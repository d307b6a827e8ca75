//! The paths of the threads of logs, and their symbolic execution.
ghost use Rattle.std.specs.Prelude.{◌≤◌, length, IfOk};
ghost use Rattle.tc_limits.specs.declared.limits.TheConstants.{THREADS};

use crate::execution::Told;
use crate::files::hex_bytes;
use crate::text::code_of;
use anyhow::{Context, Result, bail};
use path_log::read_log;
use path_walk::{Blocked, Event, Link, Paths, Region, Sleep, Walk, walk};
use run_log::Log;
use std::alloc::{AllocError, Global};
use std::fmt::Write;
use std::mem::drop;
use sym_exec::{Symbolic, execute};
use sym_terms::Terms;
use tc_base::Failing;
use tc_code::Code;
use tc_limits::limits::THREADS;
use test_table::given::Given;

/// The log and the program of a row.
fn parts_of(alloc: Global, given: &mut Given) -> Result<(Log, Code)>
    ensures { IfOk result (λ parts. length parts.0.log.threads ≤ THREADS) }
{
    let log = log_of(alloc, given.before(" : "))?;
    let code = code_of(alloc, given.rest().as_bytes())?;
    Ok((log, code))
}

/// The log of hex digits.
fn log_of(alloc: Global, hex: &str) -> Result<Log>
    ensures { IfOk result (λ log. length log.log.threads ≤ THREADS) }
{
    let log = read_log(alloc, hex_bytes(alloc, hex)?.as_slice())?;
    if log.threads().len() > THREADS {
        bail!("a log of too many threads");
    }
    Ok(log)
}

fn numbers_of(alloc: Global, text: &str) -> Result<Vec<i32>> {
    let mut numbers = Vec::new(alloc);
    for word in text.split_whitespace() {
        numbers.push(word.parse::<i32>()?)?;
    }
    Ok(numbers)
}

/// The numbers of events and operators of the paths, and whether they are dead; or the fault of the
/// log.
pub(crate) fn walked(alloc: Global, given: &mut Given) -> Result<String> {
    let (log, code) = parts_of(alloc, given)?;
    let text = walk_text(alloc, &log, &code);
    drop(log);
    drop(code);
    Ok(text?)
}

fn walk_text(alloc: Global, log: &Log, code: &Code) -> Result<String, AllocError>
    requires { length log.now.log.threads ≤ THREADS }
{
    match walk(alloc, code, log) {
        Ok(paths) => told(alloc, &paths),
        Err(fault) => format!(in alloc; "{fault}"),
    }
}

fn told(alloc: Global, paths: &Paths) -> Result<String, AllocError> {
    let dead = if paths.dead() { ", dead" } else { "" };
    format!(in alloc;
        "{} events, {} operators{dead}",
        paths.events(),
        paths.operators()
    )
}

/// The same, with everything that each path determines.
pub(crate) fn ways(alloc: Global, given: &mut Given) -> Result<String> {
    let (log, code) = parts_of(alloc, given)?;
    let paths = walk(alloc, &code, &log);
    drop(log);
    drop(code);
    let text = all_ways(alloc, &paths?);
    Ok(text?)
}

fn all_ways(alloc: Global, paths: &Paths) -> Result<String, AllocError> {
    let mut text = told(alloc, paths)?;
    for (index, walk) in paths.threads().iter().enumerate() {
        let fails = paths.failing() == Failing::Thread(index);
        push_way(&mut text, walk, fails)?;
    }
    Ok(text)
}

/// Adds everything that the path of a thread determines.
fn push_way(text: &mut String, walk: &Walk, fails: bool) -> Result<(), AllocError> {
    push_places(text, walk, fails)?;
    push_events(text, walk.events())?;
    push_regions(text, walk.regions())?;
    push_sleeps(text, walk.sleeps())?;
    push_links(text, "create", walk.creates())?;
    push_links(text, "join", walk.joins())?;
    push_blocked(text, walk.blocked())
}

fn push_places(text: &mut String, walk: &Walk, fails: bool) -> Result<(), AllocError> {
    let fails = if fails { ", fails" } else { "" };
    write!(
        text,
        "\nthread {} in function {}{fails}, at",
        walk.name(),
        walk.function()
    )?;
    for place in walk.places() {
        write!(text, " {place}")?;
    }
    Ok(())
}

/// Adds what blocks a thread, if anything.
fn push_blocked(text: &mut String, blocked: Option<Blocked>) -> Result<(), AllocError> {
    match blocked {
        Some(blocked) => write!(text, "\n  blocked: {blocked:?}"),
        None => Ok(()),
    }
}

fn push_events(text: &mut String, events: &[Event]) -> Result<(), AllocError> {
    for event in events {
        let (step, kind, line) = (event.step, event.kind, event.line);
        write!(
            text,
            "\n  {step}: {kind:?}, line {line}, {} bars before",
            event.bars
        )?;
    }
    Ok(())
}

fn push_regions(text: &mut String, regions: &[Region]) -> Result<(), AllocError> {
    for region in regions {
        write!(
            text,
            "\n  mutex {} from {} to {:?}",
            region.mutex, region.from, region.to
        )?;
    }
    Ok(())
}

fn push_sleeps(text: &mut String, sleeps: &[Sleep]) -> Result<(), AllocError> {
    for sleep in sleeps {
        let (condition, mutex) = (sleep.condition, sleep.mutex);
        write!(
            text,
            "\n  sleep {condition} {mutex} from {} to {:?}",
            sleep.step, sleep.wake
        )?;
    }
    Ok(())
}

fn push_links(text: &mut String, what: &str, links: &[Link]) -> Result<(), AllocError> {
    for link in links {
        write!(text, "\n  {what} {} at {}", link.child, link.step)?;
    }
    Ok(())
}

/// The numbers of loads and terms of the execution.
pub(crate) fn sizes(alloc: Global, given: &mut Given) -> Result<String> {
    let (log, code) = parts_of(alloc, given)?;
    let mut terms = Terms::new(alloc);
    let loads = symbolic_of(alloc, &log, &code, &mut terms).map(|symbolic| symbolic.loads());
    drop(log);
    drop(code);
    let len = terms.len();
    drop(terms);
    let loads = loads?;
    Ok(format!(in alloc; "{loads} loads, {len} terms")?)
}

/// Everything that the execution finds, and the values of its terms for these values of the loads.
pub(crate) fn executed(alloc: Global, given: &mut Given) -> Result<String> {
    let (front, loads) = given
        .rest()
        .rsplit_once(" :")
        .context("no values of loads")?;
    let loads = numbers_of(alloc, loads)?;
    let (log, code) = parts_of(alloc, &mut Given::new(front))?;
    let text = execution_text(alloc, &log, &code, loads.as_slice());
    drop(log);
    drop(code);
    text
}

fn execution_text(alloc: Global, log: &Log, code: &Code, loads: &[i32]) -> Result<String>
    requires { length log.now.log.threads ≤ THREADS }
{
    let mut terms = Terms::new(alloc);
    let symbolic = symbolic_of(alloc, log, code, &mut terms)?;
    let told = Told {
        alloc,
        terms: &terms,
        loads,
    };
    let text = told.all(&symbolic);
    drop(symbolic);
    drop(terms);
    Ok(text?)
}

/// The execution of a log.
fn symbolic_of(alloc: Global, log: &Log, code: &Code, terms: &mut Terms) -> Result<Symbolic>
    requires { length log.now.log.threads ≤ THREADS }
{
    Ok(execute(alloc, code, &walk(alloc, code, log)?, terms)?)
}
