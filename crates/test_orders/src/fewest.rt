//! Schedules with the fewest context switches.
ghost use Rattle.std.specs.Prelude.{◌≤◌};

use crate::given::{built, code_and_log};
use anyhow::{Result, bail};
use least_switch::{Least, check_least_start, least};
use refute_check::{Checked, Checker, Derivation, LINES};
use run_log::Log;
use std::alloc::Global;
use std::mem::drop;
use store_buffers::{MemoryModel, PsoModel, Sc, TsoModel};
use tc_code::Code;
use test_table::given::Given;

/// The greatest number of clauses that each search may learn.
const BUDGET: u32 = 1_000_000;

/// The numbers of moves and switches of a schedule of a log with the fewest switches.
pub(crate) fn fewest(alloc: Global, given: &mut Given) -> Result<String> {
    let model = given.before(" : ");
    let (code, log) = code_and_log(alloc, given)?;
    let told = told_under(alloc, model, &code, &log);
    drop(code);
    drop(log);
    told
}

fn told_under(alloc: Global, model: &str, code: &Code, log: &Log) -> Result<String> {
    match model {
        "sc" => told::<Sc>(alloc, code, log),
        "tso" => told::<TsoModel>(alloc, code, log),
        "pso" => told::<PsoModel>(alloc, code, log),
        _ => bail!("no such model"),
    }
}

/// The same under a model, after checking the derivation that none has fewer.
fn told<M: MemoryModel>(alloc: Global, code: &Code, log: &Log) -> Result<String> {
    match built(least::<M>(alloc, code, log, BUDGET))? {
        Least::Found(schedule, switches, shown) => {
            let moves = schedule.moves.len();
            drop(schedule);
            let fewer = accepted::<M>(alloc, code, log, switches, &shown);
            drop(shown);
            let fewer = fewer?;
            Ok(format!(in alloc; "{moves} moves, {switches} switches, fewer {fewer}")?)
        }
        Least::Impossible(_) => Ok(String::from_str(alloc, "impossible")?),
        Least::Spent(_) | Least::SpentAt(_, _, _) => bail!("the budget is spent"),
    }
}

/// Whether there is a derivation that none has fewer; it must be accepted.
fn accepted<M: MemoryModel>(
    alloc: Global,
    code: &Code,
    log: &Log,
    switches: u32,
    shown: &Option<Derivation>,
) -> Result<&'static str> {
    match shown {
        None => Ok("none"),
        Some(derivation) => {
            accept::<M>(alloc, code, log, switches, derivation)?;
            Ok("accepted")
        }
    }
}

/// Checks that a derivation is closed on the clauses with one switch fewer, but not on those with
/// as many.
fn accept<M: MemoryModel>(
    alloc: Global,
    code: &Code,
    log: &Log,
    switches: u32,
    derivation: &Derivation,
) -> Result<()> {
    if switches == 0 || switches > 255 {
        bail!("no such number of switches");
    }
    if !closes::<M>(alloc, code, log, switches - 1, derivation)? {
        bail!("a derivation that isn't closed");
    }
    if closes::<M>(alloc, code, log, switches, derivation)? {
        bail!("a derivation that shows too much");
    }
    Ok(())
}

/// Whether a derivation is closed on the clauses with at most `most` switches.
fn closes<M: MemoryModel>(
    alloc: Global,
    code: &Code,
    log: &Log,
    most: u32,
    derivation: &Derivation,
) -> Result<bool>
    requires { most ≤ 255 }
{
    let mut checker = built(check_least_start::<M>(alloc, code, log, most))?;
    let closed = is_closed(&mut checker, derivation);
    drop(checker);
    Ok(closed)
}

/// Whether a derivation leads a checker to the empty clause.
fn is_closed(checker: &mut Checker, derivation: &Derivation) -> bool {
    for line in derivation.lines() {
        if checker.line() > LINES || checker.add(line).is_err() {
            return false;
        }
    }
    matches!(checker.verdict(), Ok(Checked::Closed))
}
