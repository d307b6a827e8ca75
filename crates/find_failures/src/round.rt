//! The logs in which each thread has at most a given number of outcomes, one after another.
ghost use Rattle.std.specs.Prelude.{◌≡◌, ◌≤◌, ◌==◌, ◌||◌, nat_le, length, option_map, IfOk, IfSome};
ghost use Rattle.std.specs.List.{list_any};
ghost use Rattle.tc_code.specs.tc_limits.declared.limits.TheConstants.{BUDGET};
ghost use Rattle.slot_liveness.specs.Tables.{liveness};
ghost use Rattle.slot_liveness.specs.pure_turns.Live.{IsClosed};
ghost use Rattle.log_walk.specs.Given.{IsOne, IsFirst};
ghost use Rattle.find_failures.specs.LeftOut.{both};
ghost use Rattle.find_failures.specs.Runs.{AreExcluded};
ghost use Rattle.find_failures.specs.helpers.Gone.{AreGone, AreReached, AreSettled, IsEnded, IsTried};

use crate::asked::Asked;
use crate::gone::Gone;
use log_walk::{Bounds, Given, Kind, LeftOut, Program, first_threads, next_threads};
use run_log::{Log, ThreadPath};
use std::alloc::{AllocError, Global};
use store_buffers::MemoryModel;

/// How going through logs ended.
#[derive(Drop)]
pub(crate) enum Ended {
    /// This log is possible.
    Possible(Log),
    /// There are more logs than asked for.
    TooMany,
    /// After all of them; the search for them left these out.
    Done(LeftOut),
}

/// What at least one of two searches left out.
pub fn both(one: LeftOut, other: LeftOut) -> LeftOut
    ensures { result ≡ both one other }
{
    LeftOut {
        outcomes: one.outcomes || other.outcomes,
        steps: one.steps || other.steps,
        depth: one.depth || other.depth,
        threads: one.threads || other.threads,
    }
}

/// Whether some thread has at least this many outcomes.
fn has_many_outcomes(level: usize, threads: &[ThreadPath]) -> bool
    ensures { result ≡ list_any (λ t. nat_le level (length t.path.outcomes)) threads.now }
{
    threads
        .iter()
        .any(|thread| level <= thread.outcomes().len())
}

/// Whether some thread has as many outcomes as the bound allows. If not, the log was gone through
/// with a smaller bound.
pub fn is_new(level: u16, threads: &[ThreadPath]) -> bool
    ensures { result ≡ (level == 0 || list_any (λ t. nat_le level (length t.path.outcomes)) threads.now) }
{
    level == 0 || has_many_outcomes(usize::from(level), threads)
}

/// The threads of the first log, or those of the one after a given log.
pub fn following(
    alloc: Global,
    program: Program<'_>,
    kind: Kind,
    level: u16,
    last: &Option<Vec<ThreadPath>>,
) -> Result<Given, AllocError>
    requires { IfSome (option_map (λ v. v.items) last.now) (IsOne program.code.now (record { kind = kind; most = level })) }
    ensures { IfOk result (IsFirst program.entry.code.now (liveness program.entry.live.now) (record { kind = kind; most = level }) (option_map (λ v. v.items) last.now)) }
{
    let bounds = Bounds { kind, most: level };
    match last {
        Some(threads) => next_threads(alloc, program, bounds, threads),
        None => first_threads(alloc, program, bounds),
    }
}

/// Tries the logs of threads, unless they were tried with a smaller bound.
fn try_new<M: MemoryModel>(
    alloc: Global,
    program: Program<'_>,
    asked: Asked,
    level: u16,
    threads: &[ThreadPath],
    gone: &mut Gone,
) -> Result<Option<Log>, AllocError>
    requires some { 1 ≤ asked.budget }
    requires room { asked.budget ≤ BUDGET }
    requires level { level ≤ asked.outcomes }
    requires gone { AreGone M.ops M.MODEL M.bound program.code.now asked gone.old }
    requires settled { AreSettled M.ops M.MODEL program.code.now (liveness program.live.now) asked.kind level gone.old }
    requires one { IsOne program.code.now (record { kind = asked.kind; most = level }) threads.now }
    requires reached { AreReached M.ops M.MODEL program.code.now asked.kind gone.old threads.now }
    ensures { IfOk result (IsTried M.ops M.MODEL M.bound program.entry.code.now asked gone.old gone.new
        (AreExcluded M.ops M.MODEL program.entry.code.now (liveness program.entry.live.now) asked.kind threads.now)) }
{
    if !is_new(level, threads) {
        return Ok(None);
    }
    gone.try_threads::<M>(alloc, program.code, asked, threads)
}

/// Goes through the logs in which each thread has at most `level` outcomes.
pub(crate) fn round<M: MemoryModel>(
    alloc: Global,
    program: Program<'_>,
    asked: Asked,
    level: u16,
    gone: &mut Gone,
) -> Result<Ended, AllocError>
    requires some { 1 ≤ asked.budget }
    requires room { asked.budget ≤ BUDGET }
    requires level { level ≤ asked.outcomes }
    requires gone { AreGone M.ops M.MODEL M.bound program.code.now asked gone.old }
    requires settled { AreSettled M.ops M.MODEL program.code.now (liveness program.live.now) asked.kind level gone.old }
    requires closed { IsClosed program.code.now (liveness program.live.now) }
    ensures { IfOk result (IsEnded M.ops M.MODEL M.bound program.entry.code.now (liveness program.entry.live.now) asked level gone.new) }
{
    let mut out = LeftOut {
        outcomes: false,
        steps: false,
        depth: false,
        threads: false,
    };
    let mut last = None;
    'logs: for count in 0..u64::from(asked.logs) + 1 {
        let given = following(alloc, program, asked.kind, level, &last)?;
        out = both(out, given.out);
        last = given.threads;
        let Some(threads) = &last else {
            return Ok(Ended::Done(out));
        };
        let possible = try_new::<M>(alloc, program, asked, level, threads, gone)?;
        if let Some(log) = possible {
            return Ok(Ended::Possible(log));
        }
    }
    Ok(Ended::TooMany)
}
