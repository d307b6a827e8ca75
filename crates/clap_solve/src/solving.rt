//! The search for a schedule.
ghost use Rattle.std.specs.Prelude.{◌≡◌, ◌≤◌, length, IfOk, IfErr};
ghost use Rattle.schedule_file.specs.tc_limits.declared.limits.TheConstants.{BUDGET, EVENTS};
ghost use Rattle.first_run.specs.lawful_order.Events.{all_events};
ghost use Rattle.cdcl_core.specs.Solving.{IsAnswerOn, Solves};
ghost use Rattle.clap_system.specs.Faults.{IsBuildFault};
ghost use Rattle.clap_solve.specs.Solved.{IsSolved};
ghost use Rattle.clap_solve.specs.helpers.Searched.{IsPosed, IsSatisfied, IsScheduled, ReproduceEach};

use crate::posed::{Posed, pose};
use cdcl_core::{Answer, solve_cnf};
use clap_system::BuildFault;
use cnf_core::Assignment;
use first_run::first_world;
use run_log::Log;
use schedule_decode::decode;
use schedule_file::Schedule;
use std::alloc::{AllocError, Global};
use std::mem::drop;
use store_buffers::MemoryModel;
use tc_code::Code;

/// Searches for a schedule that leads the machine of a memory model to the end that a log records,
/// each thread along its path; returns one, a proof that there is none, or an open derivation once
/// the budget of learnt clauses is spent.
///
/// Fails if the log has no clauses; see [`build`](clap_system::build).
pub fn solve<M: MemoryModel>(
    alloc: Global,
    code: &Code,
    log: &Log,
    budget: u32,
) -> Result<Answer<Schedule>, BuildFault>
    requires some { 1 ≤ budget }
    requires room { budget ≤ BUDGET }
    ensures ok { IfOk result (IsSolved M.ops M.MODEL M.bound code.now log.now.log budget) }
    ensures err { IfErr result (IsBuildFault code.now log.now.log) }
{
    let posed = pose::<M>(alloc, code, log)?;
    let answer = searched::<M>(alloc, code, &posed, budget);
    drop(posed);
    Ok(answer?)
}

/// Searches for a model of a log's clauses, and makes a schedule of it.
fn searched<M: MemoryModel>(
    alloc: Global,
    code: &Code,
    posed: &Posed,
    budget: u32,
) -> Result<Answer<Schedule>, AllocError>
    requires some { 1 ≤ budget }
    requires room { budget ≤ BUDGET }
    requires posed { IsPosed M.BUFFERED M.bound code.now posed.now }
    ensures { IfOk result (IsAnswerOn posed.now.blasted.clauses budget (IsScheduled M.ops code.now posed.now M.MODEL)) }
{
    let solved = search::<M>(alloc, code, posed, budget)?;
    solved.try_map(|assignment| schedule::<M>(alloc, code, posed, &assignment))
}

/// A search of the clauses of a log that first tries the values of one run along its paths.
pub fn search<M: MemoryModel>(
    alloc: Global,
    code: &Code,
    posed: &Posed,
    budget: u32,
) -> Result<Answer<Assignment>, AllocError>
    requires events { length (all_events posed.now.paths) ≤ EVENTS }
    requires some { 1 ≤ budget }
    requires room { budget ≤ BUDGET }
    ensures { IfOk result (Solves posed.now.blasted.clauses budget) }
{
    let world = first_world::<M>(alloc, code, posed.execution())?;
    let values = posed.blasted().first_values(alloc, &world)?;
    solve_cnf(alloc, posed.clauses(), values.as_slice(), budget)
}

/// The schedule of the world of a model of a log's clauses.
pub(crate) fn schedule<M: MemoryModel>(
    alloc: Global,
    code: &Code,
    posed: &Posed,
    assignment: &Assignment,
) -> Result<Schedule, AllocError>
    requires { IsSatisfied M.BUFFERED M.bound code.now posed.now assignment.now }
    ensures model { IfOk result (λ schedule. schedule.model ≡ M.MODEL) }
    ensures reproduces { IfOk result (λ schedule. ReproduceEach M.ops code.now posed.now schedule.moves.items) }
{
    let world = posed.blasted().world(alloc, assignment)?;
    decode::<M>(alloc, code, posed.execution(), &world)
}
