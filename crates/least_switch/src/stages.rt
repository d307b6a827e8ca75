//! One search: for any schedule of a log, or for one with a bound on context switches.
ghost use Rattle.std.specs.Prelude.{◌≤◌, IfOk, IfErr};
ghost use Rattle.schedule_file.specs.tc_limits.declared.limits.TheConstants.{BUDGET};
ghost use Rattle.cdcl_core.specs.Solving.{IsAnswerOn};
ghost use Rattle.clap_system.specs.Faults.{IsBuildFault};
ghost use Rattle.clap_solve.specs.Posed.{IsGiven};
ghost use Rattle.switch_clauses.specs.Clauses.{switch_clauses};
ghost use Rattle.least_switch.specs.helpers.Bounded.{IsBounded};
ghost use Rattle.least_switch.specs.helpers.Found.{IsBest, IsBestUpTo, IsFirst, IsFirstFound, IsPosedFor, IsSaid};

use crate::best::{Best, best_of};
use crate::bounded::{Bounded, pose_bounded};
use cdcl_core::{Answer, solve_cnf};
use clap_solve::{Posed, pose, search};
use clap_system::BuildFault;
use cnf_core::Assignment;
use order_formula::World;
use run_log::Log;
use std::alloc::{AllocError, Global};
use std::mem::drop;
use store_buffers::MemoryModel;
use tc_code::Code;

/// Searches for a schedule of a log.
pub(crate) fn first<M: MemoryModel>(
    alloc: Global,
    code: &Code,
    log: &Log,
    budget: u32,
) -> Result<Answer<Best>, BuildFault>
    requires some { 1 ≤ budget }
    requires room { budget ≤ BUDGET }
    ensures found { IfOk result (IsFirstFound M.ops M.MODEL M.BUFFERED M.bound code.now log.now.log budget) }
    ensures err { IfErr result (IsBuildFault code.now log.now.log) }
{
    let posed = posed::<M>(alloc, code, log)?;
    let found = searched::<M>(alloc, code, log, &posed, budget);
    drop(posed);
    Ok(found?)
}

/// The clauses of a log.
fn posed<M: MemoryModel>(alloc: Global, code: &Code, log: &Log) -> Result<Posed, BuildFault>
    ensures posed { IfOk result (IsPosedFor M.BUFFERED M.bound code.now log.now.log) }
    ensures err { IfErr result (IsBuildFault code.now log.now.log) }
{
    pose::<M>(alloc, code, log)
}

/// Searches for a model of the clauses of a log, and makes a schedule of it.
fn searched<M: MemoryModel>(
    alloc: Global,
    code: &Code,
    log: &Log,
    posed: &Posed,
    budget: u32,
) -> Result<Answer<Best>, AllocError>
    requires some { 1 ≤ budget }
    requires room { budget ≤ BUDGET }
    requires posed { IsPosedFor M.BUFFERED M.bound code.now log.now.log posed.now }
    ensures { IfOk result (IsAnswerOn posed.now.blasted.clauses budget (IsBest M.ops M.MODEL code.now log.now.log)) }
{
    let solved = search::<M>(alloc, code, posed, budget)?;
    solved.try_map(|assignment| first_best::<M>(alloc, code, log, posed, &assignment))
}

/// The schedule of the world of a model of the clauses of a log.
fn first_best<M: MemoryModel>(
    alloc: Global,
    code: &Code,
    log: &Log,
    posed: &Posed,
    assignment: &Assignment,
) -> Result<Best, AllocError>
    requires { IsFirst M.BUFFERED M.bound code.now log.now.log posed.now assignment.now }
    ensures { IfOk result (IsBest M.ops M.MODEL code.now log.now.log) }
{
    let world = posed.blasted().world(alloc, assignment)?;
    best_of::<M>(alloc, code, posed.execution(), world)
}

/// Searches for a schedule of a log with a bound on switches, trying values near a world first.
pub(crate) fn fewer<M: MemoryModel>(
    alloc: Global,
    code: &Code,
    log: &Log,
    most: u32,
    world: &World,
    budget: u32,
) -> Result<Answer<Best>, BuildFault>
    requires given { IsGiven code.now log.now.log }
    requires most { most ≤ 255 }
    requires some { 1 ≤ budget }
    requires room { budget ≤ BUDGET }
    ensures found { IfOk result (IsAnswerOn (switch_clauses M.BUFFERED M.bound code.now log.now.log most) budget
        (IsBestUpTo M.ops M.MODEL code.now log.now.log most)) }
    ensures err { IfErr result (IsBuildFault code.now log.now.log) }
{
    let bounded = pose_bounded::<M>(alloc, code, log, most)?;
    let found = searched_near::<M>(alloc, code, log, most, &bounded, world, budget);
    drop(bounded);
    Ok(found?)
}

/// Searches for a model of the clauses with a bound on switches, and makes a schedule of it.
fn searched_near<M: MemoryModel>(
    alloc: Global,
    code: &Code,
    log: &Log,
    most: u32,
    bounded: &Bounded,
    world: &World,
    budget: u32,
) -> Result<Answer<Best>, AllocError>
    requires given { IsGiven code.now log.now.log }
    requires bounded { IsBounded M.BUFFERED M.bound code.now log.now.log most bounded.now }
    requires some { 1 ≤ budget }
    requires room { budget ≤ BUDGET }
    ensures { IfOk result (IsAnswerOn bounded.now.clauses budget (IsBestUpTo M.ops M.MODEL code.now log.now.log most)) }
{
    let values = bounded.first_values(alloc, world)?;
    let solved = solve_cnf(alloc, &bounded.clauses, values.as_slice(), budget)?;
    solved.try_map(|assignment| next_best::<M>(alloc, code, log, most, bounded, &assignment))
}

/// The schedule of the world of a model of the clauses with a bound on switches.
fn next_best<M: MemoryModel>(
    alloc: Global,
    code: &Code,
    log: &Log,
    most: u32,
    bounded: &Bounded,
    assignment: &Assignment,
) -> Result<Best, AllocError>
    requires { IsSaid M.BUFFERED M.bound code.now log.now.log most bounded.now assignment.now }
    ensures { IfOk result (IsBestUpTo M.ops M.MODEL code.now log.now.log most) }
{
    let world = bounded.layout.read_world(alloc, assignment)?;
    best_of::<M>(alloc, code, &bounded.execution, world)
}
