//! Building the system of a log.
ghost use Rattle.std.specs.Prelude.{◌≡◌, ◌≤◌, length, IfOk, IfErr, OnOk};
ghost use Rattle.std.specs.List.{All};
ghost use Rattle.std.specs.Option.{MatchOption};
ghost use Rattle.tc_limits.specs.declared.limits.TheConstants.{EVENTS, OPERATORS, STEPS};
ghost use Rattle.path_walk.specs.Fits.{Fits};
ghost use Rattle.path_walk.specs.Paths.{ArePaths};
ghost use Rattle.tc_code.specs.Code as spec;
ghost use Rattle.clap_system.specs.Faults.{IsBuildFault, IsShallow, limit_of};
ghost use Rattle.clap_system.specs.declared.fault.BuildFault.TheVariants.{Limit};
ghost use Rattle.order_formula.specs.Orders.{order_without_questions, with_formula};
ghost use Rattle.order_events.specs.lawful_order.Events.{all_events, all_sleeps};
ghost use Rattle.order_events.specs.lawful_order.Whole.{AreWhole, IsExecutedBy};
ghost use Rattle.memory_order.specs.order_cells.Terms.{HaveTerms};
ghost use Rattle.clap_system.specs.Systems.{rules_of, system_by, system_of, with_needs};

use crate::conjuncts::test_conjuncts;
use crate::{BuildFault, System, Which};
use memory_order::order_constraints;
use order_events::{Sleeps, formula_of};
use order_formula::{Formula, Order};
use path_execution::Execution;
use path_walk::{Paths, walk};
use read_write::read_constraints;
use run_log::Log;
use std::alloc::{AllocError, Global};
use store_buffers::MemoryModel;
use sym_exec::{Symbolic, execute};
use sym_terms::Terms;
use sync_order::sync_constraints;
use tc_code::Code;
use tc_limits::limits::{DEPTH, EVENTS, OPERATORS, THREADS};

/// The system of a log, under a memory model.
///
/// Fails, in this order, if the log has too many threads; if a name is too deep (the first such
/// name is reported); if the log doesn't fit the program; if its paths have too many events, or too
/// many operators. The clauses of an accepted system have room: that is the law `clauses_have_room`
/// of `formula_sizes`.
pub fn build<M: MemoryModel>(alloc: Global, code: &Code, log: &Log) -> Result<System, BuildFault>
    ensures system { IfOk result (λ system. system ≡ system_of M.BUFFERED M.bound code.now log.now.log) }
    ensures fits { OnOk result (Fits code.now log.now.log) }
    ensures shallow { OnOk result (IsShallow log.now.log) }
    ensures steps { OnOk result (All (λ t. t.path.steps ≤ STEPS) log.now.log.threads) }
    ensures events { IfOk result (λ system. system.paths.events ≤ EVENTS) }
    ensures operators { IfOk result (λ system. system.paths.operators ≤ OPERATORS) }
    ensures err { IfErr result (IsBuildFault code.now log.now.log) }
{
    if let Some(fault) = too_much(log) {
        return Err(fault);
    }
    let paths = walk(alloc, code, log)?;
    if paths.events() > EVENTS {
        return Err(over(Which::Events, paths.events() as u64));
    }
    if paths.operators() > OPERATORS as u64 {
        return Err(over(Which::Operators, paths.operators()));
    }
    Ok(system::<M>(alloc, code, paths)?)
}

/// The fault that a log has too many threads, or a name that is too deep, if so.
fn too_much(log: &Log) -> Option<BuildFault>
    ensures { MatchOption result (IsShallow log.now.log) (λ fault. (code : spec.Code) → IsBuildFault code log.now.log fault) }
{
    let threads = log.threads();
    if threads.len() > THREADS {
        return Some(over(Which::Threads, threads.len() as u64));
    }
    let depth = log.first_deeper(DEPTH)?;
    Some(over(Which::Depth, depth as u64))
}

/// The fault that there are more of something than the limit.
fn over(which: Which, number: u64) -> BuildFault
    ensures { result ≡ Limit which number (limit_of which) }
{
    BuildFault::Limit(which, number, which.limit())
}

/// The system of paths.
fn system<M: MemoryModel>(alloc: Global, code: &Code, paths: Paths) -> Result<System, AllocError>
    requires paths { ArePaths code.now paths }
    requires few { paths.events ≤ EVENTS }
    ensures { IfOk result (λ system. system ≡ system_by M.BUFFERED M.bound code.now paths) }
{
    // The code is lawful, so the terms of tests and accesses exist.
    let _functions = code.functions();
    let mut terms = Terms::new(alloc);
    let symbolic = execute(alloc, code, &paths, &mut terms)?;
    let mut order = no_questions(alloc, &paths)?;
    let formula = rules::<M>(alloc, code, &paths, &symbolic, &mut terms, &mut order)?;
    let execution = Execution {
        paths,
        symbolic,
        terms,
    };
    Ok(System {
        execution,
        order,
        formula,
    })
}

/// The order of the paths' events, without questions.
fn no_questions(alloc: Global, paths: &Paths) -> Result<Order, AllocError>
    requires counted { paths.now.events ≡ length (all_events paths.now) }
    requires few { paths.now.events ≤ EVENTS }
    requires sleeps { length (all_sleeps paths.now) ≤ EVENTS }
    ensures { IfOk result (λ order. order ≡ order_without_questions (length (all_events paths.now)) (length (all_sleeps paths.now))) }
{
    let sleeps = Sleeps::of(alloc, paths)?;
    let count = sleeps.all().len() as u32;
    Ok(Order::empty(alloc, paths.events() as u32, count))
}

/// The conjuncts of all groups. Adds the terms and the questions that they need.
fn rules<M: MemoryModel>(
    alloc: Global,
    code: &Code,
    paths: &Paths,
    symbolic: &Symbolic,
    terms: &mut Terms,
    order: &mut Order,
) -> Result<Formula, AllocError>
    requires whole { AreWhole paths.now }
    requires few { paths.now.events ≤ EVENTS }
    requires executed { IsExecutedBy paths.now symbolic.now }
    requires terms { HaveTerms terms.old symbolic.now }
    requires events { order.old.events ≡ length (all_events paths.now) }
    requires sleeps { order.old.sleeps ≡ length (all_sleeps paths.now) }
    ensures made { OnOk result (terms.new ≡ with_needs M.BUFFERED M.bound code.now paths.now symbolic.now terms.old) }
    ensures rules { IfOk result (λ formula. formula ≡ rules_of M.BUFFERED M.bound code.now paths.now symbolic.now terms.new) }
    ensures asked { IfOk result (λ formula. order.new ≡ with_formula order.old formula) }
{
    let own = order_constraints::<M>(alloc, paths, symbolic, terms, order)?;
    let sync = sync_constraints(alloc, paths, order)?;
    let read = read_constraints(alloc, code, paths, symbolic, terms, order)?;
    let tests = formula_of(alloc, test_conjuncts(alloc, symbolic)?, order)?;
    own.and(sync)?.and(read)?.and(tests)
}
