//! Importing the answers of other solvers.
ghost use Rattle.std.specs.Prelude.{IfOk, IfErr, OnOk};
ghost use Rattle.clap_system.specs.Faults.{IsBuildFault};
ghost use Rattle.dimacs_text.specs.Values.{assigned};
ghost use Rattle.clap_solve.specs.Imported.{IsImported};
ghost use Rattle.clap_solve.specs.Solved.{IsWithin};
ghost use Rattle.clap_solve.specs.helpers.Searched.{IsAssigned, IsImportedOn, IsPosed};

use crate::Imported;
use crate::posed::{Posed, pose};
use crate::solving::schedule;
use clap_system::BuildFault;
use cnf_core::Assignment;
use dimacs_text::{Literals, assignment, first_false};
use run_log::Log;
use std::alloc::{AllocError, Global};
use std::mem::drop;
use store_buffers::MemoryModel;
use tc_code::Code;

/// The result of the literals that another solver makes true: a schedule that reproduces the log if
/// they satisfy its clauses, or else the first clause that they make false. The solver needn't be
/// trusted.
///
/// Unnamed variables are false, and unknown ones are ignored. Fails if [`pose`] fails.
pub fn take_answer<M: MemoryModel>(
    alloc: Global,
    code: &Code,
    log: &Log,
    literals: &Literals,
) -> Result<Imported, BuildFault>
    ensures ok { IfOk result (IsImported M.ops M.MODEL M.bound code.now log.now.log literals.now) }
    ensures within { OnOk result (IsWithin code.now log.now.log) }
    ensures err { IfErr result (IsBuildFault code.now log.now.log) }
{
    let posed = pose::<M>(alloc, code, log)?;
    let imported = taken::<M>(alloc, code, &posed, literals);
    drop(posed);
    Ok(imported?)
}

/// The result of literals that should satisfy a log's clauses.
fn taken<M: MemoryModel>(
    alloc: Global,
    code: &Code,
    posed: &Posed,
    literals: &Literals,
) -> Result<Imported, AllocError>
    requires { IsPosed M.BUFFERED M.bound code.now posed.now }
    ensures { IfOk result (IsImportedOn M.ops code.now posed.now M.MODEL (assigned posed.now.blasted.clauses.vars literals.now)) }
{
    let assignment = assignment(alloc, literals, posed.clauses().vars())?;
    imported::<M>(alloc, code, posed, &assignment)
}

/// The result of an assignment.
fn imported<M: MemoryModel>(
    alloc: Global,
    code: &Code,
    posed: &Posed,
    assignment: &Assignment,
) -> Result<Imported, AllocError>
    requires { IsAssigned M.BUFFERED M.bound code.now posed.now assignment.now }
    ensures { IfOk result (IsImportedOn M.ops code.now posed.now M.MODEL assignment.now) }
{
    match first_false(posed.clauses(), assignment) {
        Some(place) => Ok(Imported::False(place + 1)),
        None => Ok(Imported::Found(schedule::<M>(alloc, code, posed, assignment)?)),
    }
}
