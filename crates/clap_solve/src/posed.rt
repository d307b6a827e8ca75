//! A log's clauses, with everything that they are made from.
ghost use Rattle.std.specs.Prelude.{◌≡◌, ◌+◌, ◌<◌, false, length, IfOk, IfErr, OnOk, if◌then◌else◌};
ghost use Rattle.cnf_core.specs.declared.cnf.TheConstants.{LIMIT};
ghost use Rattle.bit_blast.specs.Blasted.{impossible};
ghost use Rattle.bit_blast.specs.Drafts.{DraftIsWithin};
ghost use Rattle.clap_system.specs.Faults.{IsBuildFault};
ghost use Rattle.clap_system.specs.Systems.{system_from};
ghost use Rattle.clap_solve.specs.Clauses.{blasted_by, clauses_of, drafted_by};
ghost use Rattle.clap_solve.specs.Posed.{IsGiven, posed_of};
ghost use Rattle.clap_solve.specs.Solved.{IsWithin};
ghost use Rattle.clap_solve.specs.helpers.Draftable.{IsDraftable};

use bit_blast::{Blasted, Draft};
use clap_system::{BuildFault, build};
use cnf_core::Cnf;
use mutex_clauses::add_states;
use order_formula::{Formula, Order};
use path_execution::Execution;
use path_walk::Paths;
use run_log::Log;
use std::alloc::{AllocError, Global};
use std::marker::Model;
use store_buffers::MemoryModel;
use tc_code::Code;

/// The clauses of a log, with everything that they are made from: it turns models into schedules,
/// and clauses into rules of the program. Contracts see a record of the parts.
#[derive(Debug, Drop)]
pub struct Posed {
    execution: Execution,
    formula: Formula,
    blasted: Blasted,
}

impl Model for Posed {
    ghost use Rattle.clap_solve.specs.Posed.{Posed as PlainPosed};

    ghost Value = { PlainPosed };

    ghost view = { λ p. record {
      paths = p.execution.paths;
      symbolic = p.execution.symbolic;
      nodes = p.execution.terms;
      formula = p.formula;
      blasted = p.blasted;
    } };
}

impl Posed {
    /// The paths of the log.
    pub fn paths(&self) -> &Paths
        ensures { result.now ≡ self.now.paths }
    {
        &self.execution.paths
    }

    /// The execution of these paths.
    pub fn execution(&self) -> &Execution
        ensures { result.now ≡ record { paths = self.now.paths; symbolic = self.now.symbolic; terms = self.now.nodes } }
    {
        &self.execution
    }

    /// The formula; each conjunct has the group of its rule.
    pub fn formula(&self) -> &Formula
        ensures { result.now ≡ self.now.formula }
    {
        &self.formula
    }

    /// The clauses, with the layout of their variables and the index of each conjunct's clause.
    pub fn blasted(&self) -> &Blasted
        ensures { result.now ≡ self.now.blasted }
    {
        &self.blasted
    }

    /// The clauses.
    pub fn clauses(&self) -> &Cnf
        ensures { result.now ≡ self.now.blasted.clauses }
    {
        self.blasted.clauses()
    }

    /// The clauses, without an allocation.
    pub fn into_clauses(self) -> Cnf
        ensures { result ≡ self.blasted.clauses }
    {
        self.blasted.into_clauses()
    }
}

/// The clauses of a log under a memory model, with everything that they are made from.
///
/// Fails if the log has no clauses; see [`build`](clap_system::build). If the paths are dead, the
/// clauses are those of an impossible formula, and the formula has none.
pub fn pose<M: MemoryModel>(alloc: Global, code: &Code, log: &Log) -> Result<Posed, BuildFault>
    ensures posed { IfOk result (λ posed. posed ≡ posed_of M.BUFFERED M.bound code.now log.now.log) }
    ensures variables { IfOk result (λ posed. posed.paths.dead ≡ false → 0 < posed.blasted.clauses.vars) }
    ensures given { OnOk result (IsGiven code.now log.now.log) }
    ensures err { IfErr result (IsBuildFault code.now log.now.log) }
{
    // Lawful code, and a log whose names rise.
    let _functions = code.functions();
    let _threads = log.threads();
    let (execution, order, formula) = build::<M>(alloc, code, log)?.into_parts();
    let blasted = blasted(alloc, code, &execution, &formula, order)?;
    Ok(Posed {
        execution,
        formula,
        blasted,
    })
}

/// The clauses of a log under a memory model, in which [`solve`](crate::solve) searches.
///
/// They are satisfiable exactly if some moves reproduce the log:
/// [`clauses_are_runs`](crate::laws::clauses_are_runs). So any solver may search them instead.
/// Fails if [`pose`] fails.
pub fn clauses<M: MemoryModel>(alloc: Global, code: &Code, log: &Log) -> Result<Cnf, BuildFault>
    ensures ok { IfOk result (λ clauses. clauses ≡ clauses_of M.BUFFERED M.bound code.now log.now.log) }
    ensures within { OnOk result (IsWithin code.now log.now.log) }
    ensures err { IfErr result (IsBuildFault code.now log.now.log) }
{
    Ok(pose::<M>(alloc, code, log)?.into_clauses())
}

/// The clauses of a formula, or of an impossible one if the paths are dead.
fn blasted(
    alloc: Global,
    code: &Code,
    execution: &Execution,
    formula: &Formula,
    order: Order,
) -> Result<Blasted, AllocError>
    requires { IsDraftable (system_from execution.now order formula.now) }
    ensures blasted { IfOk result (λ blasted. blasted
        ≡ (if execution.now.paths.dead then impossible else blasted_by code.now (system_from execution.now order formula.now))) }
    ensures variables { IfOk result (λ blasted. execution.now.paths.dead ≡ false → 0 < blasted.clauses.vars) }
{
    if execution.paths.dead() {
        return Blasted::impossible(alloc);
    }
    drafted(alloc, code, execution, formula, order)?.asserted()
}

/// The clauses of a formula with the states of the mutexes, before its conjuncts are asserted.
fn drafted(
    alloc: Global,
    code: &Code,
    execution: &Execution,
    formula: &Formula,
    order: Order,
) -> Result<Draft, AllocError>
    requires { IsDraftable (system_from execution.now order formula.now) }
    ensures draft { IfOk result (λ draft. draft ≡ drafted_by code.now (system_from execution.now order formula.now)) }
    ensures within { IfOk result (λ draft. DraftIsWithin draft) }
    ensures room { IfOk result (λ draft. length draft.clauses.clauses + length draft.roots < LIMIT) }
{
    let loads = execution.symbolic.loads();
    let mut draft = Draft::new(alloc, &execution.terms, formula, order, loads)?;
    add_states(alloc, code, execution, formula, &mut draft)?;
    Ok(draft)
}
