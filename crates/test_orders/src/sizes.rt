//! How large formulas and their clauses are.
use crate::given::{posed, system};
use anyhow::Result;
use std::alloc::Global;
use std::mem::drop;
use test_table::given::Given;

/// The numbers of events, loads and conjuncts of a log's formula.
pub(crate) fn formula(alloc: Global, given: &mut Given) -> Result<String> {
    let system = system(alloc, given.before(" : "), given)?;
    let execution = system.execution();
    let (events, loads) = (execution.paths.events(), execution.symbolic.loads());
    let conjuncts = system.formula().conjuncts().len();
    drop(system);
    Ok(format!(in alloc; "{events} events, {loads} loads, {conjuncts} conjuncts")?)
}

/// The numbers of variables and clauses of a log's formula.
pub(crate) fn clauses(alloc: Global, given: &mut Given) -> Result<String> {
    let posed = posed(alloc, given.before(" : "), given)?;
    let (variables, clauses) = (posed.clauses().vars(), posed.clauses().len());
    drop(posed);
    Ok(format!(in alloc; "{variables} variables, {clauses} clauses")?)
}
