//! A search with a budget.
ghost use Rattle.std.specs.Prelude.{◌≡◌, ◌≤◌, IfOk, IsTrue};
ghost use Rattle.tc_limits.specs.declared.limits.TheConstants.{BUDGET};
ghost use Rattle.cdcl_core.specs.Solving.{Solves};

use crate::{Answer, Progress, Search};
use cnf_core::{Assignment, Cnf};
use std::alloc::{AllocError, Global};

/// Searches until `budget` clauses are learnt, and tries [these values](Search::new) first.
pub fn solve_cnf(
    alloc: Global,
    cnf: &Cnf,
    first: &[bool],
    budget: u32,
) -> Result<Answer<Assignment>, AllocError>
    requires some { 1 ≤ budget }
    requires room { budget ≤ BUDGET }
    ensures { IfOk result (Solves cnf.now budget) }
{
    let mut search = Search::new(alloc, cnf, first)?;
    match search.run(alloc, budget)? {
        Progress::Sat(assignment) => Ok(Answer::Found(assignment)),
        Progress::Closed => Ok(Answer::Impossible(search.into_derivation())),
        Progress::Paused => Ok(Answer::Spent(search.into_derivation())),
    }
}
