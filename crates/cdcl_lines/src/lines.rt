//! Lines about a search's clauses.
ghost use Rattle.std.specs.Prelude.{◌≡◌, ◌≢◌, ◌+◌, ◌*◌, ◌-◌, ◌^◌, ◌<◌, [], All, IfOk, IsTrue};
ghost use Rattle.cnf_core.specs.declared.cnf.TheConstants.{LIMIT};
ghost use Rattle.refute_check.specs.Refutations.{is_line};
ghost use Rattle.cdcl_lines.specs.Literals.{clause_of, numbers_of, Rise};
ghost use Rattle.cdcl_lines.specs.Lines.{added, deleted};

use crate::to_lit;
use cdcl_literals::{ClauseId, Literal};
use cnf_core::{Clause, Lit};
use refute_check::{Line, Numbers};
use std::alloc::{AllocError, Global};

/// The line that adds a clause, proved by the clauses at these indexes in order.
pub fn add_line(alloc: Global, literals: &[Literal], hints: &[ClauseId]) -> Result<Line, AllocError>
    requires rise { Rise literals.now }
    requires within { All (λ l. l < 2 * LIMIT) literals.now }
    requires hints { All (λ h. h + 1 < 2 ^ 32) hints.now }
    ensures line { IfOk result (λ line. line ≡ added literals.now hints.now) }
    ensures lawful { IfOk result (λ line. IsTrue (is_line line)) }
{
    let clause = lits(alloc, literals)?;
    let hints = numbers(alloc, hints)?;
    Ok(Line::Add(Clause::new(clause), hints))
}

/// The line that deletes the clauses at these indexes, at least one.
pub fn delete_line(alloc: Global, clauses: &[ClauseId]) -> Result<Line, AllocError>
    requires some { clauses.now ≢ [] }
    requires clauses { All (λ k. k + 1 < 2 ^ 32) clauses.now }
    ensures line { IfOk result (λ line. line ≡ deleted clauses.now) }
    ensures lawful { IfOk result (λ line. IsTrue (is_line line)) }
{
    Ok(Line::Delete(numbers(alloc, clauses)?))
}

/// The formula's literals for these of the search.
fn lits(alloc: Global, literals: &[Literal]) -> Result<Vec<Lit>, AllocError>
    requires { All (λ l. l < 2 * LIMIT) literals.now }
    ensures { IfOk result (λ lits. lits.items ≡ clause_of literals.now) }
{
    let mut lits = Vec::with_capacity(alloc, literals.len())?;
    for literal in literals {
        lits.push(to_lit(*literal))?;
    }
    Ok(lits)
}

/// The numbers of the clauses at these indexes.
fn numbers(alloc: Global, clauses: &[ClauseId]) -> Result<Numbers, AllocError>
    requires { All (λ k. k + 1 < 2 ^ 32) clauses.now }
    ensures { IfOk result (λ numbers. numbers ≡ numbers_of clauses.now) }
{
    let mut numbers = Vec::with_capacity(alloc, clauses.len())?;
    for clause in clauses {
        numbers.push(clause.index() as u32 + 1)?;
    }
    Ok(Numbers::new(numbers))
}
