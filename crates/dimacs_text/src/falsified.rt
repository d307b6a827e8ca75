//! The first clause that an assignment makes false.
ghost use Rattle.std.specs.Prelude.{◌≡◌, ◌≤◌, ◌<◌, length, IfSome, IsTrue, MatchOption};
ghost use Rattle.cnf_core.specs.Clauses.{clause_true, is_within, satisfies, value_in};
ghost use Rattle.cnf_core.specs.declared.cnf.TheConstants.{LIMIT};
ghost use Rattle.dimacs_text.specs.Values.{IsFirstFalse};

use cnf_core::{Assignment, Cnf, Lit};

/// The index, from 0, of the first clause that the assignment makes false, if there is one.
pub fn first_false(cnf: &Cnf, assignment: &Assignment) -> Option<u32>
    requires { cnf.now.vars ≤ length assignment.now }
    ensures first { MatchOption result (IsTrue (satisfies (value_in assignment.now) cnf.now.clauses)) (IsFirstFalse (value_in assignment.now) cnf.now.clauses) }
    ensures limit { IfSome result (λ place. place < LIMIT) }
{
    for place in 0..cnf.len() as u32 {
        if !is_true(assignment, cnf.clause(place as usize)) {
            return Some(place);
        }
    }
    None
}

/// Whether a literal of the clause is true.
fn is_true(assignment: &Assignment, clause: &[Lit]) -> bool
    requires { IsTrue (is_within (length assignment.now) clause.now) }
    ensures { result ≡ clause_true (value_in assignment.now) clause.now }
{
    for lit in clause {
        if assignment.is_true(*lit) {
            return true;
        }
    }
    false
}
