//! A look at a clause that watches a literal that has become false.
ghost use Rattle.std.specs.Prelude.{◌≡◌, ℕ, ◌*◌, ◌<◌, All, true, MatchOption};
ghost use Rattle.cdcl_clauses.specs.Clauses.{at};
ghost use Rattle.cdcl_clauses.specs.Invariants.{IsWatch, IsClause};
ghost use Rattle.cdcl_propagate.specs.helpers.Looks.{Finds, AllFalseBut, IsFound};

use cdcl_clauses::{Clauses, Watch};
use cdcl_literals::{ClauseId, Literal};
use cdcl_trail::{Trail, Value};

/// The outcome of a look.
#[derive(Debug, Clone, Copy)]
pub enum Look {
    /// A literal of the clause is true.
    Satisfied,
    /// The clause doesn't watch the literal any more, or isn't kept.
    Gone,
    /// The clause also watches `other`, and can watch `next`, which isn't false.
    Moves {
        clause: ClauseId,
        other: Literal,
        next: Literal,
    },
    /// All literals except `other`, which is open, are false.
    Forces {
        clause: ClauseId,
        other: Literal,
    },
    /// All literals are false.
    Conflict(ClauseId),
}

/// Looks at a watch of a literal that has become false.
pub fn look_at(trail: &Trail, clauses: &Clauses, watch: Watch, fallen: Literal) -> Look
    requires watch { IsWatch trail.now.variables clauses.now watch }
    requires clause { (at clauses.now watch.clause).kept ≡ true → IsClause trail.now.variables (at clauses.now watch.clause) }
    ensures { Finds trail.now clauses.now fallen watch result }
{
    if trail.value(watch.blocker) == Value::True {
        return Look::Satisfied;
    }
    let clause = watch.clause;
    if !clauses.is_watching(clause, fallen) {
        return Look::Gone;
    }
    let other = clauses.beside(clause, fallen);
    if trail.value(other) == Value::True {
        return Look::Satisfied;
    }
    if let Some(next) = not_false(trail, clauses.literals(clause), other) {
        return Look::Moves {
            clause,
            other,
            next,
        };
    }
    match trail.value(other) {
        Value::False => Look::Conflict(clause),
        Value::Open => Look::Forces { clause, other },
        Value::True => Look::Satisfied,
    }
}

/// A literal that isn't false and isn't `beside`.
fn not_false(trail: &Trail, literals: &[Literal], beside: Literal) -> Option<Literal>
    requires { All (λ l. l < 2 * trail.now.variables) literals.now }
    ensures { MatchOption result (AllFalseBut trail.now literals.now beside) (IsFound trail.now literals.now beside) }
{
    for literal in literals {
        if *literal != beside && trail.value(*literal) != Value::False {
            return Some(*literal);
        }
    }
    None
}
