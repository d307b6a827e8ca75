//! Loading the clauses that a search begins with.
ghost use Rattle.std.specs.Prelude.{◌≡◌, ◌≢◌, ℕ, ◌*◌, ◌<◌, ◌^◌, [], All, IfOk, OnErr, OnOk, length, slice_index, Contains};
ghost use Rattle.cdcl_clauses.specs.Invariants.{AreConsistent, AreRooted};
ghost use Rattle.cdcl_steps.specs.Loads.{IsAtStart, WasLoaded, MayBeLoaded, Loads};
ghost use Rattle.cdcl_steps.specs.helpers.Watched.{AreWatched};

use crate::attaching::attach;
use cdcl_clauses::{Clauses, Watches};
use cdcl_literals::Literal;
use cdcl_trail::{Trail, Value};
use std::alloc::AllocError;

/// The outcome of loading a clause.
#[derive(Debug, Clone, Copy, PartialEq, Eq)]
pub enum Loaded {
    /// The clause was taken; the literal of a unit clause is true.
    Taken,
    /// The clause was taken, and its only literal is false.
    Refuted,
}

/// Loads a clause before anything is propagated, and makes the open literal of a unit clause true.
/// If there is no memory, nothing changes.
pub fn load_clause(
    trail: &mut Trail,
    clauses: &mut Clauses,
    watches: &mut Watches,
    literals: &[Literal],
) -> Result<Loaded, AllocError>
    requires sound { AreConsistent trail.old clauses.old watches.old }
    requires start { IsAtStart trail.old }
    requires few { length clauses.old < 2 ^ 32 }
    requires literals { MayBeLoaded trail.old.variables literals.now }
    ensures sound { AreConsistent trail.new clauses.new watches.new }
    ensures start { IsAtStart trail.new }
    ensures variables { trail.new.variables ≡ trail.old.variables }
    ensures longer { (x : ℕ) → Contains trail.old.literals x → Contains trail.new.literals x }
    ensures clauses { OnOk result (WasLoaded clauses.old clauses.new literals.now) }
    ensures loads { IfOk result (Loads trail.old clauses.old trail.new clauses.new literals.now) }
{
    let (first, second) = watched(literals);
    let clause = clauses.next_id();
    attach(clauses, watches, literals, first, second)?;
    if literals.len() > 1 {
        return Ok(Loaded::Taken);
    }
    match trail.value(first) {
        Value::True => Ok(Loaded::Taken),
        Value::False => Ok(Loaded::Refuted),
        Value::Open => {
            trail.imply(first, clause);
            Ok(Loaded::Taken)
        }
    }
}

/// The literals that a clause watches: its first two, or its only one twice.
fn watched(literals: &[Literal]) -> (Literal, Literal)
    requires { 0 < length literals.now }
    ensures { AreWatched literals.now result.0 result.1 }
{
    let first = literals[0];
    if literals.len() == 1 {
        (first, first)
    } else {
        (first, literals[1])
    }
}
