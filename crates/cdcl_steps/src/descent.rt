//! From one conflict to the next.
ghost use Rattle.std.specs.Prelude.{◌≡◌, ◌^◌, ◌<◌, IfOk, IfSome, IsNone, length};
ghost use Rattle.cdcl_clauses.specs.Invariants.{AreConsistent, IsConflict};
ghost use Rattle.cdcl_steps.specs.Descents.{IsFull, Descends};

use crate::choice::next_open;
use cdcl_activity::Activity;
use cdcl_clauses::{Clauses, Watches};
use cdcl_literals::ClauseId;
use cdcl_propagate::propagate;
use cdcl_trail::Trail;
use std::alloc::AllocError;

/// Decides and propagates until there is a conflict, or no variable is open.
pub fn to_conflict(
    trail: &mut Trail,
    clauses: &mut Clauses,
    watches: &mut Watches,
    activity: &mut Activity,
    variables: u32,
) -> Result<Option<ClauseId>, AllocError>
    requires sound { AreConsistent trail.old clauses.old watches.old }
    requires variables { variables ≡ trail.old.variables }
    requires activity { activity.old ≡ variables }
    requires few { variables < 2 ^ 31 }
    ensures keeps { Descends trail.old clauses.old trail.new clauses.new watches.new }
    ensures activity { activity.new ≡ activity.old }
    ensures full { IfOk result (λ found. IsNone found → IsFull trail.new) }
    ensures propagated { IfOk result (λ found. IsNone found → trail.new.propagated ≡ length trail.new.literals) }
    ensures conflict { IfOk result (λ found. IfSome found (IsConflict trail.new clauses.new)) }
{
    loop {
        if let Some(conflict) = propagate(trail, clauses, watches)? {
            return Ok(Some(conflict));
        }
        match next_open(trail, activity, variables) {
            None => return Ok(None),
            Some(variable) => {
                let literal = activity.literal(variable);
                trail.decide(literal);
            }
        }
    }
}
