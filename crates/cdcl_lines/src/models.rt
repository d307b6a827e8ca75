//! The assignment of a full trail.
ghost use Rattle.std.specs.Prelude.{◌≡◌, ◌<◌, ◌^◌, IfOk};
ghost use Rattle.cdcl_trail.specs.Trail.{IsTrail};
ghost use Rattle.cdcl_steps.specs.Descents.{IsFull};
ghost use Rattle.cdcl_lines.specs.Models.{Agrees, FullSatisfies};

use cdcl_literals::Variable;
use cdcl_trail::{Trail, Value};
use cnf_core::Assignment;
use std::alloc::{AllocError, Global};

/// The assignment that makes the literals of a trail true; open variables become false.
pub fn assignment_of(alloc: Global, trail: &Trail, variables: u32) -> Result<Assignment, AllocError>
    requires lawful { IsTrail trail.now }
    requires variables { variables ≡ trail.now.variables }
    requires few { variables < 2 ^ 31 }
    ensures { IfOk result (λ values. Agrees trail.now values) }
{
    let mut values = Vec::with_capacity(alloc, variables as usize)?;
    for number in 0..variables {
        let literal = Variable::new(number).positive();
        values.push(trail.value(literal) == Value::True)?;
    }
    Ok(Assignment::new(values))
}

/// If no variable is open and all is propagated without conflict, it satisfies each clause.
pub fn full_satisfies()
    ensures { FullSatisfies }
{}
