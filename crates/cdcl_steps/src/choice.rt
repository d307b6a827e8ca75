//! Which variable to decide.
ghost use Rattle.std.specs.Prelude.{◌≡◌, ◌^◌, ◌<◌, MatchOption};
ghost use Rattle.cdcl_steps.specs.Descents.{IsFull, IsChosen};

use cdcl_activity::Activity;
use cdcl_literals::Variable;
use cdcl_trail::{Trail, Value};

/// The most active open variable, or one that the heap has lost; `None` if no variable is open.
pub fn next_open(trail: &Trail, activity: &mut Activity, variables: u32) -> Option<Variable>
    requires variables { variables ≡ trail.now.variables }
    requires activity { activity.old ≡ variables }
    requires few { variables < 2 ^ 31 }
    ensures activity { activity.new ≡ activity.old }
    ensures found { MatchOption result (IsFull trail.now) (IsChosen trail.now) }
{
    for _ in 0..variables {
        match activity.pop() {
            None => break,
            Some(variable) => {
                if trail.value(variable.positive()) == Value::Open {
                    return Some(variable);
                }
            }
        }
    }
    first_open(trail, variables)
}

/// The first open variable.
fn first_open(trail: &Trail, variables: u32) -> Option<Variable>
    requires variables { variables ≡ trail.now.variables }
    requires few { variables < 2 ^ 31 }
    ensures { MatchOption result (IsFull trail.now) (IsChosen trail.now) }
{
    for number in 0..variables {
        let variable = Variable::new(number);
        if trail.value(variable.positive()) == Value::Open {
            return Some(variable);
        }
    }
    None
}
