//! The next outcomes after given ones.
ghost use Rattle.std.specs.Prelude.{IfOk};
ghost use Rattle.thread_paths.specs.helpers.Descents.{IsTurned};

use std::alloc::AllocError;

/// Turns the outcomes into the next ones after all that begin with them: makes the last false true,
/// and drops what follows it. There are none if all are true.
pub fn turn(outcomes: &mut Vec<bool>) -> Result<bool, AllocError>
    ensures { IfOk result (λ turned. IsTurned outcomes.old.items outcomes.new.items turned) }
{
    while let Some(last) = outcomes.pop() {
        if !last {
            outcomes.push(true)?;
            return Ok(true);
        }
    }
    Ok(false)
}
