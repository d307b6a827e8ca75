//! Names of threads for groups of rules.
ghost use Rattle.std.specs.Prelude.{◌≡◌, ◌<◌, [], ◌∷◌, length, map, IfOk, Some};
ghost use Rattle.std.specs.List.{All};
ghost use Rattle.why_impossible.specs.Reasons.{cause_reason, name_at, reason_of};
ghost use Rattle.why_impossible.specs.helpers.There.{IsSmall, IsThere};

use crate::{Reason, Reasons};
use dead_paths::Cause;
use order_formula::Group;
use path_walk::Paths;
use std::alloc::{AllocError, Global};
use tc_base::ThreadName;

/// A reason for each group.
pub(crate) fn named(alloc: Global, paths: &Paths, groups: &[Group]) -> Result<Reasons, AllocError>
    requires { All (IsThere paths.now) groups.now }
    ensures told { IfOk result (λ reasons. map (reason_of paths.now) groups.now ≡ map Some reasons) }
    ensures small { IfOk result (All IsSmall) }
{
    let mut reasons = Vec::new(alloc);
    for group in groups {
        reasons.push(reason_of(paths, *group)?)?;
    }
    Ok(Reasons::new(reasons))
}

/// The cause of dead paths as the only reason.
pub(crate) fn caused(alloc: Global, cause: &Cause) -> Result<Reasons, AllocError>
    ensures { IfOk result (λ reasons. reasons ≡ cause_reason cause.now ∷ []) }
{
    let name = cause.name().clone()?;
    let mut reasons = Vec::new(alloc);
    reasons.push(Reason::Dead(name, cause.line()))?;
    Ok(Reasons::new(reasons))
}

/// The reason of a group.
fn reason_of(paths: &Paths, group: Group) -> Result<Reason, AllocError>
    requires { IsThere paths.now group }
    ensures told { IfOk result (λ reason. reason_of paths.now group ≡ Some reason) }
    ensures small { IfOk result IsSmall }
{
    match group {
        Group::Own { thread } => Ok(Reason::Own(name_at(paths, thread)?)),
        Group::Child { thread } => Ok(Reason::Child(name_at(paths, thread)?)),
        Group::Read { thread, line } => Ok(Reason::Read(name_at(paths, thread)?, line)),
        Group::Mutex(mutex) => Ok(Reason::Mutex(mutex)),
        Group::Condition(condition) => Ok(Reason::Condition(condition)),
        Group::Test { thread, line } => Ok(Reason::Test(name_at(paths, thread)?, line)),
        Group::Stuck { thread } => Ok(Reason::Stuck(name_at(paths, thread)?)),
    }
}

/// The name of the thread at an index among the paths.
fn name_at(paths: &Paths, thread: usize) -> Result<ThreadName, AllocError>
    requires { thread < length paths.now.threads }
    ensures { IfOk result (λ name. name_at paths.now thread ≡ Some name) }
{
    paths.threads()[thread].name().clone()
}
