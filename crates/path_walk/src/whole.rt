//! The walks of all threads of a log.
ghost use Rattle.std.specs.Prelude.{◌≡◌, ◌≤◌, length, IfOk, OnOk, IfErr};
ghost use Rattle.std.specs.List.{All};
ghost use Rattle.tc_code.specs.tc_limits.declared.limits.TheConstants.{STEPS, THREADS};
ghost use Rattle.path_walk.specs.Fits.{Fits, IsFault};
ghost use Rattle.path_walk.specs.Paths.{paths_of};

use crate::draft::Draft;
use crate::{Misfit, Paths, WalkFault};
use run_log::Log;
use std::alloc::Global;
use tc_base::ThreadName;
use tc_code::Code;

/// The walks of all threads of a log through the code, or the fault of the least name if the log
/// doesn't fit.
pub fn walk(alloc: Global, code: &Code, log: &Log) -> Result<Paths, WalkFault>
    requires { length log.now.log.threads ≤ THREADS }
    // The function returns paths only if the log fits.
    ensures fits { OnOk result (Fits code.now log.now.log) }
    // The paths are those of the code and the log.
    ensures paths { IfOk result (λ paths. paths ≡ paths_of code.now log.now.log) }
    // A log counts the steps of a thread in 16 bits.
    ensures steps { OnOk result (All (λ t. t.path.steps ≤ STEPS) log.now.log.threads) }
    // A fault is that of the least name that has one.
    ensures err { IfErr result (IsFault code.now log.now.log) }
{
    if !log.threads()[0].name().children().is_empty() {
        return Err(WalkFault::Unfit(ThreadName::main(alloc), Misfit::Missing));
    }
    let mut draft = Draft::new(alloc);
    for thread in log.threads() {
        draft.follow(alloc, code, log, thread)?;
    }
    draft.finish(log.failing())
}
