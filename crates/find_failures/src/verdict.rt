//! What is known of one log.
ghost use Rattle.std.specs.Prelude.{◌≤◌, IfOk};
ghost use Rattle.tc_code.specs.tc_limits.declared.limits.TheConstants.{BUDGET};
ghost use Rattle.find_failures.specs.helpers.Verdicts.{IsVerdict};

use crate::found::Reason;
use clap_solve::{Answer, solve};
use clap_system::BuildFault;
use refute_check::Derivation;
use run_log::Log;
use std::alloc::{AllocError, Global};
use store_buffers::MemoryModel;
use tc_code::Code;

/// What is known of a log.
#[derive(Drop)]
pub(crate) enum Verdict {
    /// Some moves reproduce it.
    Possible,
    /// No moves do: the derivation is closed on its clauses.
    Impossible(Derivation),
    /// No moves do, since it doesn't fit the code.
    Unfit,
    /// It isn't known.
    Unknown(Reason),
}

/// Whether some moves reproduce a log.
pub(crate) fn decide<M: MemoryModel>(
    alloc: Global,
    code: &Code,
    log: &Log,
    budget: u32,
) -> Result<Verdict, AllocError>
    requires some { 1 ≤ budget }
    requires room { budget ≤ BUDGET }
    ensures { IfOk result (IsVerdict M.ops M.bound code.now log.now.log budget) }
{
    // Lawful code.
    let _functions = code.functions();
    match solve::<M>(alloc, code, log, budget) {
        Ok(Answer::Found(_)) => Ok(Verdict::Possible),
        Ok(Answer::Impossible(derivation)) => Ok(Verdict::Impossible(derivation)),
        Ok(Answer::Spent(_)) => Ok(Verdict::Unknown(Reason::Spent)),
        Err(BuildFault::Walk(_)) => Ok(Verdict::Unfit),
        Err(BuildFault::Limit(which, count, limit)) => {
            Ok(Verdict::Unknown(Reason::Limit(which, count, limit)))
        }
        Err(BuildFault::Memory) => Err(AllocError),
    }
}
