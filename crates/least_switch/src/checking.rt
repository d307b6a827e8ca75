//! Checking derivations against the clauses of a log with a bound on context switches.
ghost use Rattle.std.specs.Prelude.{◌≡◌, ◌≤◌, IfOk, IfErr, OnOk};
ghost use Rattle.refute_check.specs.Refutations.{start};
ghost use Rattle.clap_system.specs.Faults.{IsBuildFault};
ghost use Rattle.clap_solve.specs.Solved.{IsWithin};
ghost use Rattle.switch_clauses.specs.Clauses.{switch_clauses};

use crate::bounded::pose_bounded;
use clap_system::BuildFault;
use refute_check::Checker;
use run_log::Log;
use std::alloc::Global;
use store_buffers::MemoryModel;
use tc_code::Code;

/// A checker over the clauses of a log with at most `most` context switches, before any line:
/// [`least`](crate::least) searches these clauses for a schedule with fewer.
///
/// If the derivation is closed, all moves that reproduce the log have more switches:
/// [`closed_is_more_switches`](switch_clauses::closed_is_more_switches).
pub fn check_least_start<M: MemoryModel>(
    alloc: Global,
    code: &Code,
    log: &Log,
    most: u32,
) -> Result<Checker, BuildFault>
    requires { most ≤ 255 }
    ensures ok { IfOk result (λ checker. checker ≡ start (switch_clauses M.BUFFERED M.bound code.now log.now.log most)) }
    ensures within { OnOk result (IsWithin code.now log.now.log) }
    ensures err { IfErr result (IsBuildFault code.now log.now.log) }
{
    let clauses = pose_bounded::<M>(alloc, code, log, most)?.into_clauses();
    Ok(Checker::new(alloc, &clauses)?)
}
