//! Checking derivations against the clauses of a log.
ghost use Rattle.std.specs.Prelude.{◌≡◌, IfOk, IfErr, OnOk};
ghost use Rattle.refute_check.specs.Refutations.{start};
ghost use Rattle.clap_system.specs.Faults.{IsBuildFault};
ghost use Rattle.clap_solve.specs.Clauses.{clauses_of};
ghost use Rattle.clap_solve.specs.Solved.{IsWithin};

use crate::posed::pose;
use clap_system::BuildFault;
use refute_check::Checker;
use run_log::Log;
use std::alloc::Global;
use store_buffers::MemoryModel;
use tc_code::Code;

/// A checker over the clauses of a log, in which [`solve`](crate::solve) searches, before any line.
///
/// If the derivation is closed, no moves reproduce the log:
/// [`closed_is_impossible`](crate::laws::closed_is_impossible).
pub fn check_start<M: MemoryModel>(
    alloc: Global,
    code: &Code,
    log: &Log,
) -> Result<Checker, BuildFault>
    ensures ok { IfOk result (λ checker. checker ≡ start (clauses_of M.BUFFERED M.bound code.now log.now.log)) }
    ensures within { OnOk result (IsWithin code.now log.now.log) }
    ensures err { IfErr result (IsBuildFault code.now log.now.log) }
{
    let clauses = pose::<M>(alloc, code, log)?.into_clauses();
    Ok(Checker::new(alloc, &clauses)?)
}
