//! Repeated searches, each for fewer context switches.
ghost use Rattle.std.specs.Prelude.{◌≡◌, ◌≤◌, IfOk, IfErr};
ghost use Rattle.schedule_file.specs.tc_limits.declared.limits.TheConstants.{BUDGET};
ghost use Rattle.clap_system.specs.Faults.{IsBuildFault};
ghost use Rattle.clap_solve.specs.Posed.{IsGiven};
ghost use Rattle.least_switch.specs.Least.{IsLeast};
ghost use Rattle.least_switch.specs.helpers.Found.{IsBest};

use crate::Least;
use crate::best::Best;
use crate::stages::{fewer, first};
use cdcl_core::Answer;
use clap_system::BuildFault;
use run_log::Log;
use std::alloc::Global;
use store_buffers::MemoryModel;
use tc_code::Code;

/// Searches for a schedule of a log with the fewest context switches: first for any, as
/// [`solve`](clap_solve::solve) does, and then for one with fewer than the last, until a derivation
/// proves that there is none. Each search may learn as many clauses as the budget says.
///
/// Fails if the log has no clauses; see [`build`](clap_system::build).
pub fn least<M: MemoryModel>(
    alloc: Global,
    code: &Code,
    log: &Log,
    budget: u32,
) -> Result<Least, BuildFault>
    requires some { 1 ≤ budget }
    requires room { budget ≤ BUDGET }
    ensures ok { IfOk result (IsLeast M.ops M.MODEL M.bound code.now log.now.log budget) }
    ensures err { IfErr result (IsBuildFault code.now log.now.log) }
{
    match first::<M>(alloc, code, log, budget)? {
        Answer::Found(best) => fewest::<M>(alloc, code, log, best, budget),
        Answer::Impossible(derivation) => Ok(Least::Impossible(derivation)),
        Answer::Spent(derivation) => Ok(Least::Spent(derivation)),
    }
}

/// Searches for schedules with fewer context switches than the best so far, while one is found.
fn fewest<M: MemoryModel>(
    alloc: Global,
    code: &Code,
    log: &Log,
    first: Best,
    budget: u32,
) -> Result<Least, BuildFault>
    requires given { IsGiven code.now log.now.log }
    requires best { IsBest M.ops M.MODEL code.now log.now.log first }
    requires some { 1 ≤ budget }
    requires room { budget ≤ BUDGET }
    ensures ok { IfOk result (IsLeast M.ops M.MODEL M.bound code.now log.now.log budget) }
    ensures err { IfErr result (IsBuildFault code.now log.now.log) }
{
    let mut best = first;
    while best.switches > 0 {
        match fewer::<M>(alloc, code, log, best.switches - 1, &best.world, budget)? {
            Answer::Found(next) => best = next,
            Answer::Impossible(derivation) => {
                return Ok(Least::Found(best.schedule, best.switches, Some(derivation)));
            }
            Answer::Spent(derivation) => {
                return Ok(Least::SpentAt(best.schedule, best.switches, derivation));
            }
        }
    }
    Ok(Least::Found(best.schedule, best.switches, None))
}
