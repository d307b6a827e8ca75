//! Faults of searches as faults of commands.
ghost use Rattle.clap_system.specs.Faults.{IsBuildFault};
ghost use Rattle.command_inputs.specs.Forms.{IsWhy};
ghost use Rattle.log_tasks.specs.Refused.{HasNoClauses, part_of};
ghost use Rattle.run_log.specs.Logs.{Log};
ghost use Rattle.tc_code.specs.Code.{Code};
ghost use Rattle.std.specs.Prelude.{◌≡◌};

use clap_system::{BuildFault, Which};
use command_inputs::{Fault, LogPart, Refusal};

/// Why a log has no clauses, as a fault of a command.
pub fn refuse_built(fault: BuildFault) -> Fault
    ensures { (code : Code) (log : Log) → IsBuildFault code log fault → IsWhy (HasNoClauses code log) result }
{
    match fault {
        BuildFault::Limit(which, number, _) => {
            Fault::Refused(Refusal::LogOver(part_of(which), number))
        }
        BuildFault::Walk(fault) => Fault::from(fault),
        BuildFault::Memory => Fault::Memory,
    }
}

/// The part of a log that passes a limit.
fn part_of(which: Which) -> LogPart
    ensures { result ≡ part_of which }
{
    match which {
        Which::Threads => LogPart::Threads,
        Which::Depth => LogPart::Depth,
        Which::Events => LogPart::Events,
        Which::Operators => LogPart::Operators,
    }
}
