//! The limits that a log meets if its paths can be walked.
ghost use Rattle.std.specs.Prelude.{◌≡◌, None, OnOk, IfErr};
ghost use Rattle.migrate_command.specs.Migrated.{IsExcess, excess_of};

use command_inputs::{LogPart, Refusal};
use run_log::Log;
use tc_limits::limits::{DEPTH, THREADS};

/// Refuses a log with too many threads, or one too deep.
pub(crate) fn refuse_excess(log: &Log) -> Result<(), Refusal>
    ensures within { OnOk result (excess_of log.now.log ≡ None) }
    ensures over { IfErr result (IsExcess log.now.log) }
{
    let count = log.threads().len();
    if count > THREADS {
        return Err(Refusal::LogOver(LogPart::Threads, count as u64));
    }
    match log.first_deeper(DEPTH) {
        Some(depth) => Err(Refusal::LogOver(LogPart::Depth, depth as u64)),
        None => Ok(()),
    }
}
