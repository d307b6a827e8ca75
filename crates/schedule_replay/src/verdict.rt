//! The verdicts of replays.

use tc_base::ThreadName;
use tc_machine::Why;

/// The verdict of a replay on a schedule: the first of the others that holds, in this order, and
/// `Reproduces` if none does.
#[derive(Debug, PartialEq, Eq, Drop)]
pub enum Verdict {
    /// The schedule leads to the log's failure or deadlock along the log's paths.
    Reproduces,
    /// The number, from 1, of the first move that isn't enabled, and why.
    Stops(usize, Why),
    /// No thread fails, but one does in the log.
    NoFailure,
    /// This thread fails, but it doesn't in the log.
    OtherFailure(ThreadName),
    /// The log is of a deadlock and no thread fails, but a move is enabled or every thread has
    /// exited.
    NotStuck,
    /// The least thread whose path differs: only the run or the log has it, or outcomes or steps
    /// differ.
    OtherPath(ThreadName),
}
