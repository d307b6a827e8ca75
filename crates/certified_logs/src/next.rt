//! The next log.

use clap_system::Which;
use log_walk::LeftOut;
use refute_check::Checker;
use run_log::Log;

/// What comes next.
#[derive(Drop)]
pub enum Next {
    /// This log, with a checker over its clauses.
    Log(Log, Checker),
    /// A log whose paths have too many of something: their number, and the limit.
    Limit(Which, u64, u64),
    /// No more logs. The search left these out.
    Done(LeftOut),
}
