//! The line of a log.

use run_log::ThreadPath;
use std::marker::Model;
use tc_base::ThreadName;

/// What the line of a log says: the thread that fails, if the log is that of a failure, and each
/// thread's path.
#[derive(Debug, Drop)]
pub struct LogLine {
    /// The thread that fails. In a deadlock, none does.
    pub failing: Option<ThreadName>,
    /// The threads with their paths, in the order of the line.
    pub threads: Vec<ThreadPath>,
}

impl Model for LogLine {
    ghost use Rattle.none_certificates.specs.Certificates.{LogLine as PlainLine};

    ghost Value = { PlainLine };

    ghost view = { λ l. record { failing = l.failing; threads = l.threads.items } };
}
