//! How runs end.
use tc_base::ThreadName;
use tc_record::Which;

/// A failure of a run.
#[derive(Drop)]
pub struct Failure {
    /// The thread that failed.
    pub name: ThreadName,
    /// The line of its failing instruction, from 1.
    pub line: u32,
    /// The number of moves, including drains.
    pub moves: usize,
}

/// The end of a run with a log.
#[derive(Drop)]
pub enum Outcome {
    /// A thread failed.
    Failed(Failure),
    /// After this many moves, including drains, none was enabled, and some thread hadn't exited.
    Deadlock(usize),
}

/// The end of a run without a log.
#[derive(Clone, Copy)]
pub enum Ending {
    /// Every thread exited.
    Finished,
    /// The run made as many moves as allowed.
    StepLimit(usize),
    /// The run exceeded this limit by one.
    Over(Which),
}

/// How a run ended.
#[derive(Drop)]
pub enum Ran {
    /// So, and this is the text of its log.
    Logged(Outcome, Vec<u8>),
    /// So, without a log.
    Unlogged(Ending),
}
