//! How the paths of threads end.

/// How the path of a thread ends.
#[derive(Clone, Copy, Debug, PartialEq, Eq)]
pub enum Ending {
    /// The thread fails in its last step.
    Fails,
    /// The thread has exited or is blocked: the run ended in a deadlock.
    Rests,
    /// The thread may be anywhere: another one failed.
    Open,
}
