//! The logs that a search looks for and leaves out.

/// How the runs of the logs end.
#[derive(Clone, Copy, Debug, PartialEq, Eq)]
pub enum Kind {
    /// A thread fails.
    Failure,
    /// Nothing can go on, and not every thread has exited.
    Deadlock,
}

/// The logs that a search looks for.
#[derive(Clone, Copy, Debug)]
pub struct Bounds {
    /// How their runs end.
    pub kind: Kind,
    /// The greatest number of outcomes of a thread.
    pub most: u16,
}

/// Whether logs were left out, by reason.
#[derive(Clone, Copy, Debug, PartialEq, Eq)]
pub struct LeftOut {
    /// A thread may have more outcomes than the caller allows.
    pub outcomes: bool,
    /// A thread may have more steps than a log holds.
    pub steps: bool,
    /// A thread may have too long a name.
    pub depth: bool,
    /// There may be too many threads.
    pub threads: bool,
}
