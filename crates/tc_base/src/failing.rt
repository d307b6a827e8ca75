//! How a logged run ended.

/// How a logged run ended.
#[derive(Clone, Copy, Debug, PartialEq, Eq)]
pub enum Failing {
    /// A thread failed: the one whose path has this place in the log.
    Thread(usize),
    /// No thread failed, no move was enabled, and some thread hadn't exited.
    Deadlock,
}
