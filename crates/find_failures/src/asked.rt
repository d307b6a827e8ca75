//! What a search looks for.

use log_walk::Kind;

/// What a search looks for, and how far it goes.
#[derive(Clone, Copy, Debug)]
pub struct Asked {
    /// How the runs end.
    pub kind: Kind,
    /// The greatest number of outcomes of a thread.
    pub outcomes: u16,
    /// The greatest number of logs.
    pub logs: u32,
    /// The number of clauses that the search for a schedule of one log may learn.
    pub budget: u32,
}
