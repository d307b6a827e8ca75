//! The results of a search.

use clap_system::Which;
use log_walk::LeftOut;
use refute_check::Derivation;
use run_log::Log;

/// A log that no moves reproduce, and a derivation that is closed on its clauses.
#[derive(Debug, Drop)]
pub struct Refuted {
    pub log: Log,
    pub derivation: Derivation,
}

/// Why it isn't known whether some moves reproduce a log.
#[derive(Clone, Copy, Debug)]
pub enum Reason {
    /// The search for a schedule learnt as many clauses as the budget allows.
    Spent,
    /// The paths have too many of something: their number, and the limit.
    Limit(Which, u64, u64),
}

/// A log of which it isn't known whether some moves reproduce it.
#[derive(Debug, Drop)]
pub struct Unknown {
    pub log: Log,
    pub reason: Reason,
}

/// The runs that were ruled out.
#[derive(Clone, Copy, Debug, PartialEq, Eq)]
pub enum Reach {
    /// All runs.
    Every,
    /// Those in which each thread has at most the asked number of outcomes.
    Bounded,
}

/// The result of a search.
#[derive(Debug, Drop)]
pub enum Found {
    /// Some moves reproduce this log.
    Possible(Log),
    /// No run ends as asked: no moves reproduce any of the logs gone through.
    Never(Reach),
    /// No log was found possible, and of this one, the first such, it isn't known.
    Unknown(Unknown),
    /// There are more logs than asked for.
    TooMany,
    /// No log was found possible, and some have too many threads, too many steps or too long a name.
    LeftOut(LeftOut),
}

/// The result of a search, and what it rests on.
#[derive(Debug, Drop)]
pub struct Searched {
    pub found: Found,
    /// Logs that no moves reproduce, in the order in which they were gone through, up to the first of
    /// which it isn't known.
    pub refuted: Vec<Refuted>,
}
