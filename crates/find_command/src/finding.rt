//! What a search finds in a program.

use find_failures::Reach;
use log_limits::Part;

/// What a search finds in a program.
#[derive(Drop)]
pub enum Finding {
    /// Some moves reproduce the log of this text.
    Possible(Vec<u8>),
    /// No run ends as asked, or none with few outcomes, as the certificate of this text shows.
    Never(Reach, Vec<u8>),
    /// It isn't known whether some moves reproduce the log of this text: the search for a schedule
    /// learnt as many clauses as the budget allows.
    Spent(Vec<u8>),
    /// There are more logs than asked for.
    TooMany,
    /// A log has this many of these, which are too many.
    Over(Part, u64),
}

/// What a search finds, and what it went through first.
#[derive(Drop)]
pub struct Findings {
    pub finding: Finding,
    /// The number of logs that no moves reproduce, up to the first of which it isn't known.
    pub impossible: usize,
}
