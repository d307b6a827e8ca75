//! A certificate that no run ends in a failure or a deadlock, read in pieces: each of its lines is
//! checked as soon as it is read, without any search for schedules.
//!
//! Only the unfinished line and the clauses of one log are kept.
#![tactic(auto)]

mod checks;
mod incoming;
mod lines;
mod verdict;
mod wrong;

pub use incoming::Incoming;
pub use verdict::Verdict;
