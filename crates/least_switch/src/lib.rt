//! Fewest context switches: from a program and a log to a schedule with as few switches as possible
//! that reproduces the log, and a proof that none has fewer.
#![tactic(auto)]

mod answer;
mod best;
mod bounded;
mod checking;
mod events;
mod levels;
mod searching;
mod stages;

pub use answer::Least;
pub use checking::check_least_start;
pub use searching::least;
