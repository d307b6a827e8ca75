//! The result of another solver's answer.

use schedule_file::Schedule;

/// The result of another solver's answer.
#[derive(Debug, Drop)]
pub enum Imported {
    /// The answer satisfies the clauses of the log, and this schedule reproduces the log.
    Found(Schedule),
    /// The clause of this number, from 1, is the first that the answer makes false.
    False(u32),
}
