//! How far a search got.

use cnf_core::Assignment;

/// The result of a run of a search.
#[derive(Debug, Drop)]
pub enum Progress {
    /// This assignment satisfies every clause.
    Sat(Assignment),
    /// The derivation is closed: no assignment satisfies the clauses.
    Closed,
    /// The search learnt as many clauses as it was allowed, and found neither.
    Paused,
}
