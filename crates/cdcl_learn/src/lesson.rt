//! What was learnt.

use cdcl_literals::{ClauseId, Literal};

/// A learnt clause, its proof, and what to do next.
#[derive(Debug, Drop)]
pub struct Lesson {
    /// The literals of the clause, sorted.
    pub literals: Vec<Literal>,
    /// The clauses that prove it by unit propagation, in order; the last one becomes false.
    pub hints: Vec<ClauseId>,
    /// What to do next.
    pub turn: Turn,
}

/// What a search does after a conflict.
#[derive(Debug, Clone, Copy, PartialEq, Eq)]
pub enum Turn {
    /// Nothing: the clause is empty.
    Closed,
    /// Undo the levels from this one on and assert the literal that is open then, which is watched.
    Back {
        level: usize,
        asserted: Literal,
        beside: Literal,
    },
}
