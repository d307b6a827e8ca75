//! A search and its answer.

use crate::state::State;

/// Whether a search has its answer.
#[derive(Debug, Clone, Copy, PartialEq, Eq)]
pub(crate) enum Stage {
    Going,
    Satisfied,
    Closed,
}

/// A search, and its answer, if there is one.
#[derive(Debug, Drop)]
pub(crate) struct StagedSearch {
    pub(crate) state: State,
    pub(crate) stage: Stage,
    /// The values of all variables, once they satisfy every clause.
    pub(crate) values: Vec<bool>,
}
