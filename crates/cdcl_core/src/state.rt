//! The state of a running search.

use cdcl_activity::{Activity, Luby};
use cdcl_clauses::{Clauses, Watches};
use cdcl_trail::Trail;
use cnf_core::Cnf;
use refute_check::Derivation;
use std::alloc::{AllocError, Global};

/// A search that has no answer yet.
#[derive(Debug, Drop)]
pub(crate) struct State {
    pub(crate) formula: Cnf,
    pub(crate) trail: Trail,
    pub(crate) clauses: Clauses,
    pub(crate) watches: Watches,
    pub(crate) activity: Activity,
    pub(crate) derivation: Derivation,
    /// The number of lines that added a clause.
    pub(crate) added: u32,
    /// The number of deleted clauses.
    pub(crate) deleted: u32,
    /// When the search restarts.
    pub(crate) restarts: Restarts,
}

/// The restarts of a search: after numbers of conflicts that follow the Luby sequence.
#[derive(Debug, Drop)]
pub(crate) struct Restarts {
    luby: Luby,
    conflicts: u64,
}

/// The number of conflicts for each unit of the sequence.
const CONFLICTS: u64 = 100;

impl Restarts {
    pub(crate) fn new() -> Restarts {
        Restarts {
            luby: Luby::new(),
            conflicts: 0,
        }
    }

    /// Counts a conflict, and tells whether to restart.
    pub(crate) fn is_due(&mut self) -> bool {
        self.conflicts = self.conflicts.wrapping_add(1);
        if self.conflicts / CONFLICTS < self.luby.term() {
            return false;
        }
        self.luby.advance();
        self.conflicts = 0;
        true
    }
}
