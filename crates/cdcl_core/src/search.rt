//! A search that can be paused.
ghost use Rattle.std.specs.Prelude.{◌≡◌, ◌+◌, ◌<◌, ◌≤◌, Some, None, IfOk, OnErr};
ghost use Rattle.cdcl_core.specs.Searches.{count_of_added, IsSearched};
ghost use Rattle.tc_limits.specs.declared.limits.TheConstants.{BUDGET};

use crate::progress::Progress;
use crate::stages::StagedSearch;
use crate::state::State;
use cnf_core::Cnf;
use refute_check::Derivation;
use std::alloc::{AllocError, Global};
use std::marker::Model;

/// A search for a satisfying assignment, which can be paused before its answer.
///
/// Contracts see its clauses, its lines so far, and its answer.
#[derive(Debug, Drop)]
pub struct Search {
    staged: StagedSearch,
}

impl Model for Search {
    ghost use Rattle.cdcl_core.specs.Searches.{Searched};

    ghost Value = { Searched };

    ghost use Rattle.cdcl_core.specs.helpers.Stages.{searched_of, IsStaged};

    ghost view = { λ a. searched_of a.staged };

    ghost invariant = { λ a. IsStaged a.staged };
}

impl Search {
    ghost use Rattle.cdcl_core.specs.Searches.{GoesOn, Answers};

    /// A search over a copy of the clauses.
    ///
    /// The value tried first for the variable `v` is `first[v - 1]`, or false past its end. If
    /// these values satisfy the clauses, or nearly do, the search is short; whatever they are, its
    /// answers are right.
    pub fn new(alloc: Global, cnf: &Cnf, first: &[bool]) -> Result<Search, AllocError>
        ensures formula { IfOk result (λ s. s.formula ≡ cnf.now) }
        ensures none { IfOk result (λ s. count_of_added s.lines ≡ 0) }
        ensures lawful { IfOk result IsSearched }
    {
        let staged = StagedSearch::begin(alloc, cnf, first)?;
        Ok(Search { staged })
    }

    /// Runs until there is an answer, or pauses after `conflicts` more clauses are learnt. Once
    /// there is an answer, it stays the same. If there is no memory, the search may be run again.
    pub fn run(&mut self, alloc: Global, conflicts: u32) -> Result<Progress, AllocError>
        requires some { 1 ≤ conflicts }
        requires room { count_of_added self.old.lines + conflicts ≤ BUDGET }
        ensures goes_on { GoesOn self.old self.new }
        ensures lawful { IsSearched self.new }
        ensures answers { IfOk result (Answers self.old self.new conflicts) }
        ensures answered { (p : Progress) → self.old.answer ≡ Some p → (self.new ≡ self.old) × IfOk result (λ q. q ≡ p) }
        ensures err { OnErr result (count_of_added self.new.lines < count_of_added self.old.lines + conflicts) }
        ensures err_open { OnErr result (self.old.answer ≡ None → self.new.answer ≡ None) }
    {
        self.staged.run(alloc, conflicts)
    }

    /// Its lines so far.
    pub fn derivation(&self) -> &Derivation
        ensures lines { result.now ≡ self.now.lines }
        ensures lawful { IsSearched self.now }
    {
        &self.staged.state.derivation
    }

    /// Its lines so far.
    pub fn into_derivation(self) -> Derivation
        ensures lines { result ≡ self.lines }
        ensures lawful { IsSearched self }
    {
        let Search { staged } = self;
        let StagedSearch { state, .. } = staged;
        let State { derivation, .. } = state;
        derivation
    }

    /// The number of its lines that add a nonempty clause.
    pub fn added(&self) -> u32
        ensures added { result ≡ count_of_added self.now.lines }
        ensures few { result ≤ BUDGET }
    {
        self.staged.state.added
    }
}
