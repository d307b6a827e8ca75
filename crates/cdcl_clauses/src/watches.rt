//! The watch lists of literals.
ghost use Rattle.std.specs.Prelude.{◌≡◌, ◌-◌, ◌<◌, [], ◌∷◌, ◌++◌, IfOk, OnOk, OnErr, length, take, slice_set, slice_index_or, replicate};

use cdcl_literals::{ClauseId, Literal};
use std::alloc::{AllocError, Global};
use std::marker::Model;

/// A clause that watches a literal, and another of its literals: if it is true, skip the clause.
#[derive(Debug, Clone, Copy)]
pub struct Watch {
    pub clause: ClauseId,
    pub blocker: Literal,
}

/// For each literal the clauses that watch it, unordered, maybe with stale ones; seen as lists.
#[derive(Debug, Drop)]
pub struct Watches {
    lists: Vec<Vec<Watch>>,
}

impl Model for Watches {
    ghost use Rattle.std.specs.Prelude.{List, map};
    ghost use Rattle.cdcl_clauses.specs.declared.watches.Watch.{Watch};

    ghost Value = { List (List Watch) };

    ghost view = { λ a. map (λ v. v.items) a.lists.items };
}

impl Watches {
    ghost use Rattle.cdcl_clauses.specs.Clauses.{listed, without_place};

    /// Empty watch lists for `literals` literals.
    pub fn new(alloc: Global, literals: usize) -> Result<Watches, AllocError>
        ensures { IfOk result (λ ws. ws ≡ replicate literals []) }
    {
        let mut lists = Vec::with_capacity(alloc, literals)?;
        for _ in 0..literals {
            lists.push(Vec::new(alloc))?;
        }
        Ok(Watches { lists })
    }

    /// The length of a literal's list.
    pub fn count(&self, literal: Literal) -> usize
        requires { literal < length self.now }
        ensures { result ≡ length (listed self.now literal) }
    {
        self.lists[literal.index()].len()
    }

    /// The watch at a place of a literal's list.
    pub fn get(&self, literal: Literal, place: usize) -> Watch
        requires literal { literal < length self.now }
        requires place { place < length (listed self.now literal) }
        ensures { result ≡ slice_index_or (listed self.now literal) place result }
    {
        self.lists[literal.index()][place]
    }

    /// Appends a watch to a literal's list.
    pub fn push(&mut self, literal: Literal, watch: Watch) -> Result<(), AllocError>
        requires { literal < length self.old }
        ensures ok { OnOk result (self.new ≡ slice_set self.old literal (listed self.old literal ++ watch ∷ [])) }
        ensures err { OnErr result (self.new ≡ self.old) }
    {
        self.lists[literal.index()].push(watch)?;
        Ok(())
    }

    /// Removes the last watch of a literal's list.
    pub fn pop(&mut self, literal: Literal)
        requires { literal < length self.old }
        ensures { self.new ≡ slice_set self.old literal (take (length (listed self.old literal) - 1) (listed self.old literal)) }
    {
        let _ = self.lists[literal.index()].pop();
    }

    /// Removes the watch at a place of a literal's list; the last one takes its place.
    pub fn remove(&mut self, literal: Literal, place: usize)
        requires literal { literal < length self.old }
        requires place { place < length (listed self.old literal) }
        ensures { self.new ≡ slice_set self.old literal (without_place (listed self.old literal) place) }
    {
        self.lists[literal.index()].swap_remove(place);
    }
}
