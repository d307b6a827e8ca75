//! Loading the clauses that a search begins with.
ghost use Rattle.std.specs.Prelude.{◌≡◌, ℕ, ◌+◌, ◌<◌, ◌≤◌, [], List, IfOk, OnOk, OnErr, IfSome, MatchOption, length, slice_get, slice_index_or, Some, Contains};
ghost use Rattle.cnf_core.specs.declared.cnf.TheConstants.{LIMIT};
ghost use Rattle.cdcl_clauses.specs.Invariants.{AreRooted};
ghost use Rattle.cdcl_learn.specs.Shown.{Refutes};
ghost use Rattle.cdcl_core.specs.helpers.States.{HaveLiterals, IsEmptyAt, HasEnded};

use crate::state::{Restarts, State};
use cdcl_activity::Activity;
use cdcl_clauses::{Clauses, Watches};
use cdcl_learn::close;
use cdcl_lines::to_literals;
use cdcl_literals::ClauseId;
use cdcl_steps::{Loaded, load_clause};
use cdcl_trail::Trail;
use cnf_core::Cnf;
use refute_check::Derivation;
use std::alloc::{AllocError, Global};

/// A search, and whether its derivation is closed at once.
#[derive(Debug, Drop)]
pub(crate) struct Begun {
    pub(crate) state: State,
    pub(crate) is_closed: bool,
}

impl State {
    ghost use Rattle.cdcl_core.specs.helpers.States.{IsLoaded, HaveLiterals, IsEmptyAt, IsBegun, LoadsOne};

    /// A search over the clauses that tries these values first.
    pub(crate) fn begin(alloc: Global, cnf: &Cnf, first: &[bool]) -> Result<Begun, AllocError>
        ensures begun { IfOk result (λ b. IsBegun b.is_closed b.state) }
        ensures formula { IfOk result (λ b. b.state.formula ≡ cnf.now) }
        ensures none { IfOk result (λ b. b.state.added ≡ 0) }
    {
        let mut state = State::before_clauses(alloc, copy(alloc, cnf)?, first)?;
        if let Some(place) = first_empty(cnf) {
            state.close_by_empty(alloc, place)?;
            return Ok(Begun {
                state,
                is_closed: true,
            });
        }
        match state.load_all(alloc)? {
            None => Ok(Begun {
                state,
                is_closed: false,
            }),
            Some(conflict) => {
                state.close_by_unit(alloc, conflict)?;
                Ok(Begun {
                    state,
                    is_closed: true,
                })
            }
        }
    }

    /// Closes the derivation because a clause is empty.
    fn close_by_empty(&mut self, alloc: Global, place: usize) -> Result<(), AllocError>
        requires loaded { IsLoaded self.old 0 }
        requires empty { IsEmptyAt self.old.formula.clauses place }
        ensures over { OnOk result (HasEnded self.new) }
        ensures formula { self.new.formula ≡ self.old.formula }
        ensures none { self.new.added ≡ self.old.added }
    {
        let _len = self.formula.len();
        self.conclude(alloc, &[ClauseId::new(place as u32)])
    }

    /// Closes the derivation because the only literal of a clause is false.
    fn close_by_unit(&mut self, alloc: Global, conflict: ClauseId) -> Result<(), AllocError>
        requires loaded { IsLoaded self.old (length self.old.formula.clauses) }
        requires refutes { Refutes self.old.clauses self.old.trail.literals conflict }
        ensures over { OnOk result (HasEnded self.new) }
        ensures formula { self.new.formula ≡ self.old.formula }
        ensures none { self.new.added ≡ self.old.added }
    {
        let lesson = close(
            alloc,
            &self.trail,
            &self.clauses,
            &mut self.activity,
            conflict,
        )?;
        self.conclude(alloc, lesson.hints.as_slice())
    }

    /// A search before any clause that tries these values first.
    fn before_clauses(alloc: Global, formula: Cnf, first: &[bool]) -> Result<State, AllocError>
        ensures loaded { IfOk result (λ s. IsLoaded s 0) }
        ensures formula { IfOk result (λ s. s.formula ≡ formula) }
        ensures rooted { IfOk result (λ s. AreRooted s.trail s.clauses) }
    {
        let variables = formula.vars();
        let _len = formula.len();
        let trail = Trail::new(alloc, variables)?;
        let watches = Watches::new(alloc, 2 * variables as usize)?;
        let activity = Activity::new(alloc, variables, first)?;
        Ok(State {
            formula,
            trail,
            clauses: Clauses::new(alloc),
            watches,
            activity,
            derivation: Derivation::new(alloc),
            added: 0,
            deleted: 0,
            restarts: Restarts::new(),
        })
    }

    /// Loads all clauses, or returns one whose only literal is false.
    fn load_all(&mut self, alloc: Global) -> Result<Option<ClauseId>, AllocError>
        requires loaded { IsLoaded self.old 0 }
        requires rooted { AreRooted self.old.trail self.old.clauses }
        requires literals { HaveLiterals self.old.formula.clauses }
        ensures formula { self.new.formula ≡ self.old.formula }
        ensures loaded { OnOk result (IsLoaded self.new (length self.new.formula.clauses)) }
        ensures conflict { IfOk result (λ found. MatchOption found (AreRooted self.new.trail self.new.clauses)
            (Refutes self.new.clauses self.new.trail.literals)) }
    {
        let mut conflict = None;
        for place in 0..self.formula.len() {
            match self.load(alloc, place)? {
                Loaded::Taken => {}
                Loaded::Refuted => conflict = Some(ClauseId::new(place as u32)),
            }
        }
        Ok(conflict)
    }

    /// Loads the clause at an index.
    fn load(&mut self, alloc: Global, place: usize) -> Result<Loaded, AllocError>
        requires loaded { IsLoaded self.old place }
        requires place { place < length self.old.formula.clauses }
        requires literals { HaveLiterals self.old.formula.clauses }
        ensures formula { self.new.formula ≡ self.old.formula }
        ensures loaded { OnOk result (IsLoaded self.new (place + 1)) }
        ensures one { IfOk result (LoadsOne self.old self.new place) }
    {
        let literals = to_literals(alloc, self.formula.clause(place))?;
        load_clause(
            &mut self.trail,
            &mut self.clauses,
            &mut self.watches,
            literals.as_slice(),
        )
    }
}

/// The index of the first empty clause.
fn first_empty(cnf: &Cnf) -> Option<usize>
    ensures { MatchOption result (HaveLiterals cnf.now.clauses) (IsEmptyAt cnf.now.clauses) }
{
    for place in 0..cnf.len() {
        if cnf.clause(place).is_empty() {
            return Some(place);
        }
    }
    None
}

/// A copy of the clauses.
fn copy(alloc: Global, cnf: &Cnf) -> Result<Cnf, AllocError>
    ensures { IfOk result (λ c. c ≡ cnf.now) }
{
    let mut copy = Cnf::new(alloc, cnf.vars());
    for place in 0..cnf.len() {
        copy.push(cnf.clause(place))?;
    }
    Ok(copy)
}
