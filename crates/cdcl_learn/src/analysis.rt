//! The state of a conflict analysis.
ghost use Rattle.std.specs.Prelude.{◌≡◌, ℕ, ◌*◌, ◌<◌, ◌≤◌, ◌⊎◌, [], ◌∷◌, ◌++◌, true, None, IsSome, OnOk, IfOk, Contains, All, length, slice_index_or};
ghost use Rattle.cdcl_literals.specs.Literals.{opposite_of};
ghost use Rattle.cdcl_trail.specs.Trail.{IsTrail};
ghost use Rattle.cdcl_clauses.specs.Clauses.{at};
ghost use Rattle.cdcl_clauses.specs.Invariants.{IsClause, AreReasoned, BeginsAt};

use cdcl_activity::Activity;
use cdcl_clauses::Clauses;
use cdcl_literals::{ClauseId, Literal};
use cdcl_trail::Trail;
use std::alloc::AllocError;

/// A conflict's analysis so far: the places of the trail that were met and aren't resolved, the
/// number of them on the last level, the clause's literals from the levels between, and the clauses
/// used, starting with the conflict.
#[derive(Debug, Drop)]
pub(crate) struct Analysis {
    pub(crate) met: Vec<bool>,
    pub(crate) pending: usize,
    pub(crate) literals: Vec<Literal>,
    pub(crate) hints: Vec<ClauseId>,
}

/// Where the first level begins, and where the last does.
#[derive(Debug, Clone, Copy)]
pub(crate) struct Bounds {
    pub(crate) root: usize,
    pub(crate) base: usize,
}

impl Analysis {
    ghost use Rattle.cdcl_learn.specs.helpers.Analyses.{IsMet, Tallies, Marks, Meets, Suffices, Resolves, IsLast, IsCleared};

    /// Marks a place as met.
    fn mark(&mut self, trail: &Trail, place: usize, bounds: Bounds) -> Result<(), AllocError>
        requires place { place < length trail.now.literals }
        requires tallies { Tallies trail.now self.old.met.items self.old.pending bounds.root bounds.base self.old.literals.items }
        ensures tallies { Tallies trail.now self.new.met.items self.new.pending bounds.root bounds.base self.new.literals.items }
        ensures marks { OnOk result (Marks self.old.met.items self.new.met.items place) }
        ensures hints { self.new.hints ≡ self.old.hints }
    {
        if self.met[place] {
            return Ok(());
        }
        if place >= bounds.base {
            self.pending += 1;
        } else if place >= bounds.root {
            self.literals.push(trail.literal(place).opposite())?;
        }
        self.met[place] = true;
        Ok(())
    }

    /// Uses a clause whose literals, or their opposites, are all on the trail.
    pub(crate) fn meet(
        &mut self,
        trail: &Trail,
        clauses: &Clauses,
        activity: &mut Activity,
        clause: ClauseId,
        bounds: Bounds,
    ) -> Result<(), AllocError>
        requires lawful { IsTrail trail.now }
        requires clause { clause < length clauses.now }
        requires within { All (λ l. l < 2 * trail.now.variables) (at clauses.now clause).literals }
        requires there { (x : ℕ) → Contains (at clauses.now clause).literals x → Contains trail.now.literals x ⊎ Contains trail.now.literals (opposite_of x) }
        requires activity { activity.old ≡ trail.now.variables }
        requires tallies { Tallies trail.now self.old.met.items self.old.pending bounds.root bounds.base self.old.literals.items }
        ensures activity { activity.new ≡ activity.old }
        ensures tallies { Tallies trail.now self.new.met.items self.new.pending bounds.root bounds.base self.new.literals.items }
        ensures meets { OnOk result (Meets trail.now self.old.met.items self.new.met.items (at clauses.now clause).literals) }
        ensures hints { OnOk result (self.new.hints.items ≡ self.old.hints.items ++ clause ∷ []) }
    {
        for literal in clauses.literals(clause) {
            let place = trail.place(*literal);
            activity.bump(literal.variable());
            self.mark(trail, place, bounds)?;
        }
        self.hints.push(clause)?;
        Ok(())
    }

    /// Replaces a met place by its reason.
    pub(crate) fn resolve(
        &mut self,
        trail: &Trail,
        clauses: &Clauses,
        activity: &mut Activity,
        place: usize,
        bounds: Bounds,
    ) -> Result<(), AllocError>
        requires lawful { IsTrail trail.now }
        requires clauses { (k : ℕ) → k < length clauses.now → (at clauses.now k).kept ≡ true → IsClause trail.now.variables (at clauses.now k) }
        requires reasoned { AreReasoned trail.now clauses.now }
        requires place { place < length trail.now.literals }
        requires reason { IsSome (slice_index_or trail.now.reasons place None) }
        requires met { IsMet self.old.met.items place }
        requires activity { activity.old ≡ trail.now.variables }
        requires tallies { Tallies trail.now self.old.met.items self.old.pending bounds.root bounds.base self.old.literals.items }
        requires not_between { (place < bounds.root) ⊎ (bounds.base ≤ place) }
        requires suffices { Suffices trail.now clauses.now self.old.met.items self.old.hints.items }
        ensures activity { activity.new ≡ activity.old }
        ensures tallies { OnOk result (Tallies trail.now self.new.met.items self.new.pending bounds.root bounds.base self.new.literals.items) }
        ensures suffices { OnOk result (Suffices trail.now clauses.now self.new.met.items self.new.hints.items) }
        ensures resolves { OnOk result (Resolves self.old.met.items self.new.met.items place) }
    {
        let reason = trail.reason(place).unwrap();
        self.meet(trail, clauses, activity, reason, bounds)?;
        if place >= bounds.base {
            self.pending -= 1;
        }
        self.met[place] = false;
        Ok(())
    }

    /// Resolves the last level down to its first unique implication point, which is returned.
    pub(crate) fn uip(
        &mut self,
        trail: &Trail,
        clauses: &Clauses,
        activity: &mut Activity,
        bounds: Bounds,
    ) -> Result<usize, AllocError>
        requires lawful { IsTrail trail.now }
        requires clauses { (k : ℕ) → k < length clauses.now → (at clauses.now k).kept ≡ true → IsClause trail.now.variables (at clauses.now k) }
        requires reasoned { AreReasoned trail.now clauses.now }
        requires begins { (p : ℕ) → BeginsAt trail.now p → p ≤ bounds.base }
        requires activity { activity.old ≡ trail.now.variables }
        requires tallies { Tallies trail.now self.old.met.items self.old.pending bounds.root bounds.base self.old.literals.items }
        requires some { 0 < self.old.pending }
        requires suffices { Suffices trail.now clauses.now self.old.met.items self.old.hints.items }
        ensures activity { activity.new ≡ activity.old }
        ensures tallies { OnOk result (Tallies trail.now self.new.met.items self.new.pending bounds.root bounds.base self.new.literals.items) }
        ensures suffices { OnOk result (Suffices trail.now clauses.now self.new.met.items self.new.hints.items) }
        ensures last { IfOk result (IsLast trail.now self.new.met.items bounds.base) }
    {
        for place in (bounds.base..trail.len()).rev() {
            if self.met[place] {
                if self.pending == 1 {
                    return Ok(place);
                }
                self.resolve(trail, clauses, activity, place, bounds)?;
            }
        }
        unreachable!()
    }

    /// Resolves the places before the first level.
    pub(crate) fn clear_root(
        &mut self,
        trail: &Trail,
        clauses: &Clauses,
        activity: &mut Activity,
        bounds: Bounds,
    ) -> Result<(), AllocError>
        requires lawful { IsTrail trail.now }
        requires clauses { (k : ℕ) → k < length clauses.now → (at clauses.now k).kept ≡ true → IsClause trail.now.variables (at clauses.now k) }
        requires reasoned { AreReasoned trail.now clauses.now }
        requires root { bounds.root ≤ length trail.now.literals }
        requires begins { (p : ℕ) → BeginsAt trail.now p → bounds.root ≤ p }
        requires activity { activity.old ≡ trail.now.variables }
        requires tallies { Tallies trail.now self.old.met.items self.old.pending bounds.root bounds.base self.old.literals.items }
        requires suffices { Suffices trail.now clauses.now self.old.met.items self.old.hints.items }
        ensures activity { activity.new ≡ activity.old }
        ensures tallies { OnOk result (Tallies trail.now self.new.met.items self.new.pending bounds.root bounds.base self.new.literals.items) }
        ensures suffices { OnOk result (Suffices trail.now clauses.now self.new.met.items self.new.hints.items) }
        ensures cleared { OnOk result (IsCleared self.old.met.items self.new.met.items bounds.root) }
    {
        for place in (0..bounds.root).rev() {
            if self.met[place] {
                self.resolve(trail, clauses, activity, place, bounds)?;
            }
        }
        Ok(())
    }
}
