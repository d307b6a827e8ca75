//! Deleting learnt clauses.
ghost use Rattle.std.specs.Prelude.{◌≡◌, ◌&&◌, true, false, ℕ, ◌*◌, ◌+◌, ◌<◌, ◌≤◌, List, All, IfOk, IsTrue, OnOk, MatchOption, not, length};
ghost use Rattle.std.specs.Prelude.{slice_index_or, None, Some, fold};
ghost use Rattle.cdcl_clauses.specs.Clauses.{at};
ghost use Rattle.cdcl_clauses.specs.Invariants.{AreConsistent, AreRooted};
ghost use Rattle.cdcl_clauses.specs.declared.watches.Watch.{Watch};
ghost use Rattle.cdcl_clauses.specs.Clauses.{dropped};
ghost use Rattle.cdcl_core.specs.helpers.States.{MarksReasons, HasBound, NoneMayGo};
ghost use Rattle.cdcl_trail.specs.Trail.{Trail, IsNoReason};

use crate::state::State;
use cdcl_clauses::Clauses;
use cdcl_lines::delete_line;
use cdcl_literals::ClauseId;
use cdcl_steps::forget;
use cdcl_trail::Trail;
use std::alloc::{AllocError, Global};

/// Half of the deletable clauses are deleted once this many more may be.
const MANY: u32 = 4000;

impl State {
    ghost use Rattle.cdcl_core.specs.helpers.States.{IsLive, IsFurther, MayGo, MayAllGo};

    /// If many clauses may be deleted, deletes half of the learnt ones that aren't reasons, first
    /// the least recently used ones, and last those of one or two literals.
    pub(crate) fn reduce(&mut self, alloc: Global) -> Result<(), AllocError>
        requires { IsLive self.old }
        ensures live { IsLive self.new }
        ensures further { IsFurther self.old self.new 0 }
        ensures bound { OnOk result (HasBound self.new.formula.vars self.new.added self.new.deleted) }
    {
        let spare = self.added / 2 - self.deleted;
        if spare < MANY {
            return Ok(());
        }
        let chosen = self.choose(alloc, spare as usize)?;
        if chosen.is_empty() {
            return Ok(());
        }
        self.drop_all(alloc, chosen.as_slice())
    }

    /// Half of the clauses that may be deleted, but at most `most`.
    fn choose(&self, alloc: Global, most: usize) -> Result<Vec<ClauseId>, AllocError>
        requires live { IsLive self.now }
        requires some { 0 < most }
        ensures may { IfOk result (λ chosen. MayAllGo self.now chosen.items) }
        ensures few { IfOk result (λ chosen. length chosen.items ≤ most) }
        ensures none { IfOk result (λ chosen. length chosen.items ≡ 0 → self.now.added ≤ self.now.deleted + self.now.formula.vars) }
    {
        let reasons = reasons_of(alloc, &self.trail, self.clauses.len())?;
        let chosen = self.choose_half(alloc, &reasons, most)?;
        if !chosen.is_empty() {
            return Ok(chosen);
        }
        match self.first_to_go(&reasons) {
            None => Ok(chosen),
            Some(clause) => {
                let mut first = Vec::new(alloc);
                first.push(clause)?;
                Ok(first)
            }
        }
    }

    /// Half of the clauses that may be deleted, but at most `most`.
    fn choose_half(
        &self,
        alloc: Global,
        reasons: &Vec<bool>,
        most: usize,
    ) -> Result<Vec<ClauseId>, AllocError>
        requires live { IsLive self.now }
        requires reasons { MarksReasons self.now.trail (length self.now.clauses) reasons.now.items }
        ensures may { IfOk result (λ chosen. MayAllGo self.now chosen.items) }
        ensures few { IfOk result (λ chosen. length chosen.items ≤ most) }
    {
        let threshold = self.threshold(alloc, reasons, most)?;
        let mut chosen = Vec::new(alloc);
        for number in self.formula.len() as u32..self.clauses.len() as u32 {
            let clause = ClauseId::new(number);
            if chosen.len() < most
                && self.may_go(reasons, clause)
                && self.worth(clause) < threshold
            {
                chosen.push(clause)?;
            }
        }
        Ok(chosen)
    }

    /// The first clause that may be deleted.
    fn first_to_go(&self, reasons: &Vec<bool>) -> Option<ClauseId>
        requires live { IsLive self.now }
        requires reasons { MarksReasons self.now.trail (length self.now.clauses) reasons.now.items }
        ensures { MatchOption result (NoneMayGo self.now reasons.now.items) (MayGo self.now) }
    {
        for number in self.formula.len() as u32..self.clauses.len() as u32 {
            let clause = ClauseId::new(number);
            if self.may_go(reasons, clause) {
                return Some(clause);
            }
        }
        None
    }

    /// The worth below which half of the deletable clauses are, but at most `most`.
    fn threshold(&self, alloc: Global, reasons: &Vec<bool>, most: usize) -> Result<u64, AllocError>
        requires live { IsLive self.now }
        requires reasons { MarksReasons self.now.trail (length self.now.clauses) reasons.now.items }
    {
        let mut worths = Vec::new(alloc);
        for number in self.formula.len() as u32..self.clauses.len() as u32 {
            let clause = ClauseId::new(number);
            if self.may_go(reasons, clause) {
                worths.push(self.worth(clause))?;
            }
        }
        worths.sort_unstable();
        let half = (worths.len() / 2).min(most);
        Ok(worths.get(half).copied().unwrap_or(u64::MAX))
    }

    /// Whether a learnt clause is kept and isn't a reason.
    fn may_go(&self, reasons: &Vec<bool>, clause: ClauseId) -> bool
        requires live { IsLive self.now }
        requires reasons { MarksReasons self.now.trail (length self.now.clauses) reasons.now.items }
        requires learnt { length self.now.formula.clauses ≤ clause }
        requires there { clause < length self.now.clauses }
        ensures may { IsTrue result → MayGo self.now clause }
        ensures exactly { result ≡ ((at self.now.clauses clause).kept && not (slice_index_or reasons.now.items clause false)) }
    {
        self.clauses.is_kept(clause) && !reasons[clause.index()]
    }

    /// The worth of a clause: when it was last used, and the most with one or two literals.
    fn worth(&self, clause: ClauseId) -> u64
        requires { clause < length self.now.clauses }
    {
        let used = u64::from(self.clauses.used(clause)) << 32 | clause.index() as u64;
        if self.clauses.literals(clause).len() > 2 {
            used
        } else {
            used | 1 << 63
        }
    }

    /// Drops these clauses, and writes the line that deletes them.
    fn drop_all(&mut self, alloc: Global, chosen: &[ClauseId]) -> Result<(), AllocError>
        requires live { IsLive self.old }
        requires some { 0 < length chosen.now }
        requires may { MayAllGo self.old chosen.now }
        requires few { 2 * (self.old.deleted + length chosen.now) ≤ self.old.added }
        ensures live { IsLive self.new }
        ensures further { IsFurther self.old self.new 0 }
        ensures deleted { OnOk result (self.old.deleted < self.new.deleted) }
    {
        let line = delete_line(alloc, chosen)?;
        self.derivation.push(line)?;
        forget_all(&mut self.clauses, chosen);
        self.deleted += chosen.len() as u32;
        Ok(())
    }
}

/// For each clause, whether it is a reason.
fn reasons_of(alloc: Global, trail: &Trail, clauses: usize) -> Result<Vec<bool>, AllocError>
    requires { (p k : ℕ) → p < length trail.now.literals → slice_index_or trail.now.reasons p None ≡ Some k → k < clauses }
    ensures { IfOk result (λ marks. MarksReasons trail.now clauses marks.items) }
{
    let mut marks = vec![in alloc; false; clauses]?;
    for place in 0..trail.len() {
        if let Some(reason) = trail.reason(place) {
            marks[reason.index()] = true;
        }
    }
    Ok(marks)
}

/// Drops these clauses, which mustn't be reasons.
fn forget_all(clauses: &mut Clauses, chosen: &[ClauseId])
    requires { All (λ k. k < length clauses.old) chosen.now }
    ensures after { clauses.new ≡ fold dropped clauses.old chosen.now }
    ensures sound { (t : Trail) (ws : List (List Watch)) → All (IsNoReason t) chosen.now → AreConsistent t clauses.old ws → AreConsistent t clauses.new ws }
    ensures rooted { (t : Trail) → AreRooted t clauses.old → AreRooted t clauses.new }
{
    for clause in chosen {
        forget(clauses, *clause);
    }
}

/// Records that these clauses are used.
pub(crate) fn touch_all(clauses: &mut Clauses, used: &[ClauseId], now: u32)
    ensures { clauses.new ≡ clauses.old }
{
    for clause in used {
        if clause.index() < clauses.len() {
            clauses.touch(*clause, now);
        }
    }
}
