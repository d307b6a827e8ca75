//! One conflict after the other.
ghost use Rattle.std.specs.Prelude.{◌≡◌, ℕ, ◌+◌, ◌*◌, ◌^◌, ◌<◌, ◌≤◌, [], ◌∷◌, ◌++◌, All, IfOk, IfSome, IsNone, OnOk, OnErr, length};
ghost use Rattle.cnf_core.specs.declared.cnf.TheConstants.{LIMIT};
ghost use Rattle.refute_check.specs.declared.line.TheConstants.{LINES};
ghost use Rattle.cdcl_trail.specs.Trail.{cut_to};
ghost use Rattle.cdcl_clauses.specs.Invariants.{IsConflict};
ghost use Rattle.cdcl_learn.specs.Lessons.{IsLesson};
ghost use Rattle.cdcl_learn.specs.Shown.{Shows};
ghost use Rattle.cdcl_steps.specs.Attached.{CanAssert};
ghost use Rattle.cdcl_lines.specs.Literals.{Rise};
ghost use Rattle.cdcl_lines.specs.Lines.{added};
ghost use Rattle.cdcl_core.specs.Searches.{IsSolution};
ghost use Rattle.tc_limits.specs.declared.limits.TheConstants.{BUDGET};
ghost use Rattle.cdcl_core.specs.helpers.States.{HasBound};

use crate::reducing::touch_all;
use crate::state::State;
use cdcl_learn::{Lesson, Turn, analyze, close};
use cdcl_lines::{add_line, assignment_of, sort_lesson};
use cdcl_literals::{ClauseId, Literal};
use cdcl_steps::{attach, detach, go_back, to_conflict};
use refute_check::Derivation;
use std::alloc::{AllocError, Global};

/// The result of a turn.
#[derive(Debug, Drop)]
pub(crate) enum Step {
    /// A clause was learnt.
    Learnt,
    /// The derivation is closed.
    Closed,
    /// These values of the variables satisfy every clause.
    Full(Vec<bool>),
}

impl State {
    ghost use Rattle.cdcl_core.specs.helpers.States.{IsLive, IsAsFar, IsFurther, IsShort, IsComplete, ComesTo, CanConclude, HasEnded};

    /// Takes `conflicts` turns, or stops at one that ends the search.
    pub(crate) fn go(&mut self, alloc: Global, conflicts: u32) -> Result<Step, AllocError>
        requires live { IsLive self.old }
        requires some { 0 < conflicts }
        requires room { self.old.added + conflicts ≤ BUDGET }
        ensures ok { IfOk result (ComesTo self.old self.new conflicts) }
        ensures err_live { OnErr result (IsLive self.new) }
        ensures err_short { OnErr result (IsShort self.old self.new conflicts) }
    {
        let mut done = 0;
        while done < conflicts {
            match self.turn(alloc)? {
                Step::Learnt => done += 1,
                Step::Closed => return Ok(Step::Closed),
                Step::Full(values) => return Ok(Step::Full(values)),
            }
        }
        Ok(Step::Learnt)
    }

    /// Deletes clauses if there are many, then goes to the next conflict and learns from it.
    fn turn(&mut self, alloc: Global) -> Result<Step, AllocError>
        requires live { IsLive self.old }
        requires room { self.old.added < BUDGET }
        ensures ok { IfOk result (ComesTo self.old self.new 1) }
        ensures err_live { OnErr result (IsLive self.new) }
        ensures err_further { OnErr result (IsFurther self.old self.new 0) }
    {
        self.reduce(alloc)?;
        self.step(alloc)
    }

    /// Goes to the next conflict and learns from it.
    fn step(&mut self, alloc: Global) -> Result<Step, AllocError>
        requires live { IsLive self.old }
        requires room { self.old.added < BUDGET }
        requires bound { HasBound self.old.formula.vars self.old.added self.old.deleted }
        ensures ok { IfOk result (ComesTo self.old self.new 1) }
        ensures err_live { OnErr result (IsLive self.new) }
        ensures err_same { OnErr result (IsAsFar self.old self.new) }
    {
        match self.descend()? {
            None => Ok(Step::Full(self.values(alloc)?)),
            Some(conflict) => {
                let lesson = self.lesson(alloc, conflict)?;
                self.take(alloc, lesson)
            }
        }
    }

    /// Decides until there is a conflict, or no variable is open.
    fn descend(&mut self) -> Result<Option<ClauseId>, AllocError>
        requires { IsLive self.old }
        ensures live { IsLive self.new }
        ensures same { IsAsFar self.old self.new }
        ensures complete { IfOk result (λ found. IsNone found → IsComplete self.new.trail) }
        ensures conflict { IfOk result (λ found. IfSome found (IsConflict self.new.trail self.new.clauses)) }
    {
        let variables = self.formula.vars();
        to_conflict(
            &mut self.trail,
            &mut self.clauses,
            &mut self.watches,
            &mut self.activity,
            variables,
        )
    }

    /// The values of all variables if none is open: they satisfy every clause.
    fn values(&self, alloc: Global) -> Result<Vec<bool>, AllocError>
        requires live { IsLive self.now }
        requires complete { IsComplete self.now.trail }
        ensures { IfOk result (λ values. IsSolution self.now.formula values.items) }
    {
        let assignment = assignment_of(alloc, &self.trail, self.formula.vars())?;
        Ok(assignment.into_values())
    }

    /// The lesson of a conflict.
    fn lesson(&mut self, alloc: Global, conflict: ClauseId) -> Result<Lesson, AllocError>
        requires live { IsLive self.old }
        requires conflict { IsConflict self.old.trail self.old.clauses conflict }
        ensures same { self.new ≡ self.old }
        ensures lesson { IfOk result (IsLesson self.old.trail self.old.clauses) }
        ensures rise { IfOk result (λ l. Rise l.literals.items) }
    {
        let mut lesson = self.study(alloc, conflict)?;
        sort_lesson(&mut lesson);
        self.activity.decay();
        Ok(lesson)
    }

    /// The lesson of a conflict, unsorted.
    fn study(&mut self, alloc: Global, conflict: ClauseId) -> Result<Lesson, AllocError>
        requires live { IsLive self.old }
        requires conflict { IsConflict self.old.trail self.old.clauses conflict }
        ensures same { self.new ≡ self.old }
        ensures lesson { IfOk result (IsLesson self.old.trail self.old.clauses) }
    {
        if self.trail.levels() == 0 {
            close(
                alloc,
                &self.trail,
                &self.clauses,
                &mut self.activity,
                conflict,
            )
        } else {
            analyze(
                alloc,
                &self.trail,
                &self.clauses,
                &mut self.activity,
                conflict,
            )
        }
    }

    /// Writes the line of a lesson, and keeps its clause.
    fn take(&mut self, alloc: Global, lesson: Lesson) -> Result<Step, AllocError>
        requires live { IsLive self.old }
        requires room { self.old.added < BUDGET }
        requires lesson { IsLesson self.old.trail self.old.clauses lesson }
        requires rise { Rise lesson.literals.items }
        requires bound { HasBound self.old.formula.vars self.old.added self.old.deleted }
        ensures ok { IfOk result (ComesTo self.old self.new 1) }
        ensures err_live { OnErr result (IsLive self.new) }
        ensures err_same { OnErr result (IsAsFar self.old self.new) }
    {
        let Lesson {
            literals,
            hints,
            turn,
        } = lesson;
        match turn {
            Turn::Closed => {
                self.conclude(alloc, hints.as_slice())?;
                Ok(Step::Closed)
            }
            Turn::Back {
                level,
                asserted,
                beside,
            } => {
                self.back(level);
                self.learn(
                    alloc,
                    literals.as_slice(),
                    hints.as_slice(),
                    asserted,
                    beside,
                )?;
                self.restart();
                Ok(Step::Learnt)
            }
        }
    }

    /// Writes the line that closes the derivation.
    pub(crate) fn conclude(&mut self, alloc: Global, hints: &[ClauseId]) -> Result<(), AllocError>
        requires { CanConclude self.old hints.now }
        ensures over { OnOk result (HasEnded self.new) }
        ensures further { OnOk result (IsFurther self.old self.new 0) }
        ensures err { OnErr result (self.new ≡ self.old) }
    {
        write_line(alloc, &mut self.derivation, &[], hints)
    }

    /// Undoes the levels from `level` on.
    fn back(&mut self, level: usize)
        requires live { IsLive self.old }
        requires level { level < length self.old.trail.starts }
        ensures live { IsLive self.new }
        ensures same { IsAsFar self.old self.new }
        ensures clauses { self.new.clauses ≡ self.old.clauses }
        ensures trail { self.new.trail ≡ cut_to self.old.trail level }
    {
        go_back(&mut self.trail, &mut self.activity, level);
    }

    /// Learns a clause, and makes its one open literal true.
    fn learn(
        &mut self,
        alloc: Global,
        literals: &[Literal],
        hints: &[ClauseId],
        asserted: Literal,
        beside: Literal,
    ) -> Result<(), AllocError>
        requires live { IsLive self.old }
        requires room { self.old.added < BUDGET }
        requires can { CanAssert self.old.trail literals.now asserted beside }
        requires shown { Shows self.old.clauses literals.now hints.now }
        requires rise { Rise literals.now }
        requires bound { HasBound self.old.formula.vars self.old.added self.old.deleted }
        ensures live { IsLive self.new }
        ensures ok { OnOk result (IsFurther self.old self.new 1) }
        ensures err { OnErr result (IsAsFar self.old self.new) }
    {
        let line = add_line(alloc, literals, hints)?;
        let clause = self.clauses.next_id();
        attach(
            &mut self.clauses,
            &mut self.watches,
            literals,
            asserted,
            beside,
        )?;
        match self.derivation.push(line) {
            Ok(()) => {
                self.trail.imply(asserted, clause);
                self.clauses.touch(clause, self.added);
                touch_all(&mut self.clauses, hints, self.added);
                self.added += 1;
                Ok(())
            }
            Err(failed) => {
                detach(&mut self.clauses, &mut self.watches, asserted, beside);
                Err(AllocError::from(failed))
            }
        }
    }

    /// Restarts if it is time.
    fn restart(&mut self)
        requires { IsLive self.old }
        ensures live { IsLive self.new }
        ensures same { IsAsFar self.old self.new }
    {
        if !self.restarts.is_due() {
            return;
        }
        if self.trail.levels() == 0 {
            return;
        }
        self.back(0);
    }
}

/// Appends a line.
pub(crate) fn write_line(
    alloc: Global,
    derivation: &mut Derivation,
    literals: &[Literal],
    hints: &[ClauseId],
) -> Result<(), AllocError>
    requires rise { Rise literals.now }
    requires within { All (λ l. l < 2 * LIMIT) literals.now }
    requires hints { All (λ h. h + 1 < 2 ^ 32) hints.now }
    requires room { length derivation.old < LINES }
    ensures ok { OnOk result (derivation.new ≡ derivation.old ++ added literals.now hints.now ∷ []) }
    ensures err { OnErr result (derivation.new ≡ derivation.old) }
{
    let line = add_line(alloc, literals, hints)?;
    derivation.push(line)?;
    Ok(())
}
