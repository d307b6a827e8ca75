//! The first unique implication point.
ghost use Rattle.std.specs.Prelude.{◌≡◌, ℕ, ◌-◌, ◌<◌, ◌≤◌, [], true, IfOk, MatchOption, length, slice_index};
ghost use Rattle.cdcl_trail.specs.Trail.{IsTrail};
ghost use Rattle.cdcl_clauses.specs.Clauses.{at};
ghost use Rattle.cdcl_clauses.specs.Invariants.{IsClause, AreReasoned, IsConflict};
ghost use Rattle.cdcl_learn.specs.helpers.Starts.{IsStarted, AreLower, IsHighest, IsLevelAfter, Turns};
ghost use Rattle.cdcl_learn.specs.Shown.{Refutes};
ghost use Rattle.cdcl_learn.specs.Lessons.{IsLesson};

use crate::analysis::{Analysis, Bounds};
use crate::lesson::{Lesson, Turn};
use cdcl_activity::Activity;
use cdcl_clauses::Clauses;
use cdcl_literals::{ClauseId, Literal};
use cdcl_trail::Trail;
use std::alloc::{AllocError, Global};

/// Begins the analysis of a conflict.
fn start(
    alloc: Global,
    trail: &Trail,
    clauses: &Clauses,
    activity: &mut Activity,
    conflict: ClauseId,
    bounds: Bounds,
) -> Result<Analysis, AllocError>
    requires lawful { IsTrail trail.now }
    requires clauses { (k : ℕ) → k < length clauses.now → (at clauses.now k).kept ≡ true → IsClause trail.now.variables (at clauses.now k) }
    requires conflict { Refutes clauses.now trail.now.literals conflict }
    requires activity { activity.old ≡ trail.now.variables }
    ensures activity { activity.new ≡ activity.old }
    ensures started { IfOk result (IsStarted trail.now clauses.now conflict bounds.root bounds.base) }
{
    let met = vec![in alloc; false; trail.len()]?;
    let mut analysis = Analysis {
        met,
        pending: 0,
        literals: Vec::new(alloc),
        hints: Vec::new(alloc),
    };
    analysis.meet(trail, clauses, activity, conflict, bounds)?;
    Ok(analysis)
}

/// The lesson of a clause that is false before any level: there is no solution.
pub fn close(
    alloc: Global,
    trail: &Trail,
    clauses: &Clauses,
    activity: &mut Activity,
    conflict: ClauseId,
) -> Result<Lesson, AllocError>
    requires lawful { IsTrail trail.now }
    requires clauses { (k : ℕ) → k < length clauses.now → (at clauses.now k).kept ≡ true → IsClause trail.now.variables (at clauses.now k) }
    requires reasoned { AreReasoned trail.now clauses.now }
    requires conflict { Refutes clauses.now trail.now.literals conflict }
    requires levels { trail.now.starts ≡ [] }
    requires activity { activity.old ≡ trail.now.variables }
    ensures activity { activity.new ≡ activity.old }
    ensures lesson { IfOk result (IsLesson trail.now clauses.now) }
{
    let len = trail.len();
    let bounds = Bounds {
        root: len,
        base: len,
    };
    let mut analysis = start(alloc, trail, clauses, activity, conflict, bounds)?;
    analysis.clear_root(trail, clauses, activity, bounds)?;
    let Analysis { mut hints, .. } = analysis;
    hints.reverse();
    Ok(Lesson {
        literals: Vec::new(alloc),
        hints,
        turn: Turn::Closed,
    })
}

/// The lesson of a conflict on a level: its first unique implication point is false if what it
/// needs of lower levels is true. What it needs from before the first level is proved by the hints.
pub fn analyze(
    alloc: Global,
    trail: &Trail,
    clauses: &Clauses,
    activity: &mut Activity,
    conflict: ClauseId,
) -> Result<Lesson, AllocError>
    requires lawful { IsTrail trail.now }
    requires clauses { (k : ℕ) → k < length clauses.now → (at clauses.now k).kept ≡ true → IsClause trail.now.variables (at clauses.now k) }
    requires reasoned { AreReasoned trail.now clauses.now }
    requires conflict { IsConflict trail.now clauses.now conflict }
    requires levels { 0 < length trail.now.starts }
    requires activity { activity.old ≡ trail.now.variables }
    ensures activity { activity.new ≡ activity.old }
    ensures lesson { IfOk result (IsLesson trail.now clauses.now) }
{
    let bounds = Bounds {
        root: trail.start(0),
        base: trail.start(trail.levels() - 1),
    };
    let mut analysis = start(alloc, trail, clauses, activity, conflict, bounds)?;
    let uip = analysis.uip(trail, clauses, activity, bounds)?;
    analysis.clear_root(trail, clauses, activity, bounds)?;
    let asserted = trail.literal(uip).opposite();
    let Analysis {
        mut literals,
        mut hints,
        ..
    } = analysis;
    let turn = turn(trail, literals.as_slice(), asserted);
    literals.push(asserted)?;
    hints.reverse();
    Ok(Lesson {
        literals,
        hints,
        turn,
    })
}

/// Where to backtrack, given the other literals of the clause.
fn turn(trail: &Trail, literals: &[Literal], asserted: Literal) -> Turn
    requires lawful { IsTrail trail.now }
    requires levels { 0 < length trail.now.starts }
    requires lower { AreLower trail.now literals.now }
    ensures { Turns trail.now literals.now asserted result }
{
    match highest(trail, literals) {
        None => Turn::Back {
            level: 0,
            asserted,
            beside: asserted,
        },
        Some(beside) => Turn::Back {
            level: level_after(trail, trail.place(beside)),
            asserted,
            beside,
        },
    }
}

/// The literal whose variable is highest on the trail.
fn highest(trail: &Trail, literals: &[Literal]) -> Option<Literal>
    requires lawful { IsTrail trail.now }
    requires levels { 0 < length trail.now.starts }
    requires lower { AreLower trail.now literals.now }
    ensures { MatchOption result (literals.now ≡ []) (IsHighest trail.now literals.now) }
{
    let mut best = None;
    let mut top = 0;
    for literal in literals {
        let place = trail.place(*literal);
        if place >= top {
            top = place;
            best = Some(*literal);
        }
    }
    best
}

/// The first level that begins after a place.
fn level_after(trail: &Trail, place: usize) -> usize
    requires lawful { IsTrail trail.now }
    requires levels { 0 < length trail.now.starts }
    requires place { place < slice_index trail.now.starts (length trail.now.starts - 1) }
    ensures { IsLevelAfter trail.now place result }
{
    let mut level = trail.levels() - 1;
    while level > 0 && trail.start(level - 1) > place {
        level -= 1;
    }
    level
}
