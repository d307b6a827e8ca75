//! One descent: follows the given outcomes, then takes each branch with a false outcome, until a
//! path may end or none goes on.
ghost use Rattle.std.specs.Prelude.{◌≡◌, ℕ, List, Bool, true, false, ◌&&◌, ◌≤◌, ◌<◌, ◌+◌, ◌^◌, length, IfOk, []};
ghost use Rattle.tc_limits.specs.declared.limits.TheConstants.{STEPS};
ghost use Rattle.thread_marks.specs.path_walk.Marks.{Marks};
ghost use Rattle.thread_marks.specs.Own.{own_of};
ghost use Rattle.slot_liveness.specs.Tables.{liveness};
ghost use Rattle.thread_paths.specs.Order.{is_from};
ghost use Rattle.thread_paths.specs.helpers.Descents.{is_branch, takes, at_after, is_end, IsOpened, IsNode, IsAdvance, IsDescent};

use crate::aim::Scope;
use crate::known::Known;
use crate::leads::{is_branch, is_last, place_after};
use crate::past::Past;
use crate::program::Program;
use crate::rounds::ends_turn;
use std::alloc::{AllocError, Global};
use tc_code::{Code, Instr};
use tc_limits::limits::STEPS;
use thread_marks::Own;

/// Why a descent finds no path.
#[derive(Clone, Copy, Debug)]
pub enum Reason {
    /// No path goes on.
    Dead,
    /// A branch comes after the greatest number of outcomes.
    TooMany,
    /// The thread has taken as many steps as a log holds.
    TooLong,
    /// The last steps are a pure turn.
    Turn,
    /// The path goes against a value that it determines.
    Against,
}

/// The result of a descent.
#[derive(Clone, Copy, Debug)]
pub enum Descent {
    /// A path with this number of steps.
    Found(u16),
    /// No path, for this reason.
    Spent(Reason),
}

/// The position of a thread in its descent.
#[derive(Clone, Copy)]
pub struct At {
    place: usize,
    /// The number of outcomes followed.
    used: usize,
    /// The least number of steps of a path that ends with these outcomes.
    least: usize,
}

/// One step further, or the end of the descent.
pub enum Advance {
    On(At),
    Ends(Descent),
}

/// The position with an outcome for the next instruction, appending a false if a branch needs one.
/// `None` if there would be too many outcomes.
fn with_outcome(
    most: u16,
    instr: &Instr,
    at: At,
    outcomes: &mut Vec<bool>,
) -> Result<Option<At>, AllocError>
    ensures { IfOk result (IsOpened most instr.now at outcomes.old.items outcomes.new.items) }
{
    if !is_branch(instr) {
        return Ok(Some(at));
    }
    if at.used < outcomes.len() {
        return Ok(Some(at));
    }
    if outcomes.len() >= usize::from(most) {
        return Ok(None);
    }
    outcomes.push(false)?;
    Ok(Some(At { least: 0, ..at }))
}

/// The position of a thread after an instruction.
fn after(instr: &Instr, at: At, outcomes: &[bool]) -> At
    requires place { at.place + 1 < 2 ^ 64 }
    requires outcome { is_branch instr.now ≡ true → at.used < length outcomes.now }
    ensures { result ≡ at_after at instr.now outcomes.now }
{
    let outcome = outcomes.get(at.used).copied().unwrap_or(false);
    let place = place_after(instr, at.place, outcome);
    if is_branch(instr) {
        At {
            place,
            used: at.used + 1,
            least: at.least,
        }
    } else {
        At { place, ..at }
    }
}

/// Whether a path may end after an instruction, with `steps` steps.
fn is_end(
    code: &Code,
    scope: Scope,
    steps: usize,
    own: &Own,
    instr: &Instr,
    to: At,
    outcomes: &[bool],
) -> bool
    ensures { (t : Marks) → own.now ≡ own_of t → result ≡ is_end code.now scope steps t instr.now to outcomes.now }
{
    to.used == outcomes.len() && to.least <= steps && is_last(code, scope, own, instr, to.place)
}

/// Takes one step further, after `steps` of them.
fn go_on(
    program: Program<'_>,
    scope: Scope,
    steps: usize,
    at: At,
    past: &mut Past,
    outcomes: &mut Vec<bool>,
) -> Result<Advance, AllocError>
    requires steps { steps < STEPS }
    requires used { at.used ≤ length outcomes.old.items }
    ensures { (start : List Bool) (first : ℕ) → IsNode program.entry.code.now scope start first steps at outcomes.old.items past.old
        → IfOk result (IsAdvance program.entry.code.now (liveness program.entry.live.now) scope start first steps outcomes.new.items past.new) }
{
    let Some(instr) = program.code.instr(scope.function, at.place) else {
        return Ok(Advance::Ends(Descent::Spent(Reason::Dead)));
    };
    past.places.push(at.place)?;
    if ends_turn(program, scope.function, &past.places) {
        return Ok(Advance::Ends(Descent::Spent(Reason::Turn)));
    }
    let Some(at) = with_outcome(scope.most, instr, at, outcomes)? else {
        return Ok(Advance::Ends(Descent::Spent(Reason::TooMany)));
    };
    let to = after(instr, at, outcomes);
    if is_end(
        program.code,
        scope,
        steps + 1,
        &past.own,
        instr,
        to,
        outcomes,
    ) {
        return Ok(Advance::Ends(Descent::Found(steps as u16 + 1)));
    }
    if past.own.excludes(instr, false) {
        return Ok(Advance::Ends(Descent::Spent(Reason::Dead)));
    }
    if past.known.rules_out(instr, at.place, to.place) {
        return Ok(Advance::Ends(Descent::Spent(Reason::Against)));
    }
    past.own.apply(instr);
    past.known.apply(instr);
    Ok(Advance::On(to))
}

/// Follows these outcomes and extends them to the first path of at least `least` steps, if one
/// begins like them. Skips the path of no steps.
pub fn descend(
    alloc: Global,
    program: Program<'_>,
    scope: Scope,
    outcomes: &mut Vec<bool>,
    least: usize,
) -> Result<Descent, AllocError>
    requires few { length outcomes.old.items ≤ scope.most }
    requires steps { (takes program.code.now scope [] 0 && is_from outcomes.old.items least [] 0) ≡ false }
    ensures { IfOk result (IsDescent program.entry.code.now (liveness program.entry.live.now) scope outcomes.old.items least outcomes.new.items) }
{
    let mut past = Past {
        own: Own::at_start(alloc, program.code, scope.function)?,
        known: Known::at_start(alloc, program.code, scope.function)?,
        places: Vec::new(alloc),
    };
    let mut at = At {
        place: 0,
        used: 0,
        least,
    };
    for steps in 0..STEPS as usize {
        match go_on(program, scope, steps, at, &mut past, outcomes)? {
            Advance::On(to) => at = to,
            Advance::Ends(descent) => return Ok(descent),
        }
    }
    Ok(Descent::Spent(Reason::TooLong))
}
