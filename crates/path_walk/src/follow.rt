//! The places of the steps of one thread, by its path.
ghost use Rattle.std.specs.Prelude.{◌≡◌, ◌+◌, ◌<◌, ◌≤◌, ◌^◌, length, drop, true, option_map, OnSome, IfOk, OnOk};
ghost use Rattle.tc_code.specs.Code.{instr_at};
ghost use Rattle.tc_code.specs.tc_limits.declared.limits.TheConstants.{STEPS};
ghost use Rattle.std.specs.Option.{option_map_or};
ghost use Rattle.path_walk.specs.Steps.{onward, branched, is_site, can_block, step_at, ends_at_site, places_from, end_from, places_of};
ghost use Rattle.path_walk.specs.helpers.Accounts.{Gives, position_of};
ghost use Rattle.path_walk.specs.declared.follow.FollowFault.TheVariants.{Memory};

use crate::Misfit;
use crate::ending::Ending;
use run_log::ThreadPath;
use std::alloc::{AllocError, AllocFailed, Global};
use tc_code::{Code, Instr};

/// Why the steps of a thread can't be followed.
#[derive(Clone, Copy)]
pub enum FollowFault {
    /// The path doesn't fit.
    Unfit(Misfit),
    /// Memory ran out.
    Memory,
}

impl From<AllocError> for FollowFault {
    ghost from_gives = { λ _ fault. fault ≡ Memory };

    fn from(_failed: AllocError) -> Self {
        FollowFault::Memory
    }
}

impl<T: Drop> From<AllocFailed<T>> for FollowFault {
    ghost from_gives = { λ _ fault. fault ≡ Memory };

    fn from(_failed: AllocFailed<T>) -> Self {
        FollowFault::Memory
    }
}

/// Where a thread is, and how many of its outcomes it has used.
#[derive(Clone, Copy)]
pub struct Position {
    place: usize,
    used: usize,
}

/// Where a thread goes on after an instruction.
fn onward(instr: &Instr, at: Position, outcomes: &[bool]) -> Option<Position>
    requires { at.place + 1 < 2 ^ 64 }
    ensures { option_map (position_of outcomes.now) result ≡ onward at.place instr.now (drop at.used outcomes.now) }
{
    let next = Position {
        place: at.place + 1,
        used: at.used,
    };
    match instr {
        Instr::Branch { target, .. } => branched(next, *target, outcomes),
        Instr::Goto { target } => Some(Position {
            place: *target as usize,
            used: at.used,
        }),
        _ => Some(next),
    }
}

/// Where a thread goes on after a branch: at the target if the outcome is false.
fn branched(next: Position, target: u32, outcomes: &[bool]) -> Option<Position>
    ensures { option_map (position_of outcomes.now) result ≡ branched next.place target (drop next.used outcomes.now) }
{
    let outcome = *outcomes.get(next.used)?;
    let place = if outcome { next.place } else { target as usize };
    Some(Position {
        place,
        used: next.used + 1,
    })
}

/// Whether an instruction is a site: it only tests something, and fails if that is false.
fn is_site(instr: &Instr) -> bool
    ensures { result ≡ is_site instr.now }
{
    matches!(
        instr,
        Instr::Inside { .. }
            | Instr::Holds { .. }
            | Instr::Ready { .. }
            | Instr::Assert(_)
            | Instr::Nonzero(_)
            | Instr::InRange(_)
    )
}

/// Whether a thread may block at an instruction.
fn can_block(instr: &Instr) -> bool
    ensures { result ≡ can_block instr.now }
{
    matches!(
        instr,
        Instr::Lock { .. } | Instr::Wake { .. } | Instr::Join { .. }
    )
}

/// Whether a thread at a place has exited, since no instruction is there, or may block.
fn can_rest(code: &Code, function: usize, place: usize) -> bool
    ensures { result ≡ option_map_or can_block (instr_at code.now function place) true }
{
    match code.instr(function, place) {
        Some(instr) => can_block(instr),
        None => true,
    }
}

/// Whether there is a last step, and it is at a site.
fn ends_at_site(code: &Code, function: usize, places: &[usize]) -> bool
    ensures { result ≡ ends_at_site code.now function places.now }
{
    if places.is_empty() {
        return false;
    }
    match code.instr(function, places[places.len() - 1]) {
        Some(instr) => is_site(instr),
        None => false,
    }
}

/// The places of a path's steps through a function, and the place that they lead to.
#[derive(Drop)]
pub struct Followed {
    pub places: Vec<usize>,
    pub end: usize,
}

/// The steps of a path through a function.
fn steps(
    alloc: Global,
    code: &Code,
    function: usize,
    path: &ThreadPath,
) -> Result<Followed, FollowFault>
    ensures told { Gives (λ w. w.places.items) result (places_from code.now function path.now.path.steps 0 path.now.path.outcomes) }
    ensures end { IfOk result (λ w. w.end ≡ end_from code.now function path.now.path.steps 0 path.now.path.outcomes) }
    ensures few { IfOk result (λ w. length w.places.items < 2 ^ 16) }
    ensures short { OnOk result (path.now.path.steps ≤ STEPS) }
{
    let outcomes = path.outcomes();
    let mut places = Vec::new(alloc);
    let mut at = Position { place: 0, used: 0 };
    for step in 0..path.steps() {
        let Some(instr) = code.instr(function, at.place) else {
            return Err(FollowFault::Unfit(Misfit::PastExit));
        };
        let Some(next) = onward(instr, at, outcomes) else {
            return Err(FollowFault::Unfit(Misfit::OutcomesShort));
        };
        places.push(at.place)?;
        at = next;
    }
    if at.used < outcomes.len() {
        return Err(FollowFault::Unfit(Misfit::OutcomesLeft));
    }
    Ok(Followed {
        places,
        end: at.place,
    })
}

/// The steps of a thread that runs this function, from its path and ending.
pub fn follow(
    alloc: Global,
    code: &Code,
    function: usize,
    ending: Ending,
    path: &ThreadPath,
) -> Result<Followed, FollowFault>
    ensures told { Gives (λ w. w.places.items) result (places_of code.now function ending path.now.path) }
    ensures end { IfOk result (λ w. w.end ≡ end_from code.now function path.now.path.steps 0 path.now.path.outcomes) }
    ensures few { IfOk result (λ w. length w.places.items < 2 ^ 16) }
    ensures short { OnOk result (path.now.path.steps ≤ STEPS) }
{
    let way = steps(alloc, code, function, path)?;
    match ending {
        Ending::Fails if !ends_at_site(code, function, &way.places) => {
            Err(FollowFault::Unfit(Misfit::NotASite))
        }
        Ending::Rests if !can_rest(code, function, way.end) => {
            Err(FollowFault::Unfit(Misfit::NotBlocked))
        }
        _ => Ok(way),
    }
}
