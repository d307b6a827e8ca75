//! The places that a thread can reach.
ghost use Rattle.std.specs.Prelude.{◌≡◌, ◌<◌, ◌+◌, ◌-◌, ◌^◌, ℕ, true, OnOk, IfOk, MatchOption};
ghost use Rattle.tc_code.specs.declared.instr.Instr.{Instr};
ghost use Rattle.places.specs.Places.{round_in, round_after, goes_on, next, targets, HasPlaces, AreMore, AreReached};
ghost use Rattle.places.specs.helpers.Jumps.{place_by};
ghost use Rattle.places.specs.helpers.Waiting.{Adds, AddsAll};

use crate::loops::{Loops, loops_of, target};
use crate::place::Place;
use std::alloc::{AllocError, Global};
use std::collections::BTreeMap;
use tc_code::Instr;

/// The places that were found and not yet gone on from, by their keys.
type Waiting = BTreeMap<Vec<usize>, Place>;

/// A function, and how often a thread may go round each of its loops.
#[derive(Clone, Copy)]
struct Function<'a> {
    instrs: &'a [Instr],
    loops: &'a Loops,
    limits: &'a [u32],
}

/// Adds the place after a step to an instruction, unless it is past a cut.
fn add(
    alloc: Global,
    waiting: &mut Waiting,
    function: Function<'_>,
    place: &Place,
    to: usize,
) -> Result<(), AllocError>
    requires room { to < 2 ^ 64 - 1 }
    requires rounds { (first : ℕ) → round_in place.now first < 2 ^ 64 - 1 }
    ensures { OnOk result (Adds function.entry.limits.now (place_by function.entry.loops.now to (round_after place.now to)) waiting.old.entries waiting.new.entries) }
{
    let next = place.after(alloc, function.loops, to)?;
    if !next.is_cut(function.limits) {
        let key = next.key(alloc)?;
        waiting.insert(key, next)?;
    }
    Ok(())
}

/// Whether an instruction may lead to the next one.
fn goes_on(instr: &Instr) -> bool
    ensures { result ≡ goes_on instr.now }
{
    !matches!(instr, Instr::Goto { .. } | Instr::Exit)
}

/// Adds the place at the next instruction, if a place leads there.
fn add_next(
    alloc: Global,
    waiting: &mut Waiting,
    function: Function<'_>,
    place: &Place,
    instr: &Instr,
) -> Result<(), AllocError>
    requires room { goes_on instr.now ≡ true → place.now.instruction + 1 < 2 ^ 64 - 1 }
    requires rounds { (first : ℕ) → round_in place.now first < 2 ^ 64 - 1 }
    ensures { OnOk result (AddsAll function.entry.limits.now (λ to. place_by function.entry.loops.now to (round_after place.now to)) (next place.now.instruction instr.now) waiting.old.entries waiting.new.entries) }
{
    if goes_on(instr) {
        add(alloc, waiting, function, place, place.instruction() + 1)
    } else {
        Ok(())
    }
}

/// Adds the place at the instruction to which a place may jump.
fn add_target(
    alloc: Global,
    waiting: &mut Waiting,
    function: Function<'_>,
    place: &Place,
    instr: &Instr,
) -> Result<(), AllocError>
    requires rounds { (first : ℕ) → round_in place.now first < 2 ^ 64 - 1 }
    ensures { OnOk result (AddsAll function.entry.limits.now (λ to. place_by function.entry.loops.now to (round_after place.now to)) (targets instr.now) waiting.old.entries waiting.new.entries) }
{
    match target(instr) {
        Some(to) => add(alloc, waiting, function, place, to),
        None => Ok(()),
    }
}

/// The places that a thread of a function can reach, in order, if they aren't more than `most`.
pub fn reached_places(
    alloc: Global,
    instrs: &[Instr],
    limits: &[u32],
    most: usize,
) -> Result<Option<Vec<Place>>, AllocError>
    requires { HasPlaces instrs.now }
    ensures { IfOk result (λ found. MatchOption found (AreMore instrs.now limits.now most) (λ ps. AreReached instrs.now limits.now ps.items)) }
{
    let loops = loops_of(alloc, instrs)?;
    let function = Function {
        instrs,
        loops: &loops,
        limits,
    };
    let mut places = Vec::new(alloc);
    let mut waiting = BTreeMap::new(alloc);
    let first = Place::first(alloc, &loops)?;
    waiting.insert(first.key(alloc)?, first)?;
    while let Some((_, place)) = waiting.pop_first() {
        if places.len() == most {
            return Ok(None);
        }
        let Some(instr) = instrs.get(place.instruction()) else {
            return Ok(None);
        };
        add_next(alloc, &mut waiting, function, &place, instr)?;
        add_target(alloc, &mut waiting, function, &place, instr)?;
        places.push(place)?;
    }
    Ok(Some(places))
}
