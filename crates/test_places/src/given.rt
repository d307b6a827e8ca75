//! The input of a row, and its answer.
ghost use Rattle.std.specs.Prelude.{◌≤◌, length, IfOk};
ghost use Rattle.tc_limits.specs.declared.limits.TheConstants.{PROGRAM_BYTES};
ghost use Rattle.places.specs.Places.{HasPlaces};
ghost use Rattle.tc_compile.specs.Programs.{IsCodeOf};
ghost use Rattle.std.specs.List.{All};

use anyhow::{Context, Result, bail};
use places::{Place, reached_places};
use std::alloc::{AllocError, Global};
use std::fmt::Write;
use std::mem::drop;
use tc_code::{Code, Instr};
use tc_compile::compile;
use tc_limits::limits::PROGRAM_BYTES;

/// How many places of a function are listed.
const MOST: usize = 1000;

/// The places of the functions of a program.
pub(crate) fn places(alloc: Global, given: &str) -> Result<String> {
    let (rounds, program) = given.split_once(" : ").context("rounds without a program")?;
    let rounds = rounds.parse::<u32>()?;
    let code = compile(alloc, within(program)?)?;
    let told = in_code(alloc, &code, rounds);
    drop(code);
    Ok(told?)
}

/// The bytes of a program that is as long as one may be.
fn within(program: &str) -> Result<&[u8]>
    ensures { IfOk result (λ text. length text.now ≤ PROGRAM_BYTES) }
{
    let text = program.as_bytes();
    if text.len() as u64 > PROGRAM_BYTES {
        bail!("a program that is too long");
    }
    Ok(text)
}

fn in_code(alloc: Global, code: &Code, rounds: u32) -> Result<String, AllocError>
    requires { All (λ f. HasPlaces f.instrs) code.now.functions }
{
    let mut text = String::new(alloc);
    for (number, function) in code.functions().iter().enumerate() {
        if number > 0 {
            text.push('\n')?;
        }
        write!(text, "function {number}: ")?;
        push_places(alloc, &mut text, function.instrs.as_slice(), rounds)?;
    }
    Ok(text)
}

/// How many places a function has, and a line for each.
fn push_places(
    alloc: Global,
    text: &mut String,
    instrs: &[Instr],
    rounds: u32,
) -> Result<(), AllocError>
    requires { HasPlaces instrs.now }
{
    let mut limits = Vec::new(alloc);
    for _ in instrs {
        limits.push(rounds)?;
    }
    let found = reached_places(alloc, instrs, &limits, MOST)?;
    match &found {
        Some(places) => push_all(text, places),
        None => write!(text, "more than {MOST} places"),
    }
}

fn push_all(text: &mut String, places: &[Place]) -> Result<(), AllocError> {
    write!(text, "{} places", places.len())?;
    for place in places {
        push_place(text, place)?;
    }
    Ok(())
}

fn push_place(text: &mut String, place: &Place) -> Result<(), AllocError> {
    write!(text, "\n  {}", place.instruction())?;
    for round in place.rounds() {
        write!(text, " {}:{}", round.first, round.number)?;
    }
    Ok(())
}
