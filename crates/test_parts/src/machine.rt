//! Moves of the machine, made one after another from the start.
ghost use Rattle.std.specs.Prelude.{◌<◌, length, IfOk};
ghost use Rattle.tc_code.specs.Run.{IsReached};

use crate::files::{push_move, push_outcomes};
use crate::text::code_of;
use anyhow::{Result, bail};
use schedule_file::read_schedule;
use std::alloc::{AllocError, Global};
use std::mem::drop;
use store_buffers::{MemoryModel, PsoModel, Sc, TsoModel};
use tc_base::{Move, ThreadName};
use tc_code::Code;
use tc_machine::{State, Why, enabled, moves, start, step};
use test_table::given::Given;

/// The answer to a row of moves: what holds at their end.
pub(crate) fn moved(alloc: Global, given: &mut Given) -> Result<String> {
    let model = given.word();
    let moves = moves_of(alloc, given.before(" : "))?;
    let code = code_of(alloc, given.rest().as_bytes())?;
    let told = match model {
        "sc" => played::<Sc>(alloc, &code, &moves),
        "tso" => played::<TsoModel>(alloc, &code, &moves),
        "pso" => played::<PsoModel>(alloc, &code, &moves),
        _ => bail!("no such model"),
    };
    drop(code);
    drop(moves);
    told
}

/// The moves of a schedule, written as its model and its moves with commas between them.
fn moves_of(alloc: Global, schedule: &str) -> Result<Vec<Move>> {
    let mut text = String::from_str(alloc, "clap-schedule 1 ")?;
    for line in schedule.split(',') {
        writeln!(text, "{line}")?;
    }
    Ok(read_schedule(alloc, text.as_bytes())?.moves)
}

/// The state that a list of moves led to, and the number of the first move that wasn't enabled,
/// from 1, if any.
#[derive(Drop)]
struct End<M: MemoryModel> {
    state: State<M>,
    stop: Option<(usize, Why)>,
}

/// What holds at the end of these moves.
fn played<M: MemoryModel>(alloc: Global, code: &Code, made: &[Move]) -> Result<String> {
    if made.len() >= 100 {
        bail!("too many moves");
    }
    let End { state, stop } = play::<M>(alloc, code, made)?;
    let text = match stop {
        Some((number, why)) => format!(in alloc; "stops at move {number}: {why}"),
        None => state_text::<M>(alloc, code, &state),
    };
    Ok(text?)
}

/// The moves that are enabled in a state, and its threads.
fn state_text<M: MemoryModel>(
    alloc: Global,
    code: &Code,
    state: &State<M>,
) -> Result<String, AllocError>
    requires { IsReached M.ops code.now state.now }
{
    let mut text = String::new(alloc);
    push_moves(&mut text, &moves(alloc, code, state)?)?;
    for name in state.threads().as_slice() {
        push_thread(&mut text, state, name)?;
    }
    String::from_str(alloc, text.trim_end())
}

/// Adds moves.
fn push_moves(text: &mut String, moves: &[Move]) -> Result<(), AllocError> {
    for m in moves {
        push_move(text, m)?;
        text.push_str("; ")?;
    }
    Ok(())
}

/// Makes these moves in turn, up to the first that isn't enabled.
fn play<M: MemoryModel>(alloc: Global, code: &Code, made: &[Move]) -> Result<End<M>, AllocError>
    requires { length made.now < 100 }
    ensures { IfOk result (λ end. IsReached M.ops code.now end.state) }
{
    let mut state = start::<M>(alloc, code)?;
    for k in 0..made.len() {
        let m = &made[k];
        if let Err(why) = enabled(code, &state, m) {
            return Ok(End {
                state,
                stop: Some((k + 1, why)),
            });
        }
        step(alloc, code, &mut state, m)?;
    }
    Ok(End { state, stop: None })
}

/// Adds the name of a thread, its function and the instruction there, its steps and its outcomes.
fn push_thread<M: MemoryModel>(
    text: &mut String,
    state: &State<M>,
    name: &ThreadName,
) -> Result<(), AllocError> {
    let (function, place) = state.place_of(name).unwrap_or((0, 0));
    let steps = state.steps_of(name).unwrap_or(0);
    write!(text, "{name} at {function}.{place} after {steps}")?;
    if let Some(outcomes) = state.outcomes_of(name) {
        push_outcomes(text, outcomes.as_slice())?;
    }
    text.push(' ')
}
