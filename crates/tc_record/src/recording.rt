//! Making a seeded run.
ghost use Rattle.std.specs.Prelude.{◌≡◌, ◌≤◌, ◌<◌, ◌+◌, ◌^◌, length, IfOk, Some, IsTrue};
ghost use Rattle.tc_code.specs.Run.{IsReached, Reproduces, run};
ghost use Rattle.path_log.specs.Texts.{is_of_format};
ghost use Rattle.path_laws.specs.path_walk.Fits.{Fits};
ghost use Rattle.tc_record.specs.Logged.{is_small};
ghost use Rattle.tc_record.specs.Seeded as spec;
ghost use Rattle.tc_record.specs.Seeded.{seeded_run, IsAnswer, IfLogged};
ghost use Rattle.tc_record.specs.helpers.Turns.{IsTurn, IsEndAt};

use crate::end::{End, end_at, end_without_moves};
use crate::failing::line_of;
use crate::logged::log_of;
use crate::seeded::{Seeded, SeededFault};
use rand_core::{Rng, SeedableRng};
use rand_xoshiro::SplitMix64;
use std::alloc::{AllocError, Global};
use store_buffers::MemoryModel;
use tc_base::Move;
use tc_code::Code;
use tc_machine::{State, choices, start, step};

/// Runs a program under a memory model, with at most `steps` moves.
///
/// The generator is SplitMix64, seeded by `seed_from_u64`. In each turn one word, modulo the number
/// of enabled moves, is the index of the next move in the list of `tc_machine::moves`. So a run is
/// the same each time. It ends when no move is enabled, or after the first move that exceeds a
/// limit, fails or is the last.
pub fn run_seeded<M: MemoryModel>(
    alloc: Global,
    code: &Code,
    seed: u64,
    steps: u32,
) -> Result<Seeded, SeededFault>
    ensures answer { IsAnswer M.MODEL code.now (seeded_run M.ops code.now seed steps) result }
    // The moves that were made reproduce the log of a failure or a deadlock, and the log fits the
    // text format.
    ensures reproduced { IfLogged result (λ stored moves. Reproduces M.ops code.now stored.log moves) }
    ensures of_format { IfLogged result (λ stored moves. IsTrue (is_of_format stored.log)) }
    // The log is within the limits of recorded runs.
    ensures small { IfLogged result (λ stored moves. IsTrue (is_small stored.log)) }
    // The log fits the code.
    ensures fits { IfLogged result (λ stored moves. Fits code.now stored.log) }
{
    // A code is lawful by its type, so the logs of its runs fit it.
    let _ = code.functions();
    let mut rng = SplitMix64::seed_from_u64(seed);
    let mut state = start::<M>(alloc, code)?;
    let mut made = Vec::new(alloc);
    for _ in 0..steps {
        let word = rng.next_u64();
        if let Some(end) = turn(alloc, code, &mut state, &mut made, word)? {
            return answer(alloc, code, &state, made, end);
        }
    }
    Ok(Seeded::StepLimit(made))
}

/// Makes the move that a word chooses, and returns what ends the run, if anything.
fn turn<M: MemoryModel>(
    alloc: Global,
    code: &Code,
    state: &mut State<M>,
    made: &mut Vec<Move>,
    word: u64,
) -> Result<Option<End>, AllocError>
    requires leads { run M.ops code.now made.old.items ≡ Some state.old }
    requires few { length made.old.items + 1 < 2 ^ 32 }
    ensures turn { IfOk result (λ end. IsTurn M.ops code.now state.old state.new made.old.items made.new.items word end) }
    ensures leads { IfOk result (λ _. run M.ops code.now made.new.items ≡ Some state.new) }
    ensures counted { IfOk result (λ _. length made.new.items ≤ length made.old.items + 1) }
{
    let Some(m) = chosen(alloc, code, state, word)? else {
        return Ok(Some(end_without_moves(state)));
    };
    step(alloc, code, state, &m)?;
    made.push(m)?;
    Ok(end_at(state))
}

/// The move that a word chooses, if any is enabled.
fn chosen<M: MemoryModel>(
    alloc: Global,
    code: &Code,
    state: &State<M>,
    word: u64,
) -> Result<Option<Move>, AllocError>
    requires reached { IsReached M.ops code.now state.now }
    ensures { IfOk result (λ m. m ≡ spec.chosen_move M.ops code.now state.now word) }
{
    let choices = choices(alloc, code, state)?;
    if choices.is_empty() {
        return Ok(None);
    }
    let place = word % choices.len() as u64;
    Ok(Some(choices[place as usize].to_move()?))
}

/// The result of a run with this end.
fn answer<M: MemoryModel>(
    alloc: Global,
    code: &Code,
    state: &State<M>,
    made: Vec<Move>,
    end: End,
) -> Result<Seeded, SeededFault>
    requires leads { run M.ops code.now made.items ≡ Some state.now }
    requires ends { IsEndAt M.ops code.now state.now (Some end) }
    ensures { IsAnswer M.MODEL code.now (record { moves = made.items; state = state.now; end = end }) result }
{
    match end {
        End::Over(which) => Err(SeededFault::Limit(which, which.limit() + 1, which.limit())),
        End::Failed => Ok(Seeded::Failed(log_of(alloc, state)?, made, line_of(code, state))),
        End::Finished => Ok(Seeded::Finished(made)),
        End::Deadlock => Ok(Seeded::Deadlock(log_of(alloc, state)?, made)),
        End::StepLimit => Ok(Seeded::StepLimit(made)),
    }
}
