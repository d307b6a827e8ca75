//! The moves made so far, and how far each thread is.
ghost use Rattle.std.specs.Prelude.{◌≡◌, ◌<◌, ◌++◌, ◌∷◌, [], length, max, replicate, slice_set, IfOk, OnOk};
ghost use Rattle.tc_base.specs.declared.moves.Move.TheVariants.{Run};
ghost use Rattle.world_moves.specs.Moves as spec;

use std::alloc::{AllocError, Global};
use std::marker::Model;
use tc_base::{Move, ThreadName};

/// The moves so far, and the number of steps that each thread has done.
#[derive(Debug, Drop)]
pub(crate) struct Made {
    steps: Vec<usize>,
    moves: Vec<Move>,
}

impl Model for Made {
    ghost use Rattle.world_moves.specs.Moves as spec;

    ghost Value = { spec.Made };

    ghost view = { λ m. record { steps = m.steps.items; moves = m.moves.items } };
}

impl Made {
    /// No moves, with `threads` threads at their start.
    pub fn nothing(alloc: Global, threads: usize) -> Result<Made, AllocError>
        ensures { IfOk result (λ made. made ≡ record { steps = replicate threads 0; moves = [] }) }
    {
        Ok(Made {
            steps: vec![in alloc; 0; threads]?,
            moves: Vec::new(alloc),
        })
    }

    /// The moves.
    pub fn into_moves(self) -> Vec<Move>
        ensures { result.items ≡ self.moves }
    {
        self.moves
    }

    /// Appends a move.
    pub fn push(&mut self, made: Move) -> Result<(), AllocError>
        ensures { OnOk result (self.new ≡ record { steps = self.old.steps; moves = self.old.moves ++ made ∷ [] }) }
    {
        Ok(self.moves.push(made)?)
    }

    /// Appends moves by which a thread does its steps up to `steps`. It doesn't count them; `reach`
    /// does.
    pub fn run_to(
        &mut self,
        thread: usize,
        name: &ThreadName,
        steps: usize,
    ) -> Result<(), AllocError>
        requires { thread < length self.old.steps }
        ensures { OnOk result (self.new
            ≡ record { steps = self.old.steps; moves = self.old.moves ++ spec.runs_to self.old thread name.now steps }) }
    {
        push_runs(
            &mut self.moves,
            name,
            steps.saturating_sub(self.steps[thread]),
        )
    }

    /// Records that a thread has done at least this many steps.
    pub fn reach(&mut self, thread: usize, steps: usize)
        requires { thread < length self.old.steps }
        ensures { self.new ≡ record { steps = slice_set self.old.steps thread (max (spec.steps_of self.old thread) steps); moves = self.old.moves } }
    {
        self.steps[thread] = self.steps[thread].max(steps);
    }
}

/// Appends `count` moves of a thread.
fn push_runs(moves: &mut Vec<Move>, name: &ThreadName, count: usize) -> Result<(), AllocError>
    ensures { OnOk result (moves.new.items ≡ moves.old.items ++ replicate count (Run name.now)) }
{
    for _ in 0..count {
        moves.push(Move::Run(name.clone()?))?;
    }
    Ok(())
}
