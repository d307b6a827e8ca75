//! Moves with names borrowed from a state.
ghost use Rattle.std.specs.Prelude.{◌≡◌, IfOk};
ghost use Rattle.tc_machine.specs.Moves.{move_of};

use std::alloc::AllocError;
use tc_base::{Move, ThreadName};

/// A move with names borrowed from a state.
#[derive(Clone, Copy, Debug)]
pub enum Choice<'a> {
    /// The thread does its next instruction.
    Run(&'a ThreadName),
    /// The first thread signals, and wakes the second.
    Wake(&'a ThreadName, &'a ThreadName),
    /// A buffered store of the thread reaches memory by this form.
    Drain(&'a ThreadName, Option<u32>),
}

impl<'a> Choice<'a> {
    /// The same move with its own names.
    pub fn to_move(&self) -> Result<Move, AllocError>
        ensures { IfOk result (λ m. m ≡ move_of self.now) }
    {
        match *self {
            Choice::Run(name) => Ok(Move::Run(name.clone()?)),
            Choice::Wake(name, waiter) => Ok(Move::Wake(name.clone()?, waiter.clone()?)),
            Choice::Drain(name, form) => Ok(Move::Drain(name.clone()?, form)),
        }
    }
}
