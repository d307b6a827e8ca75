//! Deeds: the effects of moves.
ghost use Rattle.std.specs.Prelude.{◌≡◌, IfOk};
ghost use Rattle.show_deeds.specs.Deeds.{doer};

use std::alloc::AllocError;
use tc_base::{Request, ThreadName};

/// A step of a thread.
#[derive(Drop)]
pub struct Step {
    /// The thread.
    pub thread: ThreadName,
    /// The number of steps that the thread had done before.
    pub number: u32,
    /// The request of the step.
    pub asks: Request,
    /// The value that it takes from memory or from its own buffer, or 0 if it takes none.
    pub took: i32,
    /// The thread that it wakes or creates, if any.
    pub other: Option<ThreadName>,
}

/// A store that a thread put into its buffer.
#[derive(Drop)]
pub struct Stored {
    /// The thread.
    pub thread: ThreadName,
    /// The number of steps that the thread had done before that of the store.
    pub number: u32,
    /// The cell.
    pub cell: u32,
    /// The value.
    pub value: i32,
}

/// The effect of a move.
#[derive(Drop)]
pub enum Deed {
    /// A thread did a step.
    Did(Step),
    /// A store left its thread's buffer, and reached memory.
    Drained(Stored),
}

impl Deed {
    /// The thread.
    pub fn thread(&self) -> &ThreadName
        ensures { result.now ≡ doer self.now }
    {
        match self {
            Deed::Did(step) => &step.thread,
            Deed::Drained(stored) => &stored.thread,
        }
    }

    /// The number of the step in its thread, from 0; for a drain, that of the step which issued the
    /// store.
    pub fn number(&self) -> u32 {
        match self {
            Deed::Did(step) => step.number,
            Deed::Drained(stored) => stored.number,
        }
    }
}

impl Stored {
    /// A copy of it.
    pub fn copy(&self) -> Result<Stored, AllocError>
        ensures { IfOk result (λ copy. copy ≡ self.now) }
    {
        Ok(Stored {
            thread: self.thread.clone()?,
            number: self.number,
            cell: self.cell,
            value: self.value,
        })
    }
}
