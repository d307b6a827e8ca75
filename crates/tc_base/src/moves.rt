//! The moves of the machine.
use crate::ThreadName;

/// One atomic move of the machine. A schedule is a list of moves.
#[derive(Debug, PartialEq, Eq, Drop)]
pub enum Move {
    /// The thread executes its next instruction.
    Run(ThreadName),
    /// The first thread signals, and wakes the second, which waits.
    Wake(ThreadName, ThreadName),
    /// A buffered store of the thread drains: its oldest (TSO), or its oldest to a cell (PSO).
    Drain(ThreadName, Option<u32>),
}
