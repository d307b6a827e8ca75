//! Blocks of threads.
ghost use Rattle.std.specs.Prelude.{◌<◌, ◌≤◌};
ghost use Rattle.first_run.specs.declared.tuned.TheConstants.{EVENTS_AHEAD};

use crate::ahead::{Ahead, Pace, Reads};
use run_simulation::{Machine, ThreadNumber, Values};
use store_buffers::MemoryModel;

/// The end of a thread's block.
#[derive(Clone, Copy, PartialEq, Eq)]
pub(crate) enum Fate {
    /// The thread leaves its path, or has to wait, before the end of the block.
    Stops,
    /// Other threads see no difference.
    Reads,
    /// Other threads see a difference.
    Writes,
}

/// The *block* of a thread: what it does, if it goes on alone, up to the first event that others
/// can see, or, if it holds a mutex, up to where it releases that. A block has at most `events`
/// events. Returns how it ends, with the thread at its end.
pub(crate) fn block_of<M: MemoryModel>(
    machine: &Machine,
    values: &mut Values,
    thread: ThreadNumber,
    events: usize,
) -> (Fate, Ahead)
    requires { events ≤ EVENTS_AHEAD }
{
    let mut ahead = Ahead::new(machine, thread, Reads::Now);
    for event in 0..events {
        if let Some(fate) = go::<M>(machine, values, &mut ahead, event) {
            return (fate, ahead);
        }
    }
    (end(&ahead), ahead)
}

/// Does an event of a block. Returns the block's end if the block ends with it.
fn go<M: MemoryModel>(
    machine: &Machine,
    values: &mut Values,
    ahead: &mut Ahead,
    event: usize,
) -> Option<Fate>
    requires { event < EVENTS_AHEAD }
{
    ahead.drain(machine);
    if ahead.is_seen {
        return Some(Fate::Writes);
    }
    match ahead.go::<M>(machine, values, event) {
        Pace::On if !ahead.is_seen => None,
        Pace::On | Pace::End => Some(end(ahead)),
        Pace::Wait | Pace::Leave => Some(Fate::Stops),
    }
}

/// How a block ends if it ends where its thread is now.
fn end(ahead: &Ahead) -> Fate {
    if ahead.changes {
        Fate::Writes
    } else {
        Fate::Reads
    }
}
