//! What ends a run.
ghost use Rattle.std.specs.Prelude.{◌≡◌};
ghost use Rattle.tc_record.specs.Ends as ends;
ghost use Rattle.tc_record.specs.Ends.{limit_of};

use store_buffers::MemoryModel;
use tc_limits::limits::{DEPTH, STEPS, THREADS};
use tc_machine::State;

/// A limit of recorded runs.
#[derive(Clone, Copy, Debug, PartialEq, Eq)]
pub enum Which {
    /// The number of threads.
    Threads,
    /// The number of creates that lead from main to a thread.
    Depth,
    /// The number of steps of a thread.
    Steps,
}

impl Which {
    /// The most that is allowed.
    pub fn limit(self) -> u64
        ensures { result ≡ limit_of self }
    {
        match self {
            Which::Threads => THREADS as u64,
            Which::Depth => DEPTH as u64,
            Which::Steps => u64::from(STEPS),
        }
    }
}

/// What ends a run.
#[derive(Clone, Copy)]
pub enum End {
    /// The run exceeds this limit by one.
    Over(Which),
    /// A thread has failed.
    Failed,
    /// Every thread has exited.
    Finished,
    /// No move is enabled, and not every thread has exited.
    Deadlock,
    /// The run has made as many moves as it may make.
    StepLimit,
}

/// What ends a run after a move, if anything: the first limit that is exceeded, or a failure.
pub(crate) fn end_at<M: MemoryModel>(state: &State<M>) -> Option<End>
    ensures { result ≡ ends.end_at state.now }
{
    if state.threads().len() > THREADS {
        Some(End::Over(Which::Threads))
    } else if some_is_deep(state) {
        Some(End::Over(Which::Depth))
    } else if some_has_many_steps(state) {
        Some(End::Over(Which::Steps))
    } else if state.failed().is_some() {
        Some(End::Failed)
    } else {
        None
    }
}

/// Whether some thread is deeper than the limit.
fn some_is_deep<M: MemoryModel>(state: &State<M>) -> bool
    ensures { result ≡ ends.some_is_deep state.now }
{
    let names = state.threads().as_slice();
    names.iter().any(|name| name.children().len() > DEPTH)
}

/// Whether some thread has done more steps than the limit.
fn some_has_many_steps<M: MemoryModel>(state: &State<M>) -> bool
    ensures { result ≡ ends.some_has_many_steps state.now }
{
    for (_name, thread) in state.entries() {
        if thread.local().steps() > STEPS {
            return true;
        }
    }
    false
}

/// What ends a run when no move is enabled.
pub(crate) fn end_without_moves<M: MemoryModel>(state: &State<M>) -> End
    ensures { result ≡ ends.end_without_moves state.now }
{
    if state.all_have_exited() {
        End::Finished
    } else {
        End::Deadlock
    }
}
