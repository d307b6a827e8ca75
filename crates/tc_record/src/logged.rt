//! The log of a run that failed or came to a deadlock.
ghost use Rattle.std.specs.Prelude.{◌≡◌, IfOk, IsSome, IfSome, Some, false, map, slice_get};
ghost use Rattle.std.specs.FinMap as fin;
ghost use Rattle.tc_record.specs.Ends.{has_many_steps};
ghost use Rattle.tc_record.specs.Logged.{IsLogOf};
ghost use Rattle.tc_record.specs.helpers.Paths.{named_path, EndsBy, HasThreads, IsWithin};

use run_log::{Log, ThreadPath};
use std::alloc::{AllocError, Global};
use store_buffers::MemoryModel;
use tc_base::{Failing, ThreadName};
use tc_machine::State;

/// The log of the state in which a run ended, by a failure or a deadlock.
pub(crate) fn log_of<M: MemoryModel>(alloc: Global, state: &State<M>) -> Result<Log, AllocError>
    requires within { IsWithin state.now }
    requires there { HasThreads state.now }
    ensures { IfOk result (λ log. IsLogOf M.MODEL state.now log) }
{
    let threads = paths(alloc, state)?;
    Ok(Log::new(None, M::MODEL, ending(state), threads))
}

/// The path of each thread.
fn paths<M: MemoryModel>(alloc: Global, state: &State<M>) -> Result<Vec<ThreadPath>, AllocError>
    requires within { IsWithin state.now }
    ensures { IfOk result (λ paths. paths.items ≡ map (named_path state.now) (fin.keys state.now.threads)) }
{
    let mut paths = Vec::new(alloc);
    for name in state.threads().as_slice() {
        paths.push(path_of(alloc, state, name)?)?;
    }
    Ok(paths)
}

/// The path of a thread.
fn path_of<M: MemoryModel>(
    alloc: Global,
    state: &State<M>,
    name: &ThreadName,
) -> Result<ThreadPath, AllocError>
    requires few { has_many_steps state.now name.now ≡ false }
    ensures { IfOk result (λ path. path ≡ named_path state.now name.now) }
{
    let steps = state.steps_of(name).unwrap_or(0);
    let outcomes = match state.outcomes_of(name) {
        Some(outcomes) => outcomes.as_slice().to_vec(alloc)?,
        None => Vec::new(alloc),
    };
    Ok(ThreadPath::new(name.clone()?, steps as u16, outcomes))
}

/// How the run ended.
fn ending<M: MemoryModel>(state: &State<M>) -> Failing
    requires { IfSome state.now.failed (λ n. IsSome (fin.get state.now.threads n)) }
    ensures { EndsBy state.now result }
{
    match state.failed() {
        Some(name) => Failing::Thread(index_of(state, name)),
        None => Failing::Deadlock,
    }
}

/// The index of a thread, in the order of the names.
fn index_of<M: MemoryModel>(state: &State<M>, thread: &ThreadName) -> usize
    requires { IsSome (fin.get state.now.threads thread.now) }
    ensures { slice_get (fin.keys state.now.threads) result ≡ Some thread.now }
{
    for (index, name) in state.threads().as_slice().iter().enumerate() {
        if name == thread {
            return index;
        }
    }
    unreachable!()
}
