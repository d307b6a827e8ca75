//! The logs of given threads.
ghost use Rattle.std.specs.Prelude.{◌≡◌, None, IfOk, IsTrue};
ghost use Rattle.run_log.specs.Logs.{is_log};

use memory_models::Model;
use run_log::{Log, ThreadPath};
use std::alloc::{AllocError, Global};
use tc_base::Failing;

/// A copy of a thread's path.
fn copy(alloc: Global, thread: &ThreadPath) -> Result<ThreadPath, AllocError>
    ensures { IfOk result (λ t. t ≡ thread.now) }
{
    let name = thread.name().clone()?;
    let outcomes = Vec::from_slice(alloc, thread.outcomes())?;
    Ok(ThreadPath::new(name, thread.steps(), outcomes))
}

/// Copies of the paths of threads.
fn copies(alloc: Global, threads: &[ThreadPath]) -> Result<Vec<ThreadPath>, AllocError>
    ensures { IfOk result (λ v. v.items ≡ threads.now) }
{
    let mut copies = Vec::new(alloc);
    for thread in threads {
        copies.push(copy(alloc, thread)?)?;
    }
    Ok(copies)
}

/// The log of threads with this end.
pub fn log_of(
    alloc: Global,
    model: Model,
    failing: Failing,
    threads: &[ThreadPath],
) -> Result<Log, AllocError>
    requires { IsTrue (is_log (record { model = model; failing = failing; threads = threads.now })) }
    ensures { IfOk result (λ l. l ≡ record { digest = None; log = record { model = model; failing = failing; threads = threads.now } }) }
{
    let threads = copies(alloc, threads)?;
    Ok(Log::new(None, model, failing, threads))
}
