//! The logs of the programs.
ghost use Rattle.std.specs.Prelude.{◌≡◌, ◌≤◌, [], ◌∷◌, None, IfOk};
ghost use Rattle.tc_workload.specs.Workload as spec;
ghost use Rattle.tc_workload.specs.Workload.{straight};
ghost use Rattle.tc_workload.specs.declared.program.TheConstants.{WORKERS};

use memory_models::Model;
use run_log::{Log, ThreadPath};
use std::alloc::{AllocError, Global};
use tc_base::{Failing, ThreadName};

/// The log of a failing run of the program with this many workers: each worker reads, and main
/// tests what they have read.
pub fn workload_log(alloc: Global, workers: u16) -> Result<Log, AllocError>
    requires { workers ≤ WORKERS }
    ensures { IfOk result (λ log. log ≡ record { digest = None; log = spec.workload_log workers }) }
{
    let threads = paths(alloc, workers)?;
    Ok(Log::new(None, Model::Tso, Failing::Thread(0), threads))
}

/// The path of each thread.
fn paths(alloc: Global, workers: u16) -> Result<Vec<ThreadPath>, AllocError>
    requires { workers ≤ WORKERS }
    ensures { IfOk result (λ paths. paths.items ≡ (spec.workload_log workers).threads) }
{
    let mut paths = Vec::new(alloc);
    paths.push(straight(alloc, ThreadName::main(alloc), 5 * workers + 1))?;
    for index in 0..workers {
        paths.push(worker_path(alloc, index + 1)?)?;
    }
    Ok(paths)
}

/// The path of a worker.
fn worker_path(alloc: Global, worker: u16) -> Result<ThreadPath, AllocError>
    requires { 1 ≤ worker }
    ensures { IfOk result (λ path. path ≡ straight (worker ∷ []) 7) }
{
    let name = ThreadName::main(alloc).child(u32::from(worker))?;
    Ok(straight(alloc, name, 7))
}

/// The path of a thread without branches.
fn straight(alloc: Global, name: ThreadName, steps: u16) -> ThreadPath
    ensures { result ≡ straight name steps }
{
    ThreadPath::new(name, steps, Vec::new(alloc))
}
