//! The number of workers of a workload.
ghost use Rattle.std.specs.Prelude.{◌≤◌};
ghost use Rattle.workload_command.specs.declared.workers.TheConstants.{WORKERS};

/// The most workers of a workload.
pub const WORKERS: u32 = 12;

/// The number of workers of a workload, in its range.
#[derive(Clone, Copy, Debug)]
pub struct Workers {
    pub count: u32,
    ghost some: { 1 ≤ count },
    ghost few: { count ≤ WORKERS },
}
