//! The reasons why a log has no system.
ghost use Rattle.std.specs.Prelude.{◌≡◌};
ghost use Rattle.clap_system.specs.Faults.{limit_of};
ghost use Rattle.clap_system.specs.helpers.From.{from_walk};
ghost use Rattle.clap_system.specs.declared.fault.BuildFault.TheVariants.{Memory};

use path_walk::WalkFault;
use std::alloc::{AllocError, AllocFailed};
use tc_limits::limits::{DEPTH, EVENTS, OPERATORS, THREADS};

/// What the paths of a log may have too many of.
#[derive(Clone, Copy, Debug, PartialEq, Eq)]
pub enum Which {
    /// Threads, main included.
    Threads,
    /// Creates on the way from main to a thread.
    Depth,
    /// Events of all threads.
    Events,
    /// Operators in the instructions of all steps.
    Operators,
}

impl Which {
    /// The limit.
    pub fn limit(self) -> u64
        ensures { result ≡ limit_of self }
    {
        match self {
            Which::Threads => THREADS as u64,
            Which::Depth => DEPTH as u64,
            Which::Events => EVENTS as u64,
            Which::Operators => OPERATORS as u64,
        }
    }
}

/// The reasons why a log has no system.
#[derive(Debug, Drop)]
pub enum BuildFault {
    /// The log doesn't fit the program. Out of memory in the walk is reported as `Memory`.
    Walk(WalkFault),
    /// The paths have too many of something: their number, and the limit.
    Limit(Which, u64, u64),
    /// Out of memory.
    Memory,
}

impl From<WalkFault> for BuildFault {
    ghost from_gives = { λ fault made. made ≡ from_walk fault };

    fn from(fault: WalkFault) -> Self {
        match fault {
            WalkFault::Unfit(name, misfit) => BuildFault::Walk(WalkFault::Unfit(name, misfit)),
            WalkFault::Memory => BuildFault::Memory,
        }
    }
}

impl From<AllocError> for BuildFault {
    ghost from_gives = { λ _ fault. fault ≡ Memory };

    fn from(_failed: AllocError) -> Self {
        BuildFault::Memory
    }
}

impl<T: Drop> From<AllocFailed<T>> for BuildFault {
    ghost from_gives = { λ _ fault. fault ≡ Memory };

    fn from(_failed: AllocFailed<T>) -> Self {
        BuildFault::Memory
    }
}
