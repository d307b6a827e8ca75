//! The results of seeded runs.
ghost use Rattle.std.specs.Prelude.{◌≡◌};
ghost use Rattle.tc_record.specs.declared.seeded.SeededFault.TheVariants.{Memory};

use crate::end::Which;
use run_log::Log;
use std::alloc::{AllocError, AllocFailed};
use tc_base::Move;

/// How a seeded run ended, with the moves that it made.
#[derive(Debug, Drop)]
pub enum Seeded {
    /// A thread failed at an instruction of this line. The log, which the moves reproduce, has no
    /// digest.
    Failed(Log, Vec<Move>, u32),
    /// Every thread exited.
    Finished(Vec<Move>),
    /// No move was enabled, but some thread had not exited. The log, which the moves reproduce, has
    /// no digest.
    Deadlock(Log, Vec<Move>),
    /// The run made as many moves as it may make.
    StepLimit(Vec<Move>),
}

/// Why a seeded run has no result.
#[derive(Clone, Copy, Debug, PartialEq, Eq)]
pub enum SeededFault {
    /// The run exceeded a limit: which limit, the count, and the most that is allowed.
    Limit(Which, u64, u64),
    /// Memory ran out.
    Memory,
}

impl From<AllocError> for SeededFault {
    ghost from_gives = { λ _ fault. fault ≡ Memory };

    fn from(_failed: AllocError) -> Self {
        SeededFault::Memory
    }
}

impl<T: Drop> From<AllocFailed<T>> for SeededFault {
    ghost from_gives = { λ _ fault. fault ≡ Memory };

    fn from(_failed: AllocFailed<T>) -> Self {
        SeededFault::Memory
    }
}
