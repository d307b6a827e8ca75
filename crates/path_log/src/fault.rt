//! Why a text isn't a log.
ghost use Rattle.std.specs.Prelude.{◌≡◌};
ghost use Rattle.path_log.specs.declared.fault.LogFault.TheVariants.{Memory};

use std::alloc::{AllocError, AllocFailed};
use thiserror::Error;

/// Why a text isn't a log.
#[derive(Clone, Copy, Debug, PartialEq, Eq, Error)]
pub enum LogFault {
    /// The offset of the first field that is cut short or breaks its rule.
    #[error("form at {0}")]
    Form(usize),
    /// Memory ran out.
    #[error("no memory")]
    Memory,
}

impl From<AllocError> for LogFault {
    ghost from_gives = { λ _ fault. fault ≡ Memory };

    fn from(_failed: AllocError) -> Self {
        LogFault::Memory
    }
}

impl<T: Drop> From<AllocFailed<T>> for LogFault {
    ghost from_gives = { λ _ fault. fault ≡ Memory };

    fn from(_failed: AllocFailed<T>) -> Self {
        LogFault::Memory
    }
}
