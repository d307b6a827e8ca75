//! Why a move isn't made.
ghost use Rattle.std.specs.Prelude.{◌≡◌};
ghost use Rattle.tc_machine.specs.declared.fault.StepFault.TheVariants.{NotEnabled, Memory};

use crate::why::Why;
use std::alloc::AllocError;

/// Why a move that was tried isn't made.
#[derive(Clone, Copy, Debug, PartialEq, Eq)]
pub enum StepFault {
    /// It isn't enabled, for this first reason.
    NotEnabled(Why),
    /// Memory ran out.
    Memory,
}

impl From<Why> for StepFault {
    ghost from_gives = { λ why fault. fault ≡ NotEnabled why };

    fn from(why: Why) -> Self {
        StepFault::NotEnabled(why)
    }
}

impl From<AllocError> for StepFault {
    ghost from_gives = { λ _ fault. fault ≡ Memory };

    fn from(_failed: AllocError) -> Self {
        StepFault::Memory
    }
}
