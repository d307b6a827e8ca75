//! Why bytes aren't a refutation.
ghost use Rattle.std.specs.Prelude.{◌≡◌};
ghost use Rattle.refute_check.specs.declared.fault.RefutationFault.TheVariants.{Memory};

use std::alloc::{AllocError, AllocFailed};

/// Why bytes aren't a refutation.
#[derive(Clone, Copy, Debug, PartialEq, Eq)]
pub enum RefutationFault {
    /// The number, from 1, of the first line that breaks the form.
    Form(u32),
    /// Memory ran out.
    Memory,
}

impl From<AllocError> for RefutationFault {
    ghost from_gives = { λ _ fault. fault ≡ Memory };

    fn from(_failed: AllocError) -> Self {
        RefutationFault::Memory
    }
}

impl<T: Drop> From<AllocFailed<T>> for RefutationFault {
    ghost from_gives = { λ _ fault. fault ≡ Memory };

    fn from(_failed: AllocFailed<T>) -> Self {
        RefutationFault::Memory
    }
}
