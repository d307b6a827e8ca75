//! What is wrong with a name.

use std::alloc::{AllocError, AllocFailed};
use tc_lexer::Place;

/// What is wrong with a name, and where.
#[derive(Clone, Copy, Debug, PartialEq, Eq)]
pub enum NameFault {
    /// The name has no declaration.
    Unknown(Place),
    /// The name was declared earlier in its scope.
    Twice(Place),
    /// The name is of another kind than its use needs, or the length of an array is 0.
    Kind(Place),
    /// The thread has another number of parameters.
    Arguments(Place),
    /// Memory ran out.
    Memory,
}

impl From<AllocError> for NameFault {
    ghost use Rattle.std.specs.Prelude.{◌≡◌};
    ghost use Rattle.tc_names.specs.declared.fault.NameFault.TheVariants.{Memory};

    ghost from_gives = { λ _ fault. fault ≡ Memory };

    fn from(_error: AllocError) -> Self {
        NameFault::Memory
    }
}

impl<T: Drop> From<AllocFailed<T>> for NameFault {
    ghost use Rattle.std.specs.Prelude.{◌≡◌};
    ghost use Rattle.tc_names.specs.declared.fault.NameFault.TheVariants.{Memory};

    ghost from_gives = { λ _ fault. fault ≡ Memory };

    fn from(_failed: AllocFailed<T>) -> Self {
        NameFault::Memory
    }
}
