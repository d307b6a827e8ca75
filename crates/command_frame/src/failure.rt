//! Failures in place of an outcome.
use crate::limit::Limit;
use std::alloc::AllocError;

/// Why a command has no outcome, or not all of its outcome was kept.
#[derive(Clone, Copy)]
pub enum Failure<'a> {
    /// The file of this name couldn't be read.
    Read(&'a str),
    /// An input has more bytes than this limit.
    TooLong(Limit),
    /// The file of this name couldn't be written.
    Write(&'a str),
    /// Memory ran out.
    Memory,
}

impl<'a> From<AllocError> for Failure<'a> {
    ghost use Rattle.std.specs.Prelude.{◌≡◌};
    ghost use Rattle.command_frame.specs.declared.failure.Failure.TheVariants.{Memory};

    ghost from_gives = { λ _ failure. failure ≡ Memory };

    fn from(_error: AllocError) -> Self {
        Failure::Memory
    }
}
