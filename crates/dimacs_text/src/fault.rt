//! Why a text isn't an answer.
ghost use Rattle.std.specs.Prelude.{◌≡◌};
ghost use Rattle.dimacs_text.specs.declared.fault.AnswerFault.TheVariants.{Memory};

use std::alloc::{AllocError, AllocFailed};
use thiserror::Error;

/// Why a text isn't an answer.
#[derive(Clone, Copy, Debug, PartialEq, Eq, Error)]
pub enum AnswerFault {
    /// The first line, from 1, that breaks the form; one past the last if the text ends too early.
    #[error("line {0}")]
    Form(usize),
    /// Memory ran out.
    #[error("no memory")]
    Memory,
}

impl From<AllocError> for AnswerFault {
    ghost from_gives = { λ _ fault. fault ≡ Memory };

    fn from(_failed: AllocError) -> Self {
        AnswerFault::Memory
    }
}
