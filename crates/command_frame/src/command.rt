//! The interface of a command.
ghost use Rattle.std.specs.Prelude.{◌≡◌, IfOk, map};
ghost use Rattle.command_frame.specs.Inputs.{AreWithin};
ghost use Rattle.command_frame.specs.Meaning.{Meaning};
ghost use Rattle.command_frame.specs.helpers.Failures.{plain_keep};

use crate::input::Inputs;
use crate::keeping::Keep;
use crate::status::Status;
use std::alloc::{AllocError, Global};

/// A command: what it means, keeps and says.
pub trait Command {
    /// What comes of its inputs: a result, or a refusal.
    type Outcome: Drop;

    ghost meaning: { Self → Meaning Self.Outcome };

    /// What is kept of an outcome, in this order.
    fn keeps<'n, 'b>(
        &'n self,
        alloc: Global,
        outcome: &'b Self::Outcome,
    ) -> Result<Vec<Keep<'n, 'b>>, AllocError>
        ensures { IfOk result (λ keeps. map plain_keep keeps.items ≡ (meaning self.now).keeps_of outcome.now) };

    /// The text of an outcome.
    fn text(&self, alloc: Global, outcome: &Self::Outcome) -> Result<Vec<u8>, AllocError>
        ensures { IfOk result (λ text. (meaning self.now).IsTextOf outcome.now text.items) };

    /// The status of an outcome.
    fn status(&self, outcome: &Self::Outcome) -> Status
        ensures { result ≡ (meaning self.now).status_of outcome.now };
}

/// A command that works on its inputs as wholes.
pub trait Work: Command {
    /// Its inputs, in the order in which they are read.
    type Inputs: Inputs;

    /// Its inputs.
    fn inputs(&self) -> &Self::Inputs
        ensures { Self.Inputs.wanted result.now ≡ (Self.meaning self.now).inputs };

    /// Works out what comes of the bytes. An `Err` is want of memory.
    fn work(
        &self,
        alloc: Global,
        bytes: &<Self::Inputs as Inputs>::Bytes,
    ) -> Result<Self::Outcome, AllocError>
        requires { AreWithin (Self.meaning self.now).inputs (Self.Inputs.texts bytes.now) }
        ensures { IfOk result (λ outcome. (Self.meaning self.now).ComesOf (Self.Inputs.texts bytes.now) outcome) };
}
