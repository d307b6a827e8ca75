//! Commands that read their last input in pieces.
ghost use Rattle.std.specs.Prelude.{◌≡◌, ◌++◌, ◌∷◌, [], ℕ, List, IfErr, IfOk, OnOk};
ghost use Rattle.tc_io.specs.Outside.{GaveReading, Opened};
ghost use Rattle.command_frame.specs.Causes.{IsCause};
ghost use Rattle.command_frame.specs.Inputs.{AreWithin, InPieces, Texts};
ghost use Rattle.command_frame.specs.helpers.Failures.{IsWhyMissing, answer_of};

use crate::command::Command;
use crate::failure::Failure;
use crate::input::Inputs;
use crate::keep_outcome;
use std::alloc::{AllocError, Global};
use tc_io::{OpenFault, PieceFault, Shelf};

/// The most bytes that are read at once.
const PIECE: usize = 65_536;

/// A command that reads its last input in pieces, and keeps of it only what it needs.
pub trait WorkInPieces: Command {
    /// The inputs before the last, in the order in which they are read.
    type Inputs: Inputs;

    /// What it knows of its inputs so far.
    type State: Drop;

    // what it knows after the inputs before the last, and these bytes of the last
    ghost knows: { Self → Texts → List ℕ → Self.State → Type 0 };

    /// The inputs before the last, and the name of the last.
    fn inputs(&self) -> (&Self::Inputs, &str)
        ensures { (Self.meaning self.now).inputs ≡ Self.Inputs.wanted result.0.now ++ InPieces result.1.now ∷ [] };

    /// Begins with the bytes of the inputs before the last. An `Err` is want of memory.
    fn begin(
        &self,
        alloc: Global,
        bytes: &<Self::Inputs as Inputs>::Bytes,
    ) -> Result<Self::State, AllocError>
        requires { AreWithin (Self.meaning self.now).inputs (Self.Inputs.texts bytes.now ++ [] ∷ []) }
        ensures { IfOk result (knows self.now (Self.Inputs.texts bytes.now) []) };

    /// Takes the next bytes of the last input.
    fn take(&self, alloc: Global, state: &mut Self::State, piece: &[u8]) -> Result<(), AllocError>
        requires { (t : Texts) × (front : List ℕ) × knows self.now t front state.old }
        ensures { OnOk result ((t : Texts) (front : List ℕ) → knows self.now t front state.old → knows self.now t (front ++ piece.now) state.new) };

    /// What comes of all inputs.
    fn finish(&self, alloc: Global, state: Self::State) -> Result<Self::Outcome, AllocError>
        requires { (t : Texts) × (bytes : List ℕ) × knows self.now t bytes state }
        ensures { IfOk result (λ outcome. (t : Texts) (bytes : List ℕ) → knows self.now t bytes state
            → (Self.meaning self.now).ComesOf (t ++ bytes ∷ []) outcome) };
}

/// The outcome of a command, of which everything is kept, or why it has none or not all is kept.
pub(crate) fn carry_out_in_pieces<'a, C: WorkInPieces, H: Shelf>(
    alloc: Global,
    command: &'a C,
    shelf: &mut H,
) -> Result<C::Outcome, Failure<'a>>
    ensures { IsCause (C.meaning command.now) (H.tells shelf.old) (H.tells shelf.new) (answer_of result) }
{
    let (inputs, last) = command.inputs();
    let bytes = inputs.read(alloc, shelf)?;
    let mut state = command.begin(alloc, &bytes)?;
    take_all(alloc, command, last, shelf, &mut state)?;
    let outcome = command.finish(alloc, state)?;
    keep_outcome(alloc, command, &outcome, shelf)?;
    Ok(outcome)
}

/// Takes the input of this name to its end.
fn take_all<'a, C: WorkInPieces, H: Shelf>(
    alloc: Global,
    command: &C,
    name: &'a str,
    shelf: &mut H,
    state: &mut C::State,
) -> Result<(), Failure<'a>>
    requires { (t : Texts) × C.knows command.now t [] state.old }
    ensures gave { OnOk result ((bytes : List ℕ) × GaveReading (H.tells shelf.old) (H.tells shelf.new) name.now bytes
        × ((t : Texts) → C.knows command.now t [] state.old → C.knows command.now t bytes state.new)) }
    ensures missing { IfErr result (IsWhyMissing (InPieces name.now ∷ []) (H.tells shelf.old) (H.tells shelf.new)) }
{
    open(alloc, name, shelf)?;
    let mut piece = [0u8; PIECE];
    for _turn in 0..u64::MAX {
        match shelf.piece(&mut piece) {
            Ok(0) => return Ok(()),
            Ok(count) => command.take(alloc, state, &piece[..count])?,
            Err(PieceFault::Failed) => return Err(Failure::Read(name)),
        }
    }
    // There is no memory that has so many pieces.
    Err(Failure::Memory)
}

/// Opens a reading of the input of this name.
fn open<'a, H: Shelf>(alloc: Global, name: &'a str, shelf: &mut H) -> Result<(), Failure<'a>>
    ensures opened { OnOk result (Opened (H.tells shelf.old) (H.tells shelf.new) name.now) }
    ensures missing { IfErr result (IsWhyMissing (InPieces name.now ∷ []) (H.tells shelf.old) (H.tells shelf.new)) }
{
    match shelf.open(alloc, name) {
        Ok(()) => Ok(()),
        Err(OpenFault::Failed) => Err(Failure::Read(name)),
        Err(OpenFault::Memory) => Err(Failure::Memory),
    }
}
