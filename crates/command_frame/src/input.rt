//! The inputs of a command.
ghost use Rattle.std.specs.Prelude.{◌≡◌, List, [], ◌∷◌, ◌++◌, IfErr, IfOk};
ghost use Rattle.command_frame.specs.Inputs as spec;
ghost use Rattle.command_frame.specs.Inputs.{GaveAll, Texts, Wanted};
ghost use Rattle.command_frame.specs.helpers.Failures.{IsWhyMissing, plain_limit, plain_whole};

use crate::failure::Failure;
use crate::limit::Limit;
use std::alloc::Global;
use tc_io::{FetchFault, Shelf};

/// An input with a limit.
#[derive(Clone, Copy)]
pub struct Whole<'a> {
    pub limit: Limit,
    pub name: &'a str,
}

/// An input of any length, read at once.
#[derive(Clone, Copy)]
pub struct Entire<'a> {
    pub name: &'a str,
}

/// Inputs in the order in which they are read: `()`, one input, or a pair of inputs.
pub trait Inputs {
    /// Their bytes.
    type Bytes: Drop;

    ghost wanted: { Self → List Wanted };

    ghost texts: { Self.Bytes → Texts };

    /// Reads them, and nothing else.
    fn read<'a, H: Shelf>(
        &'a self,
        alloc: Global,
        shelf: &mut H,
    ) -> Result<Self::Bytes, Failure<'a>>
        ensures gave { IfOk result (λ bytes. GaveAll (wanted self.now) (H.tells shelf.old) (H.tells shelf.new) (texts bytes)) }
        ensures missing { IfErr result (IsWhyMissing (wanted self.now) (H.tells shelf.old) (H.tells shelf.new)) };
}

impl Inputs for () {
    type Bytes = ();

    ghost wanted = { λ _. [] };

    ghost texts = { λ _. [] };

    fn read<'a, H: Shelf>(&'a self, _alloc: Global, _shelf: &mut H) -> Result<(), Failure<'a>> {
        Ok(())
    }
}

impl<'b> Inputs for Whole<'b> {
    type Bytes = Vec<u8>;

    ghost wanted = { λ whole. plain_whole whole ∷ [] };

    ghost texts = { λ bytes. bytes.items ∷ [] };

    fn read<'a, H: Shelf>(&'a self, alloc: Global, shelf: &mut H) -> Result<Vec<u8>, Failure<'a>> {
        read_whole(alloc, shelf, self.limit, self.name)
    }
}

/// The bytes of a file with a limit.
pub fn read_whole<'a, H: Shelf>(
    alloc: Global,
    shelf: &mut H,
    limit: Limit,
    name: &'a str,
) -> Result<Vec<u8>, Failure<'a>>
    ensures gave { IfOk result (λ bytes. GaveAll (spec.Whole (plain_limit limit) name.now ∷ []) (H.tells shelf.old) (H.tells shelf.new) (bytes.items ∷ [])) }
    ensures missing { IfErr result (IsWhyMissing (spec.Whole (plain_limit limit) name.now ∷ []) (H.tells shelf.old) (H.tells shelf.new)) }
{
    match shelf.fetch(alloc, name, limit.most) {
        Ok(bytes) => Ok(bytes),
        Err(FetchFault::Failed) => Err(Failure::Read(name)),
        Err(FetchFault::TooLong) => Err(Failure::TooLong(limit)),
        Err(FetchFault::Memory) => Err(Failure::Memory),
    }
}

impl<'b> Inputs for Entire<'b> {
    type Bytes = Vec<u8>;

    ghost wanted = { λ entire. spec.Entire entire.name.now ∷ [] };

    ghost texts = { λ bytes. bytes.items ∷ [] };

    fn read<'a, H: Shelf>(&'a self, alloc: Global, shelf: &mut H) -> Result<Vec<u8>, Failure<'a>> {
        match shelf.fetch(alloc, self.name, u64::MAX) {
            Ok(bytes) => Ok(bytes),
            Err(FetchFault::Memory) => Err(Failure::Memory),
            // The read failed, or there are more bytes than a number counts.
            Err(_) => Err(Failure::Read(self.name)),
        }
    }
}

impl<A: Inputs, B: Inputs> Inputs for (A, B) {
    type Bytes = (A::Bytes, B::Bytes);

    ghost wanted = { λ both. A.wanted both.0 ++ B.wanted both.1 };

    ghost texts = { λ both. A.texts both.0 ++ B.texts both.1 };

    fn read<'a, H: Shelf>(
        &'a self,
        alloc: Global,
        shelf: &mut H,
    ) -> Result<(A::Bytes, B::Bytes), Failure<'a>> {
        let first = self.0.read(alloc, shelf)?;
        let second = self.1.read(alloc, shelf)?;
        Ok((first, second))
    }
}
