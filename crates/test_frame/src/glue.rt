//! A command that appends a file to another, and reads it in pieces.
ghost use Rattle.std.specs.Prelude.{◌≡◌};
ghost use Rattle.command_frame.specs.Inputs as spec;
ghost use Rattle.command_frame.specs.Run.{Runs};
ghost use Rattle.command_frame.specs.helpers.Failures.{plain_whole};
ghost use Rattle.test_frame.specs.Glue.{glue_meaning, glue_of, knows};
ghost use Rattle.test_frame.specs.Join.{part_limit};

use crate::part_limit;
use command_frame::{Command, Keep, Status, Whole, WorkInPieces, run_in_pieces};
use std::alloc::{AllocError, Global};
use tc_io::{Shelf, Sink};

/// The most bytes that there is room for.
const ROOM: usize = 100_000;

/// The command: its first input, and the name of its last.
#[derive(Drop)]
pub struct Glue<'a> {
    first: Whole<'a>,
    last: &'a str,
}

/// Both files, one behind the other.
#[derive(Drop)]
pub struct Glued {
    pub bytes: Vec<u8>,
}

/// Puts the bytes of the first file, and then those of the last.
pub fn glue_files<H: Shelf, K: Sink>(
    alloc: Global,
    first: &str,
    last: &str,
    shelf: &mut H,
    sink: &mut K,
) -> u8
    ensures { Runs (glue_of first.now last.now) (H.tells shelf.old) (H.tells shelf.new) result (K.tells sink.old) (K.tells sink.new) }
{
    let glue = Glue::new(first, last);
    run_in_pieces(alloc, &glue, shelf, sink)
}

impl<'a> Glue<'a> {
    fn new(first: &'a str, last: &'a str) -> Glue<'a>
        ensures first { plain_whole result.first ≡ spec.Whole part_limit first.entry.now }
        ensures last { result.last.now ≡ last.entry.now }
    {
        let limit = part_limit();
        let first = Whole { limit, name: first };
        Glue { first, last }
    }
}

impl<'a> Command for Glue<'a> {
    type Outcome = Glued;

    ghost meaning = { glue_meaning };

    fn keeps<'n, 'b>(
        &'n self,
        alloc: Global,
        _outcome: &'b Glued,
    ) -> Result<Vec<Keep<'n, 'b>>, AllocError> {
        Ok(Vec::new(alloc))
    }

    fn text(&self, alloc: Global, outcome: &Glued) -> Result<Vec<u8>, AllocError> {
        outcome.bytes.to_vec(alloc)
    }

    fn status(&self, _outcome: &Glued) -> Status {
        Status::Done
    }
}

impl<'a> WorkInPieces for Glue<'a> {
    type Inputs = Whole<'a>;

    type State = Vec<u8>;

    ghost knows = { λ _ t front state. knows t front state.items };

    fn inputs(&self) -> (&Whole<'a>, &str) {
        (&self.first, self.last)
    }

    fn begin(&self, alloc: Global, bytes: &Vec<u8>) -> Result<Vec<u8>, AllocError> {
        bytes.to_vec(alloc)
    }

    fn take(&self, _alloc: Global, state: &mut Vec<u8>, piece: &[u8]) -> Result<(), AllocError> {
        if state.len() > ROOM || piece.len() > ROOM - state.len() {
            return Err(AllocError);
        }
        state.extend_from_slice(piece)
    }

    fn finish(&self, _alloc: Global, state: Vec<u8>) -> Result<Glued, AllocError> {
        Ok(Glued { bytes: state })
    }
}
