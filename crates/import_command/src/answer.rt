//! The file of an answer.
ghost use Rattle.std.specs.Prelude.{◌≡◌, [], ◌∷◌};
ghost use Rattle.command_frame.specs.Inputs.{Whole};
ghost use Rattle.command_frame.specs.helpers.Failures.{plain_limit};
ghost use Rattle.import_command.specs.Calls.{answer_limit};

use command_frame::{Failure, Inputs, Limit, read_whole};
use std::alloc::Global;
use tc_io::Shelf;

/// The most bytes of a solver's answer.
const ANSWER_BYTES: u64 = 67_108_864;

/// A solver's answer, by the name of its file.
#[derive(Clone, Copy)]
pub struct AnswerFile<'a> {
    pub name: &'a str,
}

impl<'b> Inputs for AnswerFile<'b> {
    type Bytes = Vec<u8>;

    ghost wanted = { λ file. Whole answer_limit file.name.now ∷ [] };

    ghost texts = { λ bytes. bytes.items ∷ [] };

    fn read<'a, H: Shelf>(&'a self, alloc: Global, shelf: &mut H) -> Result<Vec<u8>, Failure<'a>> {
        read_whole(alloc, shelf, answer_limit(), self.name)
    }
}

/// The limit of a solver's answer.
fn answer_limit() -> Limit
    ensures { plain_limit result ≡ answer_limit }
{
    Limit {
        kind: "answer",
        most: ANSWER_BYTES,
    }
}
