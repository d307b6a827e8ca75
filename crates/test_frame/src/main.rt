//! Rows of two commands over the frame: one joins two files in both orders, and so has two inputs,
//! two outputs, a result and a refusal; the other reads its last input in pieces. `test_table`
//! defines the format of a table.
#![tactic(auto)]

ghost use Rattle.std.specs.Prelude.{◌≡◌, ◌++◌, IfOk};
ghost use Rattle.command_frame.specs.Run.{Runs};
ghost use Rattle.command_frame.specs.helpers.Failures.{plain_limit};
ghost use Rattle.test_frame.specs.Join.{join_inputs, join_meaning, join_of, part_inputs, part_limit};

mod glue;

use command_frame::{Command, Keep, Limit, Status, Whole, Work, run};
pub use glue::{Glue, Glued, glue_files};
use std::alloc::{AllocError, Global};
use tc_io::{Shelf, Sink};
use test_table::runs;

/// The command: the names of its inputs and outputs.
#[derive(Drop)]
pub struct Join<'a> {
    inputs: (Whole<'a>, Whole<'a>),
    out: &'a str,
    back: &'a str,
}

/// The outcome for the files.
#[derive(Drop)]
pub enum Joined {
    /// The first file is empty, which is refused.
    Empty,
    /// The two files joined, in both orders.
    Both(Vec<u8>, Vec<u8>),
}

/// Joins two files, and keeps the result in both orders.
pub fn join_files<H: Shelf, K: Sink>(
    alloc: Global,
    parts: (&str, &str),
    outputs: (&str, &str),
    shelf: &mut H,
    sink: &mut K,
) -> u8
    ensures { Runs (join_of parts.entry.0.now parts.entry.1.now outputs.entry.0.now outputs.entry.1.now) (H.tells shelf.old) (H.tells shelf.new) result (K.tells sink.old) (K.tells sink.new) }
{
    let join = Join::new(parts.0, parts.1, outputs.0, outputs.1);
    run(alloc, &join, shelf, sink)
}

/// The limit of each of the files.
pub(crate) fn part_limit() -> Limit
    ensures { plain_limit result ≡ part_limit }
{
    Limit {
        kind: "part",
        most: 4,
    }
}

impl<'a> Join<'a> {
    fn new(first: &'a str, second: &'a str, out: &'a str, back: &'a str) -> Join<'a>
        ensures inputs { join_inputs result ≡ part_inputs first.entry.now second.entry.now }
        ensures out { result.out.now ≡ out.entry.now }
        ensures back { result.back.now ≡ back.entry.now }
    {
        let limit = part_limit();
        let first = Whole { limit, name: first };
        let second = Whole {
            limit,
            name: second,
        };
        Join {
            inputs: (first, second),
            out,
            back,
        }
    }
}

/// Joins two texts.
fn append(alloc: Global, first: &[u8], second: &[u8]) -> Result<Vec<u8>, AllocError>
    ensures { IfOk result (λ both. both.items ≡ first.now ++ second.now) }
{
    let mut both = first.to_vec(alloc)?;
    both.extend_from_slice(second)?;
    Ok(both)
}

impl<'a> Command for Join<'a> {
    type Outcome = Joined;

    ghost meaning = { join_meaning };

    fn keeps<'n, 'b>(
        &'n self,
        alloc: Global,
        outcome: &'b Joined,
    ) -> Result<Vec<Keep<'n, 'b>>, AllocError> {
        let mut keeps = Vec::new(alloc);
        if let Joined::Both(one, other) = outcome {
            keeps.push(Keep::new(self.out, one))?;
            keeps.push(Keep::new(self.back, other))?;
        }
        Ok(keeps)
    }

    fn text(&self, alloc: Global, outcome: &Joined) -> Result<Vec<u8>, AllocError> {
        let text = match outcome {
            Joined::Empty => "empty\n",
            Joined::Both(_, _) => "joined\n",
        };
        text.as_bytes().to_vec(alloc)
    }

    fn status(&self, outcome: &Joined) -> Status {
        match outcome {
            Joined::Empty => Status::InputRefused,
            Joined::Both(_, _) => Status::Done,
        }
    }
}

impl<'a> Work for Join<'a> {
    type Inputs = (Whole<'a>, Whole<'a>);

    fn inputs(&self) -> &(Whole<'a>, Whole<'a>) {
        &self.inputs
    }

    fn work(&self, alloc: Global, bytes: &(Vec<u8>, Vec<u8>)) -> Result<Joined, AllocError> {
        let (first, second) = (&bytes.0, &bytes.1);
        if first.is_empty() {
            return Ok(Joined::Empty);
        }
        let one = append(alloc, first, second)?;
        let other = append(alloc, second, first)?;
        Ok(Joined::Both(one, other))
    }
}

/// The command of some words. Its status is 2 if there is none.
fn call<H: Shelf, K: Sink>(alloc: Global, words: &[String], shelf: &mut H, sink: &mut K) -> u8 {
    let (first, second) = match words {
        [_, first, second, ..] => (first.as_str(), second.as_str()),
        _ => return 2,
    };
    match words {
        [_, _, _] => glue_files(alloc, first, second, shelf, sink),
        [_, _, _, out, back] => {
            let outputs = (out.as_str(), back.as_str());
            join_files(alloc, (first, second), outputs, shelf, sink)
        }
        _ => 2,
    }
}

fn main(rt: HostRuntime) -> anyhow::Result<()> {
    runs::run(
        &rt,
        |alloc, words, shelf, sink| call(alloc, words, shelf, sink),
    )
}
