//! What logs may have too many of.
ghost use Rattle.std.specs.Prelude.{◌≡◌, ◌<◌, IfOk, string_bytes};
ghost use Rattle.log_limits.specs.Parts.{limit_of, over_line, part_left, part_of, part_text};

use clap_system::Which;
use log_walk::LeftOut;
use std::alloc::{AllocError, Global};
use tc_limits::limits::{DEPTH, EVENTS, OPERATORS, STEPS, THREADS};

/// What a log may have too many of.
#[derive(Clone, Copy, Debug, PartialEq, Eq)]
pub enum Part {
    /// Threads, main included.
    Threads,
    /// Creates on the way from main to a thread.
    Depth,
    /// Steps of a thread.
    Steps,
    /// Events of all threads.
    Events,
    /// Operators in the instructions of all steps.
    Operators,
}

impl Part {
    /// How many a log may have.
    pub fn limit(self) -> u64
        ensures value { result ≡ limit_of self }
        ensures small { result < 65536 }
    {
        match self {
            Part::Threads => THREADS as u64,
            Part::Depth => DEPTH as u64,
            Part::Steps => u64::from(STEPS),
            Part::Events => EVENTS as u64,
            Part::Operators => OPERATORS as u64,
        }
    }

    /// What they are called.
    fn text(self) -> &'static str
        ensures { result.now ≡ part_text self }
    {
        match self {
            Part::Threads => "threads",
            Part::Depth => "depth",
            Part::Steps => "steps",
            Part::Events => "events",
            Part::Operators => "operators",
        }
    }

    /// The line that a log has this many of these, which are too many.
    pub fn over_line(self, alloc: Global, number: u64) -> Result<String, AllocError>
        ensures { IfOk result (λ text. string_bytes text ≡ over_line self number) }
    {
        let (part, most) = (self.text(), self.limit());
        format!(in alloc; "limit {part} {number} of {most}\n")
    }
}

/// What a log that can't be solved has too many of.
pub fn part_of(which: Which) -> Part
    ensures { result ≡ part_of which }
{
    match which {
        Which::Threads => Part::Threads,
        Which::Depth => Part::Depth,
        Which::Events => Part::Events,
        Which::Operators => Part::Operators,
    }
}

/// What logs that were left out have too many of.
pub fn part_left(out: LeftOut) -> Part
    ensures { result ≡ part_left out }
{
    if out.threads {
        Part::Threads
    } else if out.depth {
        Part::Depth
    } else {
        Part::Steps
    }
}
