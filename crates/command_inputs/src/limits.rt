//! The limits of the inputs.
ghost use Rattle.std.specs.Prelude.{◌≡◌};
ghost use Rattle.command_frame.specs.helpers.Failures.{plain_limit};
ghost use Rattle.command_inputs.specs.Limits.{limit_of, log_limit, part_text, program_limit, schedule_limit};

use command_frame::Limit;
use tc_limits::limits::{
    DEPTH, EVENTS, LOG_BYTES, OPERATORS, PROGRAM_BYTES, SCHEDULE_BYTES, THREADS,
};

/// What a log may have too many of.
#[derive(Clone, Copy)]
pub enum LogPart {
    /// Threads, main included.
    Threads,
    /// Creates on the way from main to a thread.
    Depth,
    /// Events of all threads.
    Events,
    /// Operators in the instructions of all steps.
    Operators,
}

impl LogPart {
    /// How many a log may have.
    pub fn limit(self) -> u64
        ensures { result ≡ limit_of self }
    {
        match self {
            LogPart::Threads => THREADS as u64,
            LogPart::Depth => DEPTH as u64,
            LogPart::Events => EVENTS as u64,
            LogPart::Operators => OPERATORS as u64,
        }
    }

    /// What they are called.
    pub fn text(self) -> &'static str
        ensures { result.now ≡ part_text self }
    {
        match self {
            LogPart::Threads => "threads",
            LogPart::Depth => "depth",
            LogPart::Events => "events",
            LogPart::Operators => "operators",
        }
    }
}

/// The limit of a program.
pub fn program_limit() -> Limit
    ensures { plain_limit result ≡ program_limit }
{
    Limit {
        kind: "program",
        most: PROGRAM_BYTES,
    }
}

/// The limit of a log.
pub fn log_limit() -> Limit
    ensures { plain_limit result ≡ log_limit }
{
    Limit {
        kind: "log",
        most: LOG_BYTES,
    }
}

/// The limit of a schedule.
pub fn schedule_limit() -> Limit
    ensures { plain_limit result ≡ schedule_limit }
{
    Limit {
        kind: "schedule",
        most: SCHEDULE_BYTES,
    }
}
