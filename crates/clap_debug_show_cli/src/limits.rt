//! Limits, and their names.
ghost use Rattle.std.specs.Prelude.{◌≡◌, codes};
ghost use Rattle.clap_debug_show_cli.specs.Answers.{what_text};
ghost use Rattle.clap_debug_show_cli.specs.Limits.{limit_of, program_limit, file_limit};
ghost use Rattle.command_frame.specs.helpers.Failures.{plain_limit};

use command_frame::Limit;
use tc_limits::limits::{LOG_BYTES, PROGRAM_BYTES, SCHEDULE_BYTES, THREADS};

/// A count that has a limit.
#[derive(Clone, Copy)]
pub(crate) enum What {
    LogBytes,
    Threads,
}

impl What {
    /// The limit.
    pub(crate) fn limit(self) -> u64
        ensures { result ≡ limit_of self }
    {
        match self {
            What::LogBytes => LOG_BYTES,
            What::Threads => THREADS as u64,
        }
    }

    /// The name.
    pub(crate) fn text(self) -> &'static str
        ensures { result.now ≡ what_text self }
    {
        match self {
            What::LogBytes => "log-bytes",
            What::Threads => "threads",
        }
    }
}

/// The limit of a program.
pub(crate) fn program_limit() -> Limit
    ensures { plain_limit result ≡ program_limit }
{
    Limit {
        kind: "program",
        most: PROGRAM_BYTES,
    }
}

/// The limit of a schedule, and of any second file before its kind is known.
pub(crate) fn file_limit() -> Limit
    ensures { plain_limit result ≡ file_limit }
{
    Limit {
        kind: "schedule",
        most: SCHEDULE_BYTES,
    }
}
