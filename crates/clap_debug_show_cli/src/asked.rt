//! The two commands as values: their inputs and options.
ghost use Rattle.std.specs.Prelude.{◌≡◌};
ghost use Rattle.tc_limits.specs.declared.limits.TheConstants.{PROGRAM_BYTES};

use crate::words::Showing;
use command_frame::Whole;

/// `PROGRAM`: help with the program of this name.
#[derive(Drop)]
pub(crate) struct Help<'a> {
    pub(crate) program: Whole<'a>,
    ghost small: { program.limit.most ≡ PROGRAM_BYTES },
}

/// `PROGRAM FILE [--html OUT] [--moves]`: shows a file of a program.
#[derive(Drop)]
pub(crate) struct Show<'a> {
    pub(crate) inputs: (Whole<'a>, Whole<'a>),
    pub(crate) showing: Showing<'a>,
    ghost small: { inputs.0.limit.most ≡ PROGRAM_BYTES },
}
