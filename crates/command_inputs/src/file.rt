//! Files that commands read.
ghost use Rattle.std.specs.Prelude.{[], ◌∷◌};
ghost use Rattle.command_frame.specs.Inputs.{Whole};
ghost use Rattle.command_inputs.specs.Limits.{log_limit, program_limit, schedule_limit};

use crate::limits::{log_limit, program_limit, schedule_limit};
use command_frame::{Failure, Inputs, read_whole};
use std::alloc::Global;
use tc_io::Shelf;

/// A program, by the name of its file.
#[derive(Clone, Copy)]
pub struct ProgramFile<'a> {
    pub name: &'a str,
}

/// A log, by the name of its file.
#[derive(Clone, Copy)]
pub struct LogFile<'a> {
    pub name: &'a str,
}

/// A schedule, by the name of its file.
#[derive(Clone, Copy)]
pub struct ScheduleFile<'a> {
    pub name: &'a str,
}

impl<'b> Inputs for ProgramFile<'b> {
    type Bytes = Vec<u8>;

    ghost wanted = { λ file. Whole program_limit file.name.now ∷ [] };

    ghost texts = { λ bytes. bytes.items ∷ [] };

    fn read<'a, H: Shelf>(&'a self, alloc: Global, shelf: &mut H) -> Result<Vec<u8>, Failure<'a>> {
        read_whole(alloc, shelf, program_limit(), self.name)
    }
}

impl<'b> Inputs for LogFile<'b> {
    type Bytes = Vec<u8>;

    ghost wanted = { λ file. Whole log_limit file.name.now ∷ [] };

    ghost texts = { λ bytes. bytes.items ∷ [] };

    fn read<'a, H: Shelf>(&'a self, alloc: Global, shelf: &mut H) -> Result<Vec<u8>, Failure<'a>> {
        read_whole(alloc, shelf, log_limit(), self.name)
    }
}

impl<'b> Inputs for ScheduleFile<'b> {
    type Bytes = Vec<u8>;

    ghost wanted = { λ file. Whole schedule_limit file.name.now ∷ [] };

    ghost texts = { λ bytes. bytes.items ∷ [] };

    fn read<'a, H: Shelf>(&'a self, alloc: Global, shelf: &mut H) -> Result<Vec<u8>, Failure<'a>> {
        read_whole(alloc, shelf, schedule_limit(), self.name)
    }
}
