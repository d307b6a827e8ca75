//! Refusals of inputs: what they are, and the line and the status of each.
ghost use Rattle.std.specs.Prelude.{◌≡◌, IfOk, string_bytes};
ghost use Rattle.command_inputs.specs.Refusals.{log_line, refusal_said};
ghost use Rattle.command_inputs.specs.declared.refusal.Refusal.TheVariants.{LogOver};

use crate::limits::LogPart;
use command_frame::Status;
use path_log::LogFault;
use path_walk::{Misfit, WalkFault};
use schedule_file::ScheduleFault;
use std::alloc::{AllocError, Global};
use tc_base::ThreadName;
use tc_compile::CompileFault;
use tc_parser::TextFault;

/// Why a log is refused.
#[derive(Drop)]
pub enum LogRefusal {
    /// The field at this offset is the first that is cut short or breaks its rule.
    Form(usize),
    /// It was recorded from another program.
    OtherProgram,
    /// The thread of this name doesn't fit the program.
    Unfit(ThreadName, Misfit),
}

/// Why an input is refused.
#[derive(Drop)]
pub enum Refusal {
    /// The first file isn't a program.
    Program(TextFault),
    /// The log is refused.
    Log(LogRefusal),
    /// The log has this many of these, which are too many.
    LogOver(LogPart, u64),
    /// The file isn't a schedule, from this line on.
    Schedule(u32),
    /// The file isn't a refutation, from this line on.
    Refutation(u32),
    /// The file isn't a solver's answer, from this line on.
    Answer(usize),
}

/// Why there is no result.
#[derive(Drop)]
pub enum Fault {
    /// An input is refused.
    Refused(Refusal),
    /// There is no memory.
    Memory,
}

impl From<AllocError> for Fault {
    ghost use Rattle.std.specs.Prelude.{◌≡◌};
    ghost use Rattle.command_inputs.specs.declared.refusal.Fault.TheVariants.{Memory};

    ghost from_gives = { λ _ fault. fault ≡ Memory };

    fn from(_error: AllocError) -> Self {
        Fault::Memory
    }
}

impl From<Refusal> for Fault {
    ghost use Rattle.std.specs.Prelude.{◌≡◌};
    ghost use Rattle.command_inputs.specs.declared.refusal.Fault.TheVariants.{Refused};

    ghost from_gives = { λ refusal fault. fault ≡ Refused refusal };

    fn from(refusal: Refusal) -> Self {
        Fault::Refused(refusal)
    }
}

impl From<CompileFault> for Fault {
    ghost use Rattle.std.specs.Prelude.{◌≡◌};
    ghost use Rattle.command_inputs.specs.helpers.Faults.{compile_fault};

    ghost from_gives = { λ fault own. own ≡ compile_fault fault };

    fn from(fault: CompileFault) -> Self {
        match fault {
            CompileFault::Refused(fault) => Fault::Refused(Refusal::Program(fault)),
            CompileFault::Memory => Fault::Memory,
        }
    }
}

impl From<LogFault> for Fault {
    ghost use Rattle.std.specs.Prelude.{◌≡◌};
    ghost use Rattle.command_inputs.specs.helpers.Faults.{log_fault};

    ghost from_gives = { λ fault own. own ≡ log_fault fault };

    fn from(fault: LogFault) -> Self {
        match fault {
            LogFault::Form(offset) => Fault::Refused(Refusal::Log(LogRefusal::Form(offset))),
            LogFault::Memory => Fault::Memory,
        }
    }
}

impl From<WalkFault> for Fault {
    ghost use Rattle.std.specs.Prelude.{◌≡◌};
    ghost use Rattle.command_inputs.specs.helpers.Faults.{walk_fault};

    ghost from_gives = { λ fault own. own ≡ walk_fault fault };

    fn from(fault: WalkFault) -> Self {
        match fault {
            WalkFault::Unfit(name, misfit) => {
                Fault::Refused(Refusal::Log(LogRefusal::Unfit(name, misfit)))
            }
            WalkFault::Memory => Fault::Memory,
        }
    }
}

impl From<ScheduleFault> for Fault {
    ghost use Rattle.std.specs.Prelude.{◌≡◌};
    ghost use Rattle.command_inputs.specs.helpers.Faults.{schedule_fault};

    ghost from_gives = { λ fault own. own ≡ schedule_fault fault };

    fn from(fault: ScheduleFault) -> Self {
        match fault {
            ScheduleFault::Form(line) => Fault::Refused(Refusal::Schedule(line)),
            ScheduleFault::Memory => Fault::Memory,
        }
    }
}

impl Refusal {
    /// The line that says it.
    pub fn line(&self, alloc: Global) -> Result<Vec<u8>, AllocError>
        ensures { IfOk result (λ line. line.items ≡ (refusal_said self.now).1) }
    {
        Ok(self.text(alloc)?.into_bytes())
    }

    fn text(&self, alloc: Global) -> Result<String, AllocError>
        ensures { IfOk result (λ text. string_bytes text ≡ (refusal_said self.now).1) }
    {
        match self {
            Refusal::Program(fault) => format!(in alloc; "program refused: {fault}\n"),
            Refusal::Log(refusal) => refusal.line(alloc),
            Refusal::LogOver(part, number) => over_line(alloc, *part, *number),
            Refusal::Schedule(line) => format!(in alloc; "schedule refused: line {line}\n"),
            Refusal::Refutation(line) => format!(in alloc; "refutation refused: line {line}\n"),
            Refusal::Answer(line) => format!(in alloc; "answer refused: line {line}\n"),
        }
    }

    /// Its status.
    pub fn status(&self) -> Status
        ensures { result ≡ (refusal_said self.now).0 }
    {
        match self {
            Refusal::Program(_) => Status::ProgramRefused,
            Refusal::Log(_) => Status::LogRefused,
            Refusal::LogOver(_, _) => Status::OverLimit,
            Refusal::Schedule(_) | Refusal::Refutation(_) | Refusal::Answer(_) => {
                Status::InputRefused
            }
        }
    }
}

impl LogRefusal {
    /// The line that says it.
    fn line(&self, alloc: Global) -> Result<String, AllocError>
        ensures { IfOk result (λ text. string_bytes text ≡ log_line self.now) }
    {
        match self {
            LogRefusal::Form(offset) => format!(in alloc; "log refused: form at {offset}\n"),
            LogRefusal::OtherProgram => String::from_str(alloc, "log refused: other program\n"),
            LogRefusal::Unfit(name, misfit) => {
                format!(in alloc; "log refused: {misfit} {name}\n")
            }
        }
    }
}

/// The line that a log has this many of these, which are too many.
fn over_line(alloc: Global, part: LogPart, number: u64) -> Result<String, AllocError>
    ensures { IfOk result (λ text. string_bytes text ≡ (refusal_said (LogOver part number)).1) }
{
    let (part, most) = (part.text(), part.limit());
    format!(in alloc; "limit {part} {number} of {most}\n")
}
