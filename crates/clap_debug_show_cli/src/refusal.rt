//! Refusals of inputs, with the line and the status of each.
ghost use Rattle.std.specs.Prelude.{◌≡◌, IfOk, string_bytes};
ghost use Rattle.clap_debug_show_cli.specs.Answers.{over_line, program_line, refusal_line, refusal_status};

use crate::limits::What;
use command_frame::Status;
use path_log::LogFault;
use path_walk::{Misfit, WalkFault};
use schedule_file::ScheduleFault;
use std::alloc::{AllocError, Global};
use tc_base::ThreadName;
use tc_compile::CompileFault;
use tc_parser::TextFault;

/// Why an input was refused.
#[derive(Drop)]
pub(crate) enum Refusal {
    /// The log has this number of these, which is above the limit.
    Over(What, u64),
    /// The first file isn't a program.
    ProgramRefused(TextFault),
    /// The field of the log at this offset is the first that is cut short or breaks its rule.
    LogBroken(usize),
    /// The log was recorded of another program.
    OtherProgram,
    /// The thread of this name in the log doesn't fit the program.
    Unfit(ThreadName, Misfit),
    /// The second file isn't a schedule, from the line with this number on.
    ScheduleRefused(u32),
}

/// Why there is nothing to show.
#[derive(Drop)]
pub(crate) enum Fault {
    Refused(Refusal),
    /// Memory ran out.
    Memory,
}

impl From<AllocError> for Fault {
    ghost use Rattle.std.specs.Prelude.{◌≡◌};
    ghost use Rattle.clap_debug_show_cli.specs.declared.refusal.Fault.TheVariants.{Memory};

    ghost from_gives = { λ _ fault. fault ≡ Memory };

    fn from(_error: AllocError) -> Self {
        Fault::Memory
    }
}

impl From<CompileFault> for Fault {
    ghost use Rattle.std.specs.Prelude.{◌≡◌};
    ghost use Rattle.clap_debug_show_cli.specs.helpers.Refused.{compile_fault};

    ghost from_gives = { λ fault own. own ≡ compile_fault fault };

    fn from(fault: CompileFault) -> Self {
        match fault {
            CompileFault::Refused(fault) => Fault::Refused(Refusal::ProgramRefused(fault)),
            CompileFault::Memory => Fault::Memory,
        }
    }
}

impl From<LogFault> for Fault {
    ghost use Rattle.std.specs.Prelude.{◌≡◌};
    ghost use Rattle.clap_debug_show_cli.specs.helpers.Refused.{log_fault};

    ghost from_gives = { λ fault own. own ≡ log_fault fault };

    fn from(fault: LogFault) -> Self {
        match fault {
            LogFault::Form(offset) => Fault::Refused(Refusal::LogBroken(offset)),
            LogFault::Memory => Fault::Memory,
        }
    }
}

impl From<WalkFault> for Fault {
    ghost use Rattle.std.specs.Prelude.{◌≡◌};
    ghost use Rattle.clap_debug_show_cli.specs.helpers.Refused.{walk_fault};

    ghost from_gives = { λ fault own. own ≡ walk_fault fault };

    fn from(fault: WalkFault) -> Self {
        match fault {
            WalkFault::Unfit(name, misfit) => Fault::Refused(Refusal::Unfit(name, misfit)),
            WalkFault::Memory => Fault::Memory,
        }
    }
}

impl From<ScheduleFault> for Fault {
    ghost use Rattle.std.specs.Prelude.{◌≡◌};
    ghost use Rattle.clap_debug_show_cli.specs.helpers.Refused.{schedule_fault};

    ghost from_gives = { λ fault own. own ≡ schedule_fault fault };

    fn from(fault: ScheduleFault) -> Self {
        match fault {
            ScheduleFault::Form(line) => Fault::Refused(Refusal::ScheduleRefused(line)),
            ScheduleFault::Memory => Fault::Memory,
        }
    }
}

impl Refusal {
    /// The line for a refusal.
    pub(crate) fn line(&self, alloc: Global) -> Result<String, AllocError>
        ensures { IfOk result (λ text. string_bytes text ≡ refusal_line self.now) }
    {
        match self {
            Refusal::Over(what, number) => over_line(alloc, *what, *number),
            Refusal::ProgramRefused(fault) => program_line(alloc, fault),
            Refusal::LogBroken(offset) => format!(in alloc; "log refused: form at {offset}\n"),
            Refusal::OtherProgram => String::from_str(alloc, "log refused: other program\n"),
            Refusal::Unfit(name, misfit) => format!(in alloc; "log refused: {misfit} {name}\n"),
            Refusal::ScheduleRefused(line) => {
                format!(in alloc; "schedule refused: line {line}\n")
            }
        }
    }

    /// The status of a refusal.
    pub(crate) fn status(&self) -> Status
        ensures { result ≡ refusal_status self.now }
    {
        match self {
            Refusal::Over(_, _) => Status::OverLimit,
            Refusal::ProgramRefused(_) => Status::ProgramRefused,
            Refusal::LogBroken(_) | Refusal::OtherProgram | Refusal::Unfit(_, _) => {
                Status::LogRefused
            }
            Refusal::ScheduleRefused(_) => Status::InputRefused,
        }
    }
}

/// The line for a text that isn't a program.
pub(crate) fn program_line(alloc: Global, fault: &TextFault) -> Result<String, AllocError>
    ensures { IfOk result (λ text. string_bytes text ≡ program_line fault.now) }
{
    format!(in alloc; "program refused: {fault}\n")
}

fn over_line(alloc: Global, what: What, number: u64) -> Result<String, AllocError>
    ensures { IfOk result (λ text. string_bytes text ≡ over_line what number) }
{
    let (what, most) = (what.text(), what.limit());
    format!(in alloc; "limit {what} {number} of {most}\n")
}
