//! The statuses with which a command ends.
ghost use Rattle.std.specs.Prelude.{◌≡◌};
ghost use Rattle.command_frame.specs.Answers.{number_of};

/// A status of the program.
#[derive(Clone, Copy, Debug, PartialEq, Eq)]
pub enum Status {
    /// The command did what was asked.
    Done,
    /// Its answer is no: the run finished, there is no schedule, or it leads elsewhere.
    Fails,
    /// The words weren't accepted.
    Usage,
    /// The program's text was refused.
    ProgramRefused,
    /// The log was refused.
    LogRefused,
    /// Another input was refused.
    InputRefused,
    /// An input or a count was above its limit.
    OverLimit,
    /// An input couldn't be read.
    ReadFault,
    /// An output or the answer couldn't be written.
    WriteFault,
    /// Memory ran out.
    NoMemory,
    /// The question is still open.
    Open,
}

impl Status {
    /// The number of the status.
    pub fn number(self) -> u8
        ensures { result ≡ number_of self }
    {
        match self {
            Status::Done => 0,
            Status::Fails => 1,
            Status::Usage => 2,
            Status::ProgramRefused => 3,
            Status::LogRefused => 4,
            Status::InputRefused => 5,
            Status::OverLimit => 6,
            Status::ReadFault => 7,
            Status::WriteFault => 8,
            Status::NoMemory => 9,
            Status::Open => 10,
        }
    }
}
