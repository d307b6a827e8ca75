//! Why a log doesn't fit a program's code.
ghost use Rattle.std.specs.Prelude.{◌≡◌};
ghost use Rattle.path_walk.specs.Misfits.{misfit_text};
ghost use Rattle.path_walk.specs.declared.fault.WalkFault.TheVariants.{Memory};

use std::alloc::{AllocError, AllocFailed};
use std::fmt;
use tc_base::ThreadName;
use thiserror::Error;

/// What is wrong with a thread of a log. A thread has at most one fault.
#[derive(Clone, Copy, Debug)]
pub enum Misfit {
    /// It is main or a child that some path creates, but it isn't in the log.
    Missing,
    /// It is in the log, but it is neither main nor a child that some path creates.
    Stranger,
    /// A branch on its path has no outcome left.
    OutcomesShort,
    /// Outcomes are left after its last step.
    OutcomesLeft,
    /// It does a step after its exit.
    PastExit,
    /// It is the thread that failed, but its path doesn't end at a site.
    NotASite,
    /// No thread failed, but it has not exited and isn't at a lock, the second half of a wait or a
    /// join.
    NotBlocked,
}

impl Misfit {
    /// The fault's name.
    fn name(self) -> &'static str
        ensures { result.now ≡ misfit_text self }
    {
        match self {
            Misfit::Missing => "Missing",
            Misfit::Stranger => "Stranger",
            Misfit::OutcomesShort => "OutcomesShort",
            Misfit::OutcomesLeft => "OutcomesLeft",
            Misfit::PastExit => "PastExit",
            Misfit::NotASite => "NotASite",
            Misfit::NotBlocked => "NotBlocked",
        }
    }
}

impl fmt::Display for Misfit {
    ghost use Rattle.std.specs.Prelude.{Some};
    ghost use Rattle.path_walk.specs.Misfits.{misfit_text};

    ghost output = { λ m. Some (misfit_text m) };

    fn fmt<W: fmt::Write>(&self, f: &mut fmt::Formatter<W>) -> fmt::Result {
        f.write_str(self.name())
    }
}

/// Why a log doesn't fit.
#[derive(Debug, Drop, Error)]
pub enum WalkFault {
    /// The named thread has this fault.
    #[error("{1} {0}")]
    Unfit(ThreadName, Misfit),
    /// Memory ran out.
    #[error("no memory")]
    Memory,
}

impl From<AllocError> for WalkFault {
    ghost from_gives = { λ _ fault. fault ≡ Memory };

    fn from(_failed: AllocError) -> Self {
        WalkFault::Memory
    }
}

impl<T: Drop> From<AllocFailed<T>> for WalkFault {
    ghost from_gives = { λ _ fault. fault ≡ Memory };

    fn from(_failed: AllocFailed<T>) -> Self {
        WalkFault::Memory
    }
}
