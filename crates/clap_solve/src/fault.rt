//! Why a derivation proves nothing about a log.
ghost use Rattle.std.specs.Prelude.{◌≡◌};
ghost use Rattle.clap_solve.specs.declared.fault.CheckImpossibleFault.TheVariants.{Memory};
ghost use Rattle.clap_solve.specs.helpers.From.{from_build, from_check};

use clap_system::BuildFault;
use refute_check::CheckFault;
use std::alloc::AllocError;

/// Why a derivation proves nothing about a log.
#[derive(Debug, Drop)]
pub enum CheckImpossibleFault {
    /// The log has no clauses. Lack of memory is always `Memory`.
    Build(BuildFault),
    /// A line of the derivation doesn't pass. Lack of memory is always `Memory`.
    Check(CheckFault),
    /// Memory ran out.
    Memory,
}

impl From<BuildFault> for CheckImpossibleFault {
    ghost from_gives = { λ fault made. made ≡ from_build fault };

    fn from(fault: BuildFault) -> Self {
        match fault {
            BuildFault::Memory => CheckImpossibleFault::Memory,
            fault => CheckImpossibleFault::Build(fault),
        }
    }
}

impl From<CheckFault> for CheckImpossibleFault {
    ghost from_gives = { λ fault made. made ≡ from_check fault };

    fn from(fault: CheckFault) -> Self {
        match fault {
            CheckFault::Memory => CheckImpossibleFault::Memory,
            fault => CheckImpossibleFault::Check(fault),
        }
    }
}

impl From<AllocError> for CheckImpossibleFault {
    ghost from_gives = { λ _ fault. fault ≡ Memory };

    fn from(_failed: AllocError) -> Self {
        CheckImpossibleFault::Memory
    }
}
