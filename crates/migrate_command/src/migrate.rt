//! Migrating a log.
ghost use Rattle.std.specs.Prelude.{◌≤◌, length, IfErr, IfOk};
ghost use Rattle.tc_limits.specs.declared.limits.TheConstants.{PROGRAM_BYTES};
ghost use Rattle.command_inputs.specs.Forms.{IsWhy};
ghost use Rattle.migrate_command.specs.Migrated.{IsMigrated, IsUnmigrated};

use crate::excess::refuse_excess;
use command_inputs::{Fault, read_both, refuse_other};
use kept_logs::text_with_digest;
use path_walk::walk;
use std::alloc::Global;

/// A migrated log.
#[derive(Drop)]
pub struct Migration {
    /// Its text, in format 2 and with the digest of the program.
    pub text: Vec<u8>,
}

/// The migrated log of a program.
pub(crate) fn migrated(alloc: Global, program: &[u8], log: &[u8]) -> Result<Migration, Fault>
    requires { length program.now ≤ PROGRAM_BYTES }
    ensures text { IfOk result (λ x. IsMigrated program.now log.now x.text.items) }
    ensures refused { IfErr result (IsWhy (IsUnmigrated program.now log.now)) }
{
    let (code, log) = read_both(alloc, program, log)?;
    refuse_other(program, &log)?;
    refuse_excess(&log)?;
    walk(alloc, &code, &log)?;
    let text = text_with_digest(alloc, program, log)?;
    Ok(Migration { text })
}
