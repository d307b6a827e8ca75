//! Reading a program and a log of it.
ghost use Rattle.std.specs.Prelude.{◌≤◌, length, IfErr, IfOk};
ghost use Rattle.schedule_file.specs.tc_limits.declared.limits.TheConstants.{PROGRAM_BYTES};
ghost use Rattle.command_inputs.specs.path_log.Texts.{IsLog, IsOfOther};
ghost use Rattle.command_inputs.specs.tc_compile.Programs.{IsCodeOf};
ghost use Rattle.command_inputs.specs.Forms.{IsWhy};
ghost use Rattle.log_tasks.specs.Refused.{IsUnsearched};

use command_inputs::{Fault, read_both, refuse_other};
use run_log::Log;
use std::alloc::Global;
use tc_code::Code;

/// The code of a program, and a log of it; or the first test that fails.
pub fn read_own(alloc: Global, program: &[u8], log: &[u8]) -> Result<(Code, Log), Fault>
    requires { length program.now ≤ PROGRAM_BYTES }
    ensures code { IfOk result (λ both. IsCodeOf program.now both.0) }
    ensures log { IfOk result (λ both. IsLog log.now both.1) }
    ensures own { IfOk result (λ both. IsOfOther program.now both.1 → ⊥) }
    ensures refused { IfErr result (IsWhy (IsUnsearched program.now log.now)) }
{
    let (code, log) = read_both(alloc, program, log)?;
    refuse_other(program, &log)?;
    Ok((code, log))
}
