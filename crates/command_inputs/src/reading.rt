//! Reading a program and a log.
ghost use Rattle.std.specs.Prelude.{◌≤◌, length, IfErr, IfOk, OnOk};
ghost use Rattle.tc_limits.specs.declared.limits.TheConstants.{PROGRAM_BYTES};
ghost use Rattle.tc_compile.specs.Programs.{IsCodeOf};
ghost use Rattle.path_log.specs.Texts.{IsLog, IsOfOther};
ghost use Rattle.command_inputs.specs.Forms.{IsOther, IsUnread, IsWhy};

use crate::refusal::{Fault, LogRefusal, Refusal};
use path_log::{is_of_other, read_log};
use run_log::Log;
use std::alloc::Global;
use tc_code::Code;
use tc_compile::compile;

/// The code of a program, and a log; or the first of the two that breaks its form.
pub fn read_both(alloc: Global, program: &[u8], log: &[u8]) -> Result<(Code, Log), Fault>
    requires { length program.now ≤ PROGRAM_BYTES }
    ensures code { IfOk result (λ both. IsCodeOf program.now both.0) }
    ensures log { IfOk result (λ both. IsLog log.now both.1) }
    ensures refused { IfErr result (IsWhy (IsUnread program.now log.now)) }
{
    let code = compile(alloc, program)?;
    let log = read_log(alloc, log)?;
    Ok((code, log))
}

/// Refuses a log of another program.
pub fn refuse_other(program: &[u8], log: &Log) -> Result<(), Refusal>
    ensures same { OnOk result (IsOfOther program.now log.now → ⊥) }
    ensures other { IfErr result (IsOther program.now log.now) }
{
    if is_of_other(log, program) {
        Err(Refusal::Log(LogRefusal::OtherProgram))
    } else {
        Ok(())
    }
}
