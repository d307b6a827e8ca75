//! The reasons of an impossibility.
ghost use Rattle.std.specs.Prelude.{◌≤◌, Bool, List, length, Ok, Err, IfOk, IfErr, OnOk};
ghost use Rattle.clap_solve.specs.Clauses.{bound_of, clauses_of};
ghost use Rattle.clap_solve.specs.Faults.{IsCheckImpossibleFault};
ghost use Rattle.clap_solve.specs.Solved.{IsWithin};
ghost use Rattle.command_inputs.specs.Forms.{IsWhy};
ghost use Rattle.refute_check.specs.Refutations.{check};
ghost use Rattle.refute_check.specs.declared.line.Line.{Line};
ghost use Rattle.run_log.specs.Logs.{Log as RunLog};
ghost use Rattle.store_buffers.specs.Buffers.{buffer_of};
ghost use Rattle.store_buffers.specs.Pending.{Binding};
ghost use Rattle.tc_code.specs.Code.{Code};
ghost use Rattle.tc_code.specs.tc_limits.declared.limits.TheConstants.{PROGRAM_BYTES};
ghost use Rattle.why_impossible.specs.Explained.{IsExplained as IsExplainedBy};
ghost use Rattle.why_command.specs.Causes.{IsExplained};
ghost use Rattle.why_command.specs.helpers.Unread.{IsOfFault};

use crate::plain::read_plain;
use clap_solve::CheckImpossibleFault;
use command_inputs::{Fault, read_both, refuse_other};
use log_tasks::refuse_built;
use memory_models::Model;
use refutation_verdicts::{Verdict, line_of};
use refute_check::Derivation;
use run_log::Log;
use std::alloc::Global;
use std::mem::drop;
use store_buffers::{PsoModel, Sc, TsoModel};
use tc_code::Code;
use why_impossible::{Explained, Reasons, why};

/// The verdict on a refutation of all schedules, with the reasons if it is closed.
pub(crate) fn explained(
    alloc: Global,
    program: &[u8],
    log: &[u8],
    refutation: &[u8],
) -> Result<Verdict<Reasons>, Fault>
    requires { length program.now ≤ PROGRAM_BYTES }
    ensures verdict { IfOk result (λ verdict. IsExplained program.now log.now refutation.now (Ok verdict)) }
    ensures refused { IfErr result (IsWhy (λ why. IsExplained program.now log.now refutation.now (Err why))) }
{
    let (code, log) = read_both(alloc, program, log)?;
    let (model, derivation) = read_plain(alloc, refutation)?;
    refuse_other(program, &log)?;
    let explained = why_under(alloc, &code, &log, &derivation, model);
    drop((code, log, derivation));
    match explained {
        Ok(Explained::Closed(reasons)) => Ok(Verdict::Closed(reasons)),
        Ok(Explained::Open) => Ok(Verdict::Open),
        Err(fault) => verdict_or_fault(fault),
    }
}

/// The line that doesn't pass, or why there are no clauses.
fn verdict_or_fault(fault: CheckImpossibleFault) -> Result<Verdict<Reasons>, Fault>
    ensures { (buffered : Bool) (bound : Binding) (code : Code) (log : RunLog) (lines : List Line)
        → IsCheckImpossibleFault buffered bound code log lines fault → IsOfFault code log (check (clauses_of buffered bound code log) lines) result }
{
    match fault {
        CheckImpossibleFault::Build(fault) => Err(refuse_built(fault)),
        CheckImpossibleFault::Check(fault) => match line_of(fault) {
            Some(line) => Ok(Verdict::LineRefused(line)),
            None => Err(Fault::Memory),
        },
        CheckImpossibleFault::Memory => Err(Fault::Memory),
    }
}

/// What a derivation proves about a log under a memory model, and by which rules.
fn why_under(
    alloc: Global,
    code: &Code,
    log: &Log,
    derivation: &Derivation,
    model: Model,
) -> Result<Explained, CheckImpossibleFault>
    ensures ok { IfOk result (IsExplainedBy (buffer_of model) (bound_of model) code.now log.now.log derivation.now) }
    ensures within { OnOk result (IsWithin code.now log.now.log) }
    ensures err { IfErr result (IsCheckImpossibleFault (buffer_of model).buffered (bound_of model) code.now log.now.log derivation.now) }
{
    match model {
        Model::Sc => why::<Sc>(alloc, code, log, derivation),
        Model::Tso => why::<TsoModel>(alloc, code, log, derivation),
        Model::Pso => why::<PsoModel>(alloc, code, log, derivation),
    }
}
