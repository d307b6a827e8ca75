//! Checkers over the clauses that a refutation is about.
ghost use Rattle.std.specs.Prelude.{◌≡◌, ◌≤◌, IfOk, IfErr, OnOk};
ghost use Rattle.store_buffers.specs.Buffers.{buffer_of};
ghost use Rattle.clap_system.specs.Faults.{IsBuildFault};
ghost use Rattle.refute_check.specs.Refutations.{start};
ghost use Rattle.clap_solve.specs.Clauses.{bound_of, model_clauses};
ghost use Rattle.clap_solve.specs.Solved.{IsWithin};
ghost use Rattle.switch_clauses.specs.Clauses.{switch_clauses};
ghost use Rattle.refutation_verdicts.specs.Refutations.{head_clauses};

use clap_solve::check_start;
use clap_system::BuildFault;
use least_switch::check_least_start;
use memory_models::Model;
use refute_check::{Checker, Head};
use run_log::Log;
use std::alloc::Global;
use store_buffers::{PsoModel, Sc, TsoModel};
use tc_code::Code;

/// A checker over the clauses of the log that the header is about.
pub(crate) fn start_by(
    alloc: Global,
    code: &Code,
    log: &Log,
    head: Head,
) -> Result<Checker, BuildFault>
    ensures checker { IfOk result (λ checker. checker ≡ start (head_clauses head code.now log.now.log)) }
    ensures within { OnOk result (IsWithin code.now log.now.log) }
    ensures fault { IfErr result (IsBuildFault code.now log.now.log) }
{
    match head.switches {
        None => start_under(alloc, code, log, head.model),
        Some(most) => start_up_to(alloc, code, log, head.model, u32::from(most)),
    }
}

/// A checker over the clauses of the log under a memory model.
fn start_under(alloc: Global, code: &Code, log: &Log, model: Model) -> Result<Checker, BuildFault>
    ensures checker { IfOk result (λ checker. checker ≡ start (model_clauses model code.now log.now.log)) }
    ensures within { OnOk result (IsWithin code.now log.now.log) }
    ensures fault { IfErr result (IsBuildFault code.now log.now.log) }
{
    match model {
        Model::Sc => check_start::<Sc>(alloc, code, log),
        Model::Tso => check_start::<TsoModel>(alloc, code, log),
        Model::Pso => check_start::<PsoModel>(alloc, code, log),
    }
}

/// A checker over the clauses with a bound on context switches.
fn start_up_to(
    alloc: Global,
    code: &Code,
    log: &Log,
    model: Model,
    most: u32,
) -> Result<Checker, BuildFault>
    requires { most ≤ 255 }
    ensures checker { IfOk result (λ checker. checker
        ≡ start (switch_clauses (buffer_of model).buffered (bound_of model) code.now log.now.log most)) }
    ensures within { OnOk result (IsWithin code.now log.now.log) }
    ensures fault { IfErr result (IsBuildFault code.now log.now.log) }
{
    match model {
        Model::Sc => check_least_start::<Sc>(alloc, code, log, most),
        Model::Tso => check_least_start::<TsoModel>(alloc, code, log, most),
        Model::Pso => check_least_start::<PsoModel>(alloc, code, log, most),
    }
}
