//! Checkers over the clauses of a log.
ghost use Rattle.std.specs.Prelude.{◌≡◌, IfOk, IfErr, OnOk};
ghost use Rattle.clap_system.specs.Faults.{IsBuildFault};
ghost use Rattle.refute_check.specs.Refutations.{start};
ghost use Rattle.clap_solve.specs.Clauses.{model_clauses};
ghost use Rattle.clap_solve.specs.Solved.{IsWithin};

use clap_solve::check_start;
use clap_system::BuildFault;
use memory_models::Model;
use refute_check::Checker;
use run_log::Log;
use std::alloc::Global;
use store_buffers::{PsoModel, Sc, TsoModel};
use tc_code::Code;

/// A checker over the clauses of the log under a memory model.
pub(crate) fn start_under(
    alloc: Global,
    code: &Code,
    log: &Log,
    model: Model,
) -> Result<Checker, BuildFault>
    ensures checker { IfOk result (λ checker. checker ≡ start (model_clauses model code.now log.now.log)) }
    ensures within { OnOk result (IsWithin code.now log.now.log) }
    ensures fault { IfErr result (IsBuildFault code.now log.now.log) }
{
    match model {
        Model::Sc => check_start::<Sc>(alloc, code, log),
        Model::Tso => check_start::<TsoModel>(alloc, code, log),
        Model::Pso => check_start::<PsoModel>(alloc, code, log),
    }
}
