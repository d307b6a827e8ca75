//! The clauses of a log, and their text.
ghost use Rattle.std.specs.Prelude.{◌≡◌, ◌≤◌, length, IfErr, IfOk, OnOk};
ghost use Rattle.tc_code.specs.tc_limits.declared.limits.TheConstants.{PROGRAM_BYTES};
ghost use Rattle.clap_solve.specs.Clauses.{model_clauses};
ghost use Rattle.clap_solve.specs.Solved.{IsWithin};
ghost use Rattle.clap_system.specs.Faults.{IsBuildFault};
ghost use Rattle.command_inputs.specs.Forms.{IsWhy};
ghost use Rattle.log_tasks.specs.Refused.{HasNoClauses, IsUnsearched};
ghost use Rattle.log_tasks.specs.Tasks.{Task};
ghost use Rattle.cnf_command.specs.Meanings.{AreClauses};
ghost use Rattle.cnf_command.specs.helpers.Asked.{IsExported};

use clap_solve::clauses;
use clap_system::BuildFault;
use cnf_core::Cnf as Clauses;
use command_inputs::Fault;
use dimacs_text::write_cnf;
use log_tasks::{read_own, refuse_built};
use memory_models::Model;
use run_log::Log;
use std::alloc::Global;
use std::mem::drop;
use store_buffers::{PsoModel, Sc, TsoModel};
use tc_code::Code;

/// The clauses of a log, and their text.
#[derive(Drop)]
pub struct Exported {
    pub clauses: Clauses,
    pub text: Vec<u8>,
}

/// The clauses of a log under a memory model (by default the log's), and their text.
pub(crate) fn export(
    alloc: Global,
    program: &[u8],
    log: &[u8],
    model: Option<Model>,
) -> Result<Exported, Fault>
    requires { length program.now ≤ PROGRAM_BYTES }
    ensures clauses { IfOk result (λ x. (t : Task program.now log.now) × IsExported model t x) }
    ensures refused { IfErr result (IsWhy (IsUnsearched program.now log.now)) }
{
    let (code, log) = read_own(alloc, program, log)?;
    let model = model.unwrap_or(log.model());
    let exported = export_under(alloc, &code, &log, model);
    drop((code, log));
    exported
}

/// The clauses of a log under a memory model, and their text.
fn export_under(alloc: Global, code: &Code, log: &Log, model: Model) -> Result<Exported, Fault>
    ensures clauses { IfOk result (AreClauses code.now log.now.log model) }
    ensures within { OnOk result (IsWithin code.now log.now.log) }
    ensures refused { IfErr result (IsWhy (HasNoClauses code.now log.now.log)) }
{
    let clauses = match clauses_under(alloc, code, log, model) {
        Ok(clauses) => clauses,
        Err(fault) => return Err(refuse_built(fault)),
    };
    let text = write_cnf(alloc, &clauses)?;
    Ok(Exported { clauses, text })
}

/// The clauses of a log under a memory model.
fn clauses_under(alloc: Global, code: &Code, log: &Log, model: Model) -> Result<Clauses, BuildFault>
    ensures clauses { IfOk result (λ clauses. clauses ≡ model_clauses model code.now log.now.log) }
    ensures within { OnOk result (IsWithin code.now log.now.log) }
    ensures fault { IfErr result (IsBuildFault code.now log.now.log) }
{
    match model {
        Model::Sc => clauses::<Sc>(alloc, code, log),
        Model::Tso => clauses::<TsoModel>(alloc, code, log),
        Model::Pso => clauses::<PsoModel>(alloc, code, log),
    }
}
