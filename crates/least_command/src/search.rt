//! The searches, under the memory model that is meant.
ghost use Rattle.std.specs.Prelude.{◌≤◌, length, IfErr, IfOk, OnOk};
ghost use Rattle.schedule_file.specs.tc_limits.declared.limits.TheConstants.{PROGRAM_BYTES};
ghost use Rattle.least_switch.specs.clap_solve.Clauses.{bound_of};
ghost use Rattle.least_switch.specs.clap_solve.Solved.{IsWithin};
ghost use Rattle.clap_system.specs.Faults.{IsBuildFault};
ghost use Rattle.least_switch.specs.Least.{IsLeast};
ghost use Rattle.store_buffers.specs.Buffers.{buffer_of};
ghost use Rattle.command_inputs.specs.Forms.{IsWhy};
ghost use Rattle.log_tasks.specs.Refused.{HasNoClauses, IsUnsearched};
ghost use Rattle.log_tasks.specs.Tasks.{Task};
ghost use Rattle.least_command.specs.Meanings.{IsFound};
ghost use Rattle.least_command.specs.Calls.{plain_least};
ghost use Rattle.least_command.specs.helpers.Asked.{IsSolution};

use crate::command::Least;
use crate::solution::Solution;
use crate::texts::{first_text, second_text};
use clap_system::BuildFault;
use command_inputs::Fault;
use least_switch::{Least as Minimum, least};
use log_tasks::{Budget, read_own, refuse_built};
use memory_models::Model;
use run_log::Log;
use std::alloc::Global;
use std::mem::drop;
use store_buffers::{PsoModel, Sc, TsoModel};
use tc_code::Code;

/// What comes of the searches for a schedule with the fewest switches.
pub(crate) fn searched(
    alloc: Global,
    least: &Least<'_>,
    program: &[u8],
    log: &[u8],
) -> Result<Solution, Fault>
    requires { length program.now ≤ PROGRAM_BYTES }
    ensures solution { IfOk result (λ x. (t : Task program.now log.now) × IsSolution (plain_least least.now) t x) }
    ensures refused { IfErr result (IsWhy (IsUnsearched program.now log.now)) }
{
    let (code, log) = read_own(alloc, program, log)?;
    let model = least.model.unwrap_or(log.model());
    let found = search(alloc, &code, &log, model, least.budget);
    drop((code, log));
    found
}

/// What searches under a memory model find, and its texts.
fn search(
    alloc: Global,
    code: &Code,
    log: &Log,
    model: Model,
    budget: Budget,
) -> Result<Solution, Fault>
    ensures found { IfOk result (IsFound budget.conflicts code.now log.now.log model) }
    ensures within { OnOk result (IsWithin code.now log.now.log) }
    ensures refused { IfErr result (IsWhy (HasNoClauses code.now log.now.log)) }
{
    let least = match least_under(alloc, code, log, model, budget) {
        Ok(least) => least,
        Err(fault) => return Err(refuse_built(fault)),
    };
    let out = first_text(alloc, model, &least)?;
    let refutation = second_text(alloc, model, &least)?;
    Ok(Solution {
        least,
        out,
        refutation,
    })
}

/// The result of searches under a memory model.
fn least_under(
    alloc: Global,
    code: &Code,
    log: &Log,
    model: Model,
    budget: Budget,
) -> Result<Minimum, BuildFault>
    ensures found { IfOk result (IsLeast (buffer_of model) model (bound_of model) code.now log.now.log budget.conflicts) }
    ensures fault { IfErr result (IsBuildFault code.now log.now.log) }
{
    let budget = budget.conflicts;
    match model {
        Model::Sc => least::<Sc>(alloc, code, log, budget),
        Model::Tso => least::<TsoModel>(alloc, code, log, budget),
        Model::Pso => least::<PsoModel>(alloc, code, log, budget),
    }
}
