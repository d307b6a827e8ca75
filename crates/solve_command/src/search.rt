//! The search, under the memory model that is meant.
ghost use Rattle.std.specs.Prelude.{◌≤◌, length, IfErr, IfOk, OnOk};
ghost use Rattle.schedule_file.specs.tc_limits.declared.limits.TheConstants.{PROGRAM_BYTES};
ghost use Rattle.clap_solve.specs.Clauses.{bound_of};
ghost use Rattle.clap_solve.specs.Solved.{IsSolved, IsWithin};
ghost use Rattle.clap_system.specs.Faults.{IsBuildFault};
ghost use Rattle.store_buffers.specs.Buffers.{buffer_of};
ghost use Rattle.command_inputs.specs.Forms.{IsWhy};
ghost use Rattle.log_tasks.specs.Refused.{HasNoClauses, IsUnsearched};
ghost use Rattle.log_tasks.specs.Tasks.{Task};
ghost use Rattle.log_tasks.specs.Texts.{IsTextOf};
ghost use Rattle.solve_command.specs.Meanings.{IsFound};
ghost use Rattle.solve_command.specs.Calls.{plain_solve};
ghost use Rattle.solve_command.specs.helpers.Asked.{IsSolution};

use crate::command::Solve;
use crate::solution::Solution;
use clap_solve::{Answer, solve};
use clap_system::BuildFault;
use command_inputs::Fault;
use log_tasks::{Budget, read_own, refuse_built};
use memory_models::Model;
use refute_check::{Head, write_refutation};
use run_log::Log;
use schedule_file::{Schedule, write_schedule};
use std::alloc::{AllocError, Global};
use std::mem::drop;
use store_buffers::{PsoModel, Sc, TsoModel};
use tc_code::Code;

/// What comes of the search for a schedule.
pub(crate) fn searched(
    alloc: Global,
    solve: &Solve<'_>,
    program: &[u8],
    log: &[u8],
) -> Result<Solution, Fault>
    requires { length program.now ≤ PROGRAM_BYTES }
    ensures solution { IfOk result (λ x. (t : Task program.now log.now) × IsSolution (plain_solve solve.now) t x) }
    ensures refused { IfErr result (IsWhy (IsUnsearched program.now log.now)) }
{
    let (code, log) = read_own(alloc, program, log)?;
    let model = solve.model.unwrap_or(log.model());
    let found = search(alloc, &code, &log, model, solve.budget);
    drop((code, log));
    found
}

/// What a search under a memory model finds, and its text.
fn search(
    alloc: Global,
    code: &Code,
    log: &Log,
    model: Model,
    budget: Budget,
) -> Result<Solution, Fault>
    ensures found { IfOk result (IsFound budget.conflicts code.now log.now.log model) }
    ensures within { OnOk result (IsWithin code.now log.now.log) }
    ensures refused { IfErr result (IsWhy (HasNoClauses code.now log.now.log)) }
{
    let answer = match solve_under(alloc, code, log, model, budget) {
        Ok(answer) => answer,
        Err(fault) => return Err(refuse_built(fault)),
    };
    let text = answer_text(alloc, model, &answer)?;
    Ok(Solution { answer, text })
}

/// The result of a search under a memory model.
fn solve_under(
    alloc: Global,
    code: &Code,
    log: &Log,
    model: Model,
    budget: Budget,
) -> Result<Answer<Schedule>, BuildFault>
    ensures found { IfOk result (IsSolved (buffer_of model) model (bound_of model) code.now log.now.log budget.conflicts) }
    ensures fault { IfErr result (IsBuildFault code.now log.now.log) }
{
    let budget = budget.conflicts;
    match model {
        Model::Sc => solve::<Sc>(alloc, code, log, budget),
        Model::Tso => solve::<TsoModel>(alloc, code, log, budget),
        Model::Pso => solve::<PsoModel>(alloc, code, log, budget),
    }
}

/// The text of a result: a schedule, or a refutation under the memory model.
fn answer_text(
    alloc: Global,
    model: Model,
    answer: &Answer<Schedule>,
) -> Result<Vec<u8>, AllocError>
    ensures { IfOk result (λ text. IsTextOf model answer.now text.items) }
{
    let head = Head {
        model,
        switches: None,
    };
    match answer {
        Answer::Found(schedule) => write_schedule(alloc, schedule),
        Answer::Impossible(derivation) | Answer::Spent(derivation) => {
            write_refutation(alloc, head, derivation)
        }
    }
}
