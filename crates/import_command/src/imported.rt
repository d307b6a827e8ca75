//! What is made of an answer: a schedule and its text, or a clause that is false.
ghost use Rattle.std.specs.Prelude.{◌≡◌, ◌≤◌, length, IfErr, IfOk, OnOk};
ghost use Rattle.schedule_file.specs.tc_limits.declared.limits.TheConstants.{PROGRAM_BYTES};
ghost use Rattle.dimacs_text.specs.Answers.{IsAnswerWith};
ghost use Rattle.clap_solve.specs.Solved.{IsWithin};
ghost use Rattle.clap_system.specs.Faults.{IsBuildFault};
ghost use Rattle.command_inputs.specs.Forms.{IsWhy};
ghost use Rattle.log_tasks.specs.Refused.{HasNoClauses};
ghost use Rattle.import_command.specs.Calls.{Answered, IsUntaken};
ghost use Rattle.import_command.specs.Meanings.{IsMade};
ghost use Rattle.import_command.specs.helpers.Taken.{HasItsText, IsTakenUnder, IsUnanswered, taken_of};

use clap_solve::{Imported as Taken, take_answer};
use clap_system::BuildFault;
use command_inputs::{Fault, Refusal, read_both, refuse_other};
use dimacs_text::{AnswerFault, Literals, read_answer};
use log_tasks::refuse_built;
use memory_models::Model;
use run_log::Log;
use schedule_file::{Schedule, write_schedule};
use std::alloc::{AllocError, Global};
use std::mem::drop;
use store_buffers::{PsoModel, Sc, TsoModel};
use tc_code::Code;

/// What is made of an answer.
#[derive(Drop)]
pub enum Imported {
    /// A schedule, and its text.
    Found(Schedule, Vec<u8>),
    /// The clause of this number, from 1, is the first that the answer makes false.
    False(u32),
}

/// What is made of an answer under a memory model (by default the log's).
pub(crate) fn import(
    alloc: Global,
    program: &[u8],
    log: &[u8],
    answer: &[u8],
    model: Option<Model>,
) -> Result<Imported, Fault>
    requires { length program.now ≤ PROGRAM_BYTES }
    ensures made { IfOk result (λ x. (a : Answered program.now log.now answer.now) × IsMade model a x) }
    ensures refused { IfErr result (IsWhy (IsUntaken program.now log.now answer.now)) }
{
    let (code, log) = read_both(alloc, program, log)?;
    let literals = read_literals(alloc, answer)?;
    refuse_other(program, &log)?;
    let model = model.unwrap_or(log.model());
    let imported = import_under(alloc, &code, &log, &literals, model);
    drop((code, log, literals));
    imported
}

/// The literals of an answer.
fn read_literals(alloc: Global, answer: &[u8]) -> Result<Literals, Fault>
    ensures literals { IfOk result (IsAnswerWith answer.now) }
    ensures refused { IfErr result (IsWhy (IsUnanswered answer.now)) }
{
    match read_answer(alloc, answer) {
        Ok(literals) => Ok(literals),
        Err(AnswerFault::Form(line)) => Err(Fault::Refused(Refusal::Answer(line))),
        Err(AnswerFault::Memory) => Err(Fault::Memory),
    }
}

/// What is made of the literals under a memory model.
fn import_under(
    alloc: Global,
    code: &Code,
    log: &Log,
    literals: &Literals,
    model: Model,
) -> Result<Imported, Fault>
    ensures taken { IfOk result (λ x. IsTakenUnder model code.now log.now.log literals.now (taken_of x)) }
    ensures text { IfOk result HasItsText }
    ensures within { OnOk result (IsWithin code.now log.now.log) }
    ensures refused { IfErr result (IsWhy (HasNoClauses code.now log.now.log)) }
{
    match take_under(alloc, code, log, literals, model) {
        Ok(taken) => Ok(with_text(alloc, taken)?),
        Err(fault) => Err(refuse_built(fault)),
    }
}

/// The same with the text of the schedule.
fn with_text(alloc: Global, taken: Taken) -> Result<Imported, AllocError>
    ensures taken { IfOk result (λ x. taken_of x ≡ taken) }
    ensures text { IfOk result HasItsText }
{
    match taken {
        Taken::Found(schedule) => {
            let text = write_schedule(alloc, &schedule)?;
            Ok(Imported::Found(schedule, text))
        }
        Taken::False(number) => Ok(Imported::False(number)),
    }
}

/// The result of the literals under a memory model.
fn take_under(
    alloc: Global,
    code: &Code,
    log: &Log,
    literals: &Literals,
    model: Model,
) -> Result<Taken, BuildFault>
    ensures taken { IfOk result (IsTakenUnder model code.now log.now.log literals.now) }
    ensures within { OnOk result (IsWithin code.now log.now.log) }
    ensures fault { IfErr result (IsBuildFault code.now log.now.log) }
{
    match model {
        Model::Sc => take_answer::<Sc>(alloc, code, log, literals),
        Model::Tso => take_answer::<TsoModel>(alloc, code, log, literals),
        Model::Pso => take_answer::<PsoModel>(alloc, code, log, literals),
    }
}
