//! The run of a generated program, and the searches of its log.
ghost use Rattle.std.specs.Prelude.{◌≡◌, ◌≤◌, length, IfOk, IfErr, OnOk};
ghost use Rattle.tc_limits.specs.declared.limits.TheConstants.{PROGRAM_BYTES};
ghost use Rattle.clap_solve.specs.Solved.{IsWithin};
ghost use Rattle.clap_system.specs.Faults.{IsBuildFault};
ghost use Rattle.command_inputs.specs.Forms.{IsWhy};
ghost use Rattle.log_tasks.specs.Refused.{HasNoClauses};
ghost use Rattle.workload_command.specs.Works.{IsUnworked, IsWorkOf, IsWorked, program_of, word_of};
ghost use Rattle.workload_command.specs.Works.{plain_workload};

use crate::command::Workload;
use clap_solve::{Answer, solve};
use clap_system::BuildFault;
use command_inputs::Fault;
use log_tasks::{USUAL_BUDGET, refuse_built};
use run_log::Log;
use schedule_file::Schedule;
use std::alloc::{AllocError, Global};
use store_buffers::{Sc, TsoModel};
use tc_code::Code;
use tc_compile::compile;
use tc_limits::limits::MOVES;
use tc_record::{Seeded, SeededFault, run_seeded, seed_words};
use tc_workload::{workload_log, workload_text};

/// What comes of a workload.
#[derive(Drop)]
pub struct Work {
    /// The word for the end of the run that the seed chose.
    pub end: &'static str,
    /// The result of the search under total store order.
    pub tso: Answer<Schedule>,
    /// The result of the search under sequential consistency.
    pub sc: Answer<Schedule>,
}

/// What comes of the program with these workers and this seed.
pub(crate) fn worked(alloc: Global, workload: &Workload) -> Result<Work, Fault>
    ensures work { IfOk result (IsWorkOf (plain_workload workload.now)) }
    ensures refused { IfErr result (IsWhy (IsUnworked (plain_workload workload.now))) }
{
    let program = program_text(alloc, workload)?;
    let code = compile(alloc, &program)?;
    let log = workload_log(alloc, workload.workers.count as u16)?;
    searched(alloc, &code, &log, workload.seed)
}

/// The text of that program.
fn program_text(alloc: Global, workload: &Workload) -> Result<Vec<u8>, AllocError>
    ensures text { IfOk result (λ text. text.items ≡ program_of (plain_workload workload.now)) }
    ensures short { IfOk result (λ text. length text.items ≤ PROGRAM_BYTES) }
{
    let words = seed_words(alloc, workload.seed, workload.workers.count as usize)?;
    workload_text(alloc, &words)
}

/// What comes of the program's code and its log, or why the log isn't searched.
fn searched(alloc: Global, code: &Code, log: &Log, seed: u64) -> Result<Work, Fault>
    ensures work { IfOk result (IsWorked code.now log.now.log seed) }
    ensures within { OnOk result (IsWithin code.now log.now.log) }
    ensures refused { IfErr result (IsWhy (HasNoClauses code.now log.now.log)) }
{
    match results(alloc, code, log, seed) {
        Ok(work) => Ok(work),
        Err(fault) => Err(refuse_built(fault)),
    }
}

/// The end of a run of the code, and the results of the searches of its log.
fn results(alloc: Global, code: &Code, log: &Log, seed: u64) -> Result<Work, BuildFault>
    ensures work { IfOk result (IsWorked code.now log.now.log seed) }
    ensures within { OnOk result (IsWithin code.now log.now.log) }
    ensures fault { IfErr result (IsBuildFault code.now log.now.log) }
{
    Ok(Work {
        end: end_word(alloc, code, seed)?,
        tso: solve::<TsoModel>(alloc, code, log, USUAL_BUDGET)?,
        sc: solve::<Sc>(alloc, code, log, USUAL_BUDGET)?,
    })
}

/// The word for the end of a run of a code under total store order, by moves chosen with a seed.
fn end_word(alloc: Global, code: &Code, seed: u64) -> Result<&'static str, AllocError>
    ensures { IfOk result (λ word. word.now ≡ word_of code.now seed) }
{
    match run_seeded::<TsoModel>(alloc, code, seed, MOVES) {
        Ok(Seeded::Failed(_, _, _)) => Ok("failed"),
        Ok(Seeded::Finished(_)) => Ok("finished"),
        Ok(Seeded::Deadlock(_, _)) => Ok("deadlock"),
        Ok(Seeded::StepLimit(_)) => Ok("step-limit"),
        Err(SeededFault::Limit(_, _, _)) => Ok("limit"),
        Err(SeededFault::Memory) => Err(AllocError),
    }
}
