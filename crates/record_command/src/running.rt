//! The run, under the memory model that is asked for.
ghost use Rattle.std.specs.Prelude.{◌≤◌, length, IfErr, IfOk};
ghost use Rattle.tc_code.specs.tc_limits.declared.limits.TheConstants.{PROGRAM_BYTES};
ghost use Rattle.tc_record.specs.Seeded.{seeded_run};
ghost use Rattle.command_inputs.specs.Forms.{IsWhy};
ghost use Rattle.record_command.specs.Meanings.{IsRanAs, IsRanOf, IsUnread};
ghost use Rattle.record_command.specs.Runs.{run_of};
ghost use Rattle.record_command.specs.Runs.{plain_record};

use crate::command::Record;
use crate::ending::{Ending, Failure, Outcome, Ran};
use command_inputs::Fault;
use kept_logs::text_with_digest;
use memory_models::Model;
use std::alloc::{AllocError, Global};
use store_buffers::{MemoryModel, PsoModel, Sc, TsoModel};
use tc_code::Code;
use tc_compile::compile;
use tc_record::{Seeded, SeededFault, run_seeded};

/// The run of a program.
pub(crate) fn run_program(alloc: Global, call: &Record<'_>, program: &[u8]) -> Result<Ran, Fault>
    requires { length program.now ≤ PROGRAM_BYTES }
    ensures ran { IfOk result (IsRanOf (plain_record call.now) program.now) }
    ensures refused { IfErr result (IsWhy (IsUnread program.now)) }
{
    let code = compile(alloc, program)?;
    let ran = run_as(alloc, call, program, &code)?;
    Ok(ran)
}

/// The run of a code under the memory model that is asked for.
fn run_as(alloc: Global, call: &Record<'_>, program: &[u8], code: &Code) -> Result<Ran, AllocError>
    ensures { IfOk result (IsRanAs call.now.model program.now code.now (run_of (plain_record call.now) code.now)) }
{
    let (seed, steps) = (call.seed, call.steps);
    match call.model {
        Model::Sc => run_under::<Sc>(alloc, program, code, seed, steps),
        Model::Tso => run_under::<TsoModel>(alloc, program, code, seed, steps),
        Model::Pso => run_under::<PsoModel>(alloc, program, code, seed, steps),
    }
}

/// The run of a code under a memory model, and the text of its log with the program's digest.
fn run_under<M: MemoryModel>(
    alloc: Global,
    program: &[u8],
    code: &Code,
    seed: u64,
    steps: u32,
) -> Result<Ran, AllocError>
    ensures { IfOk result (IsRanAs M.MODEL program.now code.now (seeded_run M.ops code.now seed steps)) }
{
    match run_seeded::<M>(alloc, code, seed, steps) {
        Ok(Seeded::Failed(log, moves, line)) => {
            let name = log.failing_name().unwrap().clone()?;
            let text = text_with_digest(alloc, program, log)?;
            let moves = moves.len();
            let failure = Failure { name, line, moves };
            Ok(Ran::Logged(Outcome::Failed(failure), text))
        }
        Ok(Seeded::Deadlock(log, moves)) => {
            let text = text_with_digest(alloc, program, log)?;
            Ok(Ran::Logged(Outcome::Deadlock(moves.len()), text))
        }
        Ok(Seeded::Finished(_)) => Ok(Ran::Unlogged(Ending::Finished)),
        Ok(Seeded::StepLimit(moves)) => Ok(Ran::Unlogged(Ending::StepLimit(moves.len()))),
        Err(SeededFault::Limit(which, _, _)) => Ok(Ran::Unlogged(Ending::Over(which))),
        Err(SeededFault::Memory) => Err(AllocError),
    }
}
