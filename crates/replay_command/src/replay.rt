//! Replaying a schedule under the memory model that it names.
ghost use Rattle.std.specs.Prelude.{◌≤◌, length, IfErr, IfOk};
ghost use Rattle.store_buffers.specs.Buffers.{buffer_of};
ghost use Rattle.schedule_file.specs.tc_limits.declared.limits.TheConstants.{PROGRAM_BYTES};
ghost use Rattle.schedule_replay.specs.Verdicts.{IsVerdict};
ghost use Rattle.command_inputs.specs.Forms.{IsWhy};
ghost use Rattle.replay_command.specs.Causes.{IsReplayed, IsUnreplayed};

use command_inputs::{Fault, read_both, refuse_other};
use memory_models::Model;
use run_log::Log;
use schedule_file::{Schedule, read_schedule};
use schedule_replay::{Verdict, replay};
use std::alloc::{AllocError, Global};
use store_buffers::{PsoModel, Sc, TsoModel};
use tc_code::Code;

/// The verdict on a schedule, or why there is none.
pub(crate) fn replayed(
    alloc: Global,
    program: &[u8],
    log: &[u8],
    schedule: &[u8],
) -> Result<Verdict, Fault>
    requires { length program.now ≤ PROGRAM_BYTES }
    ensures verdict { IfOk result (IsReplayed program.now log.now schedule.now) }
    ensures refused { IfErr result (IsWhy (IsUnreplayed program.now log.now schedule.now)) }
{
    let (code, log) = read_both(alloc, program, log)?;
    let schedule = read_schedule(alloc, schedule)?;
    refuse_other(program, &log)?;
    let verdict = replay_under(alloc, &code, &log, &schedule)?;
    Ok(verdict)
}

/// The first verdict on the schedule that holds.
fn replay_under(
    alloc: Global,
    code: &Code,
    log: &Log,
    schedule: &Schedule,
) -> Result<Verdict, AllocError>
    ensures { IfOk result (IsVerdict (buffer_of schedule.now.model) code.now log.now.log schedule.now.moves.items) }
{
    match schedule.model {
        Model::Sc => replay::<Sc>(alloc, code, log, schedule),
        Model::Tso => replay::<TsoModel>(alloc, code, log, schedule),
        Model::Pso => replay::<PsoModel>(alloc, code, log, schedule),
    }
}
