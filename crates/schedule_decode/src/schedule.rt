//! The schedule of a lawful world.
ghost use Rattle.std.specs.Prelude.{◌≡◌, true, IfOk};
ghost use Rattle.tc_code.specs.run_log.Logs.{Log};
ghost use Rattle.tc_code.specs.Run.{Reproduces};
ghost use Rattle.tc_code.specs.run_log.Logs.{is_log};
ghost use Rattle.path_walk.specs.Fits.{Fits};
ghost use Rattle.path_walk.specs.Paths.{paths_of};
ghost use Rattle.world_moves.specs.run_follows.Follow.{moves_for};
ghost use Rattle.world_moves.specs.world_plan.Plan.{plan};
ghost use Rattle.schedule_decode.specs.Decodable.{HaveRoom, IsDecodable};

use order_formula::World;
use path_execution::Execution;
use schedule_file::Schedule;
use std::alloc::{AllocError, Global};
use store_buffers::MemoryModel;
use tc_code::Code;
use world_moves::moves_of;

/// The schedule of a lawful world of paths under a memory model: each event of the world takes its
/// turn, up to the failing one if there is one, and then each thread goes to the end of its path.
///
/// Fails only if out of memory.
pub fn decode<M: MemoryModel>(
    alloc: Global,
    code: &Code,
    execution: &Execution,
    world: &World,
) -> Result<Schedule, AllocError>
    requires lawful { IsDecodable M.ops M.MODEL M.bound code.now execution.now world.now }
    requires room { HaveRoom execution.now.paths }
    ensures model { IfOk result (λ schedule. schedule.model ≡ M.MODEL) }
    ensures moves { IfOk result (λ schedule. schedule.moves.items ≡ moves_for M.bound (plan M.BUFFERED code.now execution.now.paths world.now)) }
    ensures reproduces { IfOk result (λ schedule. (log : Log) → is_log log ≡ true → Fits code.now log → paths_of code.now log ≡ execution.now.paths
        → Reproduces M.ops code.now log schedule.moves.items) }
{
    Ok(Schedule {
        model: M::MODEL,
        moves: moves_of::<M>(alloc, execution, world)?,
    })
}
