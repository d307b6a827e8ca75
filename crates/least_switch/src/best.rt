//! The best schedule so far.
ghost use Rattle.std.specs.Prelude.{◌<◌, All, IfOk};
ghost use Rattle.schedule_decode.specs.Decodable.{HaveRoom, IsDecodable};
ghost use Rattle.least_switch.specs.helpers.Found.{IsOfWorld};

use crate::events::count;
use order_formula::World;
use path_execution::Execution;
use schedule_decode::decode;
use schedule_file::Schedule;
use std::alloc::{AllocError, Global};
use store_buffers::MemoryModel;
use tc_code::Code;

/// A schedule of a log, with its number of context switches, and the world from which it was made.
#[derive(Debug, Drop)]
pub(crate) struct Best {
    pub(crate) schedule: Schedule,
    pub(crate) switches: u32,
    pub(crate) world: World,
}

/// The schedule of a lawful world.
pub(crate) fn best_of<M: MemoryModel>(
    alloc: Global,
    code: &Code,
    execution: &Execution,
    world: World,
) -> Result<Best, AllocError>
    requires lawful { IsDecodable M.ops M.MODEL M.bound code.now execution.now world }
    requires room { HaveRoom execution.now.paths }
    requires small { All (λ p. p < 256) world.positions }
    ensures { IfOk result (IsOfWorld M.ops M.MODEL code.now execution.now.paths world) }
{
    let schedule = decode::<M>(alloc, code, execution, &world)?;
    let switches = count(alloc, &execution.paths, &world)?;
    Ok(Best {
        schedule,
        switches,
        world,
    })
}
