//! The world of a run.
ghost use Rattle.std.specs.Prelude.{◌≡◌, ◌≤◌, length, IfOk};
ghost use Rattle.tc_code.specs.tc_limits.declared.limits.TheConstants.{EVENTS};
ghost use Rattle.order_events.specs.lawful_order.Events.{all_events, all_sleeps};

use crate::run::Run;
use bit_ranks::ranks;
use lawful_order::Placed;
use order_events::{Events, Sleeps};
use order_formula::World;
use path_execution::Execution;
use path_walk::{Event, Sleep};
use run_simulation::{Deed, Simulation};
use std::alloc::{AllocError, Global};
use store_buffers::MemoryModel;
use tc_code::Code;

/// The world of one run along the paths of a log: positions, values and enders for a search for a
/// schedule to try first. No clause says what they are, since nothing is concluded from them; if
/// the run stayed on its paths, they are those of a schedule.
///
/// Its time is about that of one walk along the paths, with a look at each thread's next events for
/// every event.
pub fn first_world<M: MemoryModel>(
    alloc: Global,
    code: &Code,
    execution: &Execution,
) -> Result<World, AllocError>
    requires { length (all_events execution.now.paths) ≤ EVENTS }
    ensures positions { IfOk result (λ world. length world.positions ≡ length (all_events execution.now.paths)) }
    ensures loads { IfOk result (λ world. length world.loads ≡ execution.now.symbolic.loads) }
    ensures enders { IfOk result (λ world. length world.enders ≡ length (all_sleeps execution.now.paths)) }
{
    let events = Events::of(alloc, &execution.paths)?;
    let sleeps = Sleeps::of(alloc, &execution.paths)?;
    let run = further::<M>(alloc, code, execution)?;
    world_of(
        alloc,
        &run.simulation,
        &events,
        &sleeps,
        execution.symbolic.loads(),
    )
}

/// The world of what was done, with values of this number of loads.
fn world_of(
    alloc: Global,
    done: &Simulation,
    events: &Events,
    sleeps: &Sleeps,
    loads: u32,
) -> Result<World, AllocError>
    requires { length events.now ≤ EVENTS }
    ensures positions { IfOk result (λ world. length world.positions ≡ length events.now) }
    ensures loads { IfOk result (λ world. length world.loads ≡ loads) }
    ensures enders { IfOk result (λ world. length world.enders ≡ length sleeps.now) }
{
    let times = times(alloc, done, events)?;
    Ok(World::new(
        ranks(alloc, &times)?,
        values_of(alloc, done, loads)?,
        enders(alloc, done, events, sleeps)?,
    ))
}

/// The run that gives the world: the careful one, or the eager one, which reads first, if a thread
/// left its path in the careful one and stayed longer in the eager one.
fn further<'a, M: MemoryModel>(
    alloc: Global,
    code: &Code,
    execution: &'a Execution,
) -> Result<Run<'a>, AllocError> {
    let careful = Run::new::<M>(alloc, code, execution, false)?;
    if careful.is_whole() {
        return Ok(careful);
    }
    let eager = Run::new::<M>(alloc, code, execution, true)?;
    Ok(if eager.is_further(&careful) {
        eager
    } else {
        careful
    })
}

/// The time of each event.
fn times(alloc: Global, done: &Simulation, events: &Events) -> Result<Vec<u8>, AllocError>
    ensures { IfOk result (λ v. length v.items ≡ length events.now) }
{
    events
        .all()
        .iter()
        .map(|placed| time(done, placed))
        .collect(alloc)
}

/// The time of an event.
fn time(done: &Simulation, placed: &Placed<Event>) -> u8 {
    done.time(Deed {
        thread: placed.thread,
        step: placed.it.step,
    })
}

/// The value that each load took; 0 if it took none.
fn values_of(alloc: Global, done: &Simulation, loads: u32) -> Result<Vec<i32>, AllocError>
    ensures { IfOk result (λ v. length v.items ≡ loads) }
{
    (0..loads)
        .map(|load| done.values.load(load).unwrap_or(0))
        .collect(alloc)
}

/// The event that ended each sleep.
fn enders(
    alloc: Global,
    done: &Simulation,
    events: &Events,
    sleeps: &Sleeps,
) -> Result<Vec<Option<u32>>, AllocError>
    ensures { IfOk result (λ v. length v.items ≡ length sleeps.now) }
{
    sleeps
        .all()
        .iter()
        .map(|placed| ender(done, events, placed))
        .collect(alloc)
}

/// The number of the event that ended a sleep, if one did.
fn ender(done: &Simulation, events: &Events, placed: &Placed<Sleep>) -> Option<u32> {
    let by = done.ender(Deed {
        thread: placed.thread,
        step: placed.it.step,
    })?;
    Some(events.number(by.thread, by.step))
}
