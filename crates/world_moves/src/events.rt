//! The events of a world, by position.
ghost use Rattle.std.specs.Prelude.{◌≡◌, ◌==◌, ◌+◌, max, fold, option_map, option_copied};
ghost use Rattle.std.specs.List.{enumerate_from, find};
ghost use Rattle.std.specs.Option.{option_map_or};
ghost use Rattle.sym_exec.specs.Alone.{cell_by};
ghost use Rattle.order_cells.specs.lawful_order.Events.{all_sleeps};
ghost use Rattle.order_cells.specs.lawful_order.Memory as memory;
ghost use Rattle.order_formula.specs.Truth.{Serves};
ghost use Rattle.order_formula.specs.Worlds.{is_ended, position as place};
ghost use Rattle.world_plan.specs.Plan as plan;
ghost use Rattle.world_moves.specs.Needs.{IsNumbered};

use order_events::{Events, Placed, Sleeps};
use order_formula::World;
use path_walk::{Event, EventKind, Paths};
use sym_exec::{Access, Cell, Symbolic};
use sym_terms::{Terms, Values, value};
use tc_base::ThreadName;

/// Whether an event is a failure, which ends the run.
fn is_failure(kind: EventKind) -> bool
    ensures { result ≡ plan.is_failure kind }
{
    matches!(kind, EventKind::Fail)
}

/// Whether an event is a plain store, not an exchange.
pub(crate) fn is_store(kind: EventKind) -> bool
    ensures { result ≡ memory.is_store kind }
{
    matches!(kind, EventKind::Store)
}

/// The event at a position, with its number.
pub(crate) fn event_at<'a>(
    events: &'a Events,
    world: &World,
    position: usize,
) -> Option<(u32, &'a Placed<Event>)>
    ensures { option_map (λ e. (e.0, e.1.now)) result ≡ find (λ e. place world.now e.0 == position) (enumerate_from 0 events.now) }
{
    let mut number: u32 = 0;
    for placed in events.all() {
        if world.position(number) as usize == position {
            return Some((number, placed));
        }
        number += 1;
    }
    None
}

/// The position of the failing event, or one past all positions if none fails.
pub(crate) fn last_place(events: &Events, world: &World) -> usize
    ensures { result ≡ option_map_or (λ e. place world.now e.0) (find (λ e. plan.is_failure e.1.it.kind) (enumerate_from 0 events.now))
        (fold (λ n p. max n (p + 1)) 0 world.now.positions) }
{
    let mut number: u32 = 0;
    for placed in events.all() {
        if is_failure(placed.it.kind) {
            return world.position(number) as usize;
        }
        number += 1;
    }
    past_all(world)
}

/// One past all positions.
fn past_all(world: &World) -> usize
    ensures { result ≡ fold (λ n p. max n (p + 1)) 0 world.now.positions }
{
    let mut past = 0;
    for position in world.positions() {
        past = past.max(*position as usize + 1);
    }
    past
}

/// The thread whose sleep an event ends, if any.
pub(crate) fn woken_by<'a>(
    paths: &'a Paths,
    sleeps: &Sleeps,
    world: &World,
    event: u32,
) -> Option<&'a ThreadName>
    requires { sleeps.now ≡ all_sleeps paths.now }
    ensures { option_map (λ n. n.now) result ≡ plan.woken_by paths.now world.now event }
{
    let thread = sleeper_of(sleeps, world, event)?;
    Some(paths.threads().get(thread)?.name())
}

/// The index of the thread whose sleep an event ends, if any.
fn sleeper_of(sleeps: &Sleeps, world: &World, event: u32) -> Option<usize>
    ensures { result ≡ option_map (λ s. s.1.thread) (find (λ s. is_ended world.now s.0 event) (enumerate_from 0 sleeps.now)) }
{
    for (number, placed) in sleeps.all().iter().enumerate() {
        if is_ended(world, number, event) {
            return Some(placed.thread);
        }
    }
    None
}

/// Whether an event ends a sleep.
fn is_ended(world: &World, sleep: usize, by: u32) -> bool
    ensures { result ≡ is_ended world.now sleep by }
{
    match world.enders().get(sleep) {
        Some(Some(ender)) => *ender == by,
        _ => false,
    }
}

/// The cell of a thread's step, if it has one.
pub(crate) fn cell_of(symbolic: &Symbolic, thread: usize, step: usize) -> Option<Cell>
    ensures { result ≡ memory.cell_of symbolic.now thread step }
{
    let course = symbolic.threads().get(thread)?;
    Some(access_at(course.accesses(), step)?.cell)
}

/// The access of a step, if there is one.
fn access_at(accesses: &[Access], step: usize) -> Option<&Access>
    ensures { option_copied result ≡ find (λ a. a.step == step) accesses.now }
{
    accesses.iter().find(|access| access.step == step)
}

/// The number of a cell, given the values of the loads.
pub(crate) fn cell_number(terms: &Terms, cell: Cell, world: &World, values: &mut Values) -> u32
    requires cell { IsNumbered terms.now world.now cell }
    requires table { Serves terms.now world.now values.old }
    ensures number { result ≡ cell_by terms.now world.now.loads cell }
    ensures table { Serves terms.now world.now values.new }
{
    match cell {
        Cell::Fixed(number) => number,
        Cell::Element { first, index, .. } => first + value(terms, index, values).unsigned_abs(),
    }
}
