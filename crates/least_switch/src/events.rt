//! The data for counting switches: the thread of each event, and the failing event.
ghost use Rattle.std.specs.Prelude.{◌≡◌, ◌==◌, ◌&&◌, ◌<◌, ◌≤◌, All, IfOk, length, option_map};
ghost use Rattle.std.specs.List.{find, position_or_len};
ghost use Rattle.schedule_file.specs.tc_limits.declared.limits.TheConstants.{EVENTS};
ghost use Rattle.order_events.specs.lawful_order.Events.{all_events};
ghost use Rattle.schedule_decode.specs.world_plan.Plan.{is_failure};
ghost use Rattle.switch_clauses.specs.switch_runs.Worlds.{failing_of, threads_of, world_switches};

use order_events::{Events, Placed};
use order_formula::World;
use order_switches::switches;
use path_walk::{Event, EventKind, Paths};
use std::alloc::{AllocError, Global};

/// The number of context switches in a world of paths: less than the number of events.
pub(crate) fn count(alloc: Global, paths: &Paths, world: &World) -> Result<u32, AllocError>
    requires events { length (all_events paths.now) ≤ EVENTS }
    requires small { All (λ p. p < 256) world.now.positions }
    ensures switches { IfOk result (λ n. n ≡ world_switches paths.now world.now) }
    ensures few { IfOk result (λ n. n ≤ 255) }
{
    let (threads, failing) = threads_of(alloc, paths)?;
    Ok(switches(threads.as_slice(), failing, world))
}

/// The thread of each event of paths, and the number of the failing event, if there is one.
pub(crate) fn threads_of(
    alloc: Global,
    paths: &Paths,
) -> Result<(Vec<usize>, Option<u32>), AllocError>
    requires { length (all_events paths.now) ≤ EVENTS }
    ensures threads { IfOk result (λ both. both.0.items ≡ threads_of paths.now) }
    ensures failing { IfOk result (λ both. both.1 ≡ failing_of paths.now) }
{
    let events = Events::of(alloc, paths)?;
    let threads = events.all().iter().map(thread_of).collect(alloc)?;
    Ok((threads, failing(&events)))
}

/// The thread of an event.
fn thread_of(placed: &Placed<Event>) -> usize
    ensures { result ≡ placed.now.thread }
{
    placed.thread
}

/// The number of the failing event, if there is one.
fn failing(events: &Events) -> Option<u32>
    ensures { result ≡ option_map (λ e. position_or_len (λ d. d.thread == e.thread && d.it.step == e.it.step) events.now)
        (find (λ e. is_failure e.it.kind) events.now) }
{
    let failing = failing_event(events)?;
    Some(events.number(failing.thread, failing.it.step))
}

/// The failing event, if there is one.
fn failing_event(events: &Events) -> Option<&Placed<Event>>
    ensures { option_map (λ e. e.now) result ≡ find (λ e. is_failure e.it.kind) events.now }
{
    events
        .all()
        .iter()
        .find(|placed| is_failure(placed.it.kind))
}

/// Whether events of this kind fail.
fn is_failure(kind: EventKind) -> bool
    ensures { result ≡ is_failure kind }
{
    matches!(kind, EventKind::Fail)
}
