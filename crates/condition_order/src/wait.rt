//! Waits on conditions, and the events that end them.
ghost use Rattle.std.specs.Prelude.{◌≡◌, ◌<◌, ◌^◌, length, IfOk};
ghost use Rattle.condition_order.specs.Conditions.{ender_by, enders, sleeps_on, wait_of, waits};

use order_events::{Events, Placed, Sleeps};
use path_walk::{Event, EventKind, Sleep};
use std::alloc::{AllocError, Global};

/// A thread's wait on a condition, with the number of its sleep.
#[derive(Clone, Copy, Debug)]
pub(crate) struct Wait {
    /// The number of the sleep.
    pub(crate) sleep: u32,
    /// The condition.
    pub(crate) condition: u32,
    /// The event that begins the sleep.
    pub(crate) begins: u32,
    /// The event in which the thread wakes, if the path has it.
    pub(crate) wakes: Option<u32>,
}

/// A signal or a broadcast of a condition.
#[derive(Clone, Copy, Debug)]
pub struct Ender {
    /// The event.
    pub event: u32,
    /// Whether it is a broadcast, which ends every sleep on the condition. A signal ends one.
    pub all: bool,
}

impl Wait {
    /// The wait of a numbered sleep.
    fn of(events: &Events, number: u32, placed: &Placed<Sleep>) -> Wait
        ensures { result ≡ wait_of events.now (number, placed.now) }
    {
        let wakes = match placed.it.wake {
            Some(step) => Some(events.number(placed.thread, step)),
            None => None,
        };
        Wait {
            sleep: number,
            condition: placed.it.condition,
            begins: events.number(placed.thread, placed.it.step),
            wakes,
        }
    }
}

impl Ender {
    /// A numbered event as an ender, if it is a signal or a broadcast of the condition.
    fn by(condition: u32, number: u32, placed: &Placed<Event>) -> Option<Ender>
        ensures { result ≡ ender_by condition (number, placed.now) }
    {
        match placed.it.kind {
            EventKind::Signal(of) if of == condition => Some(Ender {
                event: number,
                all: false,
            }),
            EventKind::Broadcast(of) if of == condition => Some(Ender {
                event: number,
                all: true,
            }),
            _ => None,
        }
    }
}

/// The waits of all sleeps.
pub(crate) fn waits(
    alloc: Global,
    events: &Events,
    sleeps: &Sleeps,
) -> Result<Vec<Wait>, AllocError>
    requires { length sleeps.now < 2 ^ 32 }
    ensures { IfOk result (λ all. all.items ≡ waits events.now sleeps.now) }
{
    let mut all = Vec::new(alloc);
    for (number, placed) in sleeps.all().iter().enumerate() {
        all.push(Wait::of(events, number as u32, placed))?;
    }
    Ok(all)
}

/// The numbers of the sleeps on a condition.
pub(crate) fn sleeps_on(
    alloc: Global,
    waits: &[Wait],
    condition: u32,
) -> Result<Vec<u32>, AllocError>
    ensures { IfOk result (λ sleeps. sleeps.items ≡ sleeps_on waits.now condition) }
{
    let mut sleeps = Vec::new(alloc);
    for wait in waits {
        if wait.condition == condition {
            sleeps.push(wait.sleep)?;
        }
    }
    Ok(sleeps)
}

/// The signals and broadcasts of a condition, by number.
pub fn enders(alloc: Global, events: &Events, condition: u32) -> Result<Vec<Ender>, AllocError>
    ensures { IfOk result (λ found. found.items ≡ enders events.now condition) }
{
    let mut found = Vec::new(alloc);
    for (number, placed) in events.all().iter().enumerate() {
        if let Some(ender) = Ender::by(condition, number as u32, placed) {
            found.push(ender)?;
        }
    }
    Ok(found)
}
