//! The events of all threads.
ghost use Rattle.std.specs.Prelude.{◌≡◌, ◌≤◌, ◌++◌, ◌==◌, ◌&&◌, ◌+◌, ◌<◌, ◌^◌, length, IfOk, OnOk};
ghost use Rattle.std.specs.List.{position_or_len};
ghost use Rattle.path_walk.specs.tc_limits.declared.limits.TheConstants.{EVENTS};
ghost use Rattle.lawful_order.specs.Events.{all_events, all_from};

use crate::items::push_items;
use lawful_order::Placed;
use path_walk::{Event, Paths, Walk};
use std::alloc::{AllocError, Global};
use std::marker::Model;

/// All events, one thread after another, each thread's by step. The number of an event is its
/// index. There are at most `EVENTS`.
#[derive(Debug, Drop)]
pub struct Events {
    all: Vec<Placed<Event>>,
}

impl Model for Events {
    ghost use Rattle.std.specs.Prelude.{List, length, ◌≤◌};
    ghost use Rattle.path_walk.specs.tc_limits.declared.limits.TheConstants.{EVENTS};
    ghost use Rattle.lawful_order.specs.Events.{Placed};
    ghost use Rattle.path_walk.specs.declared.event.Event.{Event};

    ghost Value = { List (Placed Event) };

    ghost view = { λ e. e.all.items };

    ghost invariant = { λ e. length e.all.items ≤ EVENTS };
}

impl Events {
    /// All events of the paths.
    pub fn of(alloc: Global, paths: &Paths) -> Result<Events, AllocError>
        requires { length (all_events paths.now) ≤ EVENTS }
        ensures { IfOk result (λ events. events ≡ all_events paths.now) }
    {
        let mut all = Vec::new(alloc);
        push_walks(&mut all, paths.threads())?;
        Ok(Events { all })
    }

    /// All of them.
    pub fn all(&self) -> &[Placed<Event>]
        ensures events { result.now ≡ self.now }
        ensures few { length self.now ≤ EVENTS }
    {
        self.all.as_slice()
    }

    /// The number of the event that is a thread's step, or the number of all events if there is
    /// none.
    pub fn number(&self, thread: usize, step: usize) -> u32
        ensures { result ≡ position_or_len (λ e. e.thread == thread && e.it.step == step) self.now }
    {
        let mut number: u32 = 0;
        for placed in self.all() {
            if placed.thread == thread && placed.it.step == step {
                return number;
            }
            number += 1;
        }
        number
    }
}

/// Appends the events of all threads, the first of which has index 0.
fn push_walks(all: &mut Vec<Placed<Event>>, threads: &[Walk]) -> Result<(), AllocError>
    ensures { OnOk result (all.new.items ≡ all.old.items ++ all_from (λ w. w.events) 0 threads.now) }
{
    for (thread, walk) in threads.iter().enumerate() {
        push_items(all, thread, walk.events())?;
    }
    Ok(())
}
