//! The events of a thread's steps, and whether the path alone rules out every run.
ghost use Rattle.std.specs.Prelude.{◌≡◌, ℕ, ◌<◌, ◌≤◌, ◌^◌, length, IfOk, IsSome};
ghost use Rattle.std.specs.List.{All, list_any};
ghost use Rattle.tc_code.specs.Code.{instr_at};
ghost use Rattle.path_walk.specs.Steps.{steps_at};
ghost use Rattle.path_walk.specs.Marks.{marks_at_start, marks_after, marked_steps};
ghost use Rattle.path_walk.specs.Events.{events_of, is_impossible};

use crate::Event;
use crate::marks::Marks;
use std::alloc::{AllocError, Global};
use tc_code::Code;

/// The events and marks of a thread's steps.
#[derive(Drop)]
pub struct Told {
    /// Its events, in order.
    pub events: Vec<Event>,
    /// Whether the path alone rules out every run.
    pub dead: bool,
    /// The thread's mutexes and thread variables after the steps.
    pub marks: Marks,
}

/// The events and marks of a thread's steps.
pub fn tell(
    alloc: Global,
    code: &Code,
    function: usize,
    fails: bool,
    places: &[usize],
) -> Result<Told, AllocError>
    requires there { All (λ k. IsSome (instr_at code.now function k)) places.now }
    requires few { length places.now < 2 ^ 32 }
    ensures events { IfOk result (λ t. t.events.items
        ≡ events_of code.now function (marked_steps code.now function fails (steps_at code.now function places.now))) }
    ensures dead { IfOk result (λ t. t.dead
        ≡ list_any is_impossible (marked_steps code.now function fails (steps_at code.now function places.now))) }
    ensures marks { IfOk result (λ t. t.marks ≡ marks_after (marks_at_start code.now function) (steps_at code.now function places.now)) }
{
    let mut marks = Marks::at_start(alloc, code, function)?;
    let mut events = Vec::new(alloc);
    let mut dead = false;
    for step in 0..places.len() {
        let place = places[step];
        let Some(instr) = code.instr(function, place) else {
            unreachable!()
        };
        let fails_here = fails && step + 1 == places.len();
        if let Some(kind) = marks.kind(instr, fails_here) {
            events.push(Event {
                step,
                line: code.line(function, place).unwrap_or(0),
                kind,
                bars: marks.bars(),
            })?;
        }
        dead = dead || marks.excludes(instr, fails_here);
        marks.apply(instr);
    }
    Ok(Told {
        events,
        dead,
        marks,
    })
}
