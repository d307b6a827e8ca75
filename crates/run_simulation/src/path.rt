//! Threads' paths, and places on them.

use crate::Values;
use path_walk::{Event, EventKind};
use sym_exec::{Access, Cell, Test};
use tc_limits::limits::EVENTS;

/// The path of a thread: what it does in memory and to others, and its tests.
#[derive(Clone, Copy)]
pub struct Path<'a> {
    pub(crate) events: &'a [Event],
    pub(crate) accesses: &'a [Access],
    pub(crate) tests: &'a [Test],
}

/// A place on a path: the numbers of events and tests done.
#[derive(Clone, Copy, Default)]
pub struct Place {
    events: usize,
    tests: usize,
}

/// The place that a thread reaches.
#[derive(Clone, Copy)]
pub struct Arrival {
    pub place: Place,
    /// Whether all tests on the way had their logged outcomes, as far as their values are known.
    pub is_on_path: bool,
    /// Whether the thread passed all tests on the way within the limit.
    pub is_there: bool,
}

impl Path<'_> {
    /// The next event at a place, if that isn't the end.
    pub fn event(&self, at: Place) -> Option<Event> {
        self.events.get(at.events).copied()
    }

    /// The access of the next event, if it has one.
    pub fn access(&self, at: Place) -> Option<Access> {
        let step = self.event(at)?.step;
        let access = self.accesses.iter().find(|access| access.step == step);
        access.copied()
    }

    /// Where a thread comes to from a place after its next event and at most `limit` tests.
    pub fn past(&self, at: Place, values: &Values, limit: usize) -> Arrival {
        let mut next = at;
        if at.events < self.events.len() {
            next.events = at.events + 1;
        }
        self.past_tests(next, values, limit)
    }

    /// Where a thread comes to from a place after the tests up to its next event, or up to the end,
    /// but at most `limit` of them.
    pub fn past_tests(&self, at: Place, values: &Values, limit: usize) -> Arrival {
        let end = self.event(at).map_or(usize::MAX, |event| event.step);
        let mut arrival = Arrival {
            place: at,
            is_on_path: true,
            is_there: true,
        };
        for number in at.tests..self.tests.len() {
            let test = self.tests[number];
            if test.step > end {
                return arrival;
            }
            if number - at.tests >= limit {
                arrival.is_there = false;
                return arrival;
            }
            arrival.place.tests = number + 1;
            if let Some(value) = values.of(test.term) {
                arrival.is_on_path &= (value != 0) == test.wanted;
            }
        }
        arrival
    }

    /// The share of the path that is done, in 65,536ths; all if the next event is a failure, since
    /// that comes last. A path has at most `EVENTS` events.
    pub fn share(&self, at: Place) -> usize {
        let done = at.events;
        if done < self.events.len() && !matches!(self.events[done].kind, EventKind::Fail) {
            done.min(EVENTS) * 65_536 / self.events.len()
        } else {
            65_536
        }
    }

    /// Whether the next event needs all stores of its thread in memory.
    pub fn needs_empty_buffer(&self, at: Place) -> bool {
        match self.event(at) {
            Some(event) => !matches!(
                event.kind,
                EventKind::Load | EventKind::Store | EventKind::Fail
            ),
            None => false,
        }
    }

    /// Whether stores have to drain at a place: the next event needs an empty buffer, or only loads
    /// come before an exchange, and these should find what the exchange finds.
    pub(crate) fn drains_first(&self, at: Place) -> bool {
        self.needs_empty_buffer(at) || self.exchanges_after_loads(at)
    }

    /// Whether the next event that isn't a load is an exchange.
    fn exchanges_after_loads(&self, at: Place) -> bool {
        for event in self.events.iter().skip(at.events) {
            match event.kind {
                EventKind::Load => {}
                kind => return matches!(kind, EventKind::Exchange),
            }
        }
        false
    }

    /// The condition of the wait that the next event ends, if it ends one.
    pub(crate) fn awaited(&self, at: Place) -> Option<u32> {
        match self.event(at)?.kind {
            EventKind::Wake { condition, .. } => Some(condition),
            _ => None,
        }
    }

    /// Whether an access that is left may write to a cell.
    pub(crate) fn may_write(&self, at: Place, cell: u32) -> bool {
        match self.event(at) {
            Some(event) => self.accesses.iter().any(|access| {
                access.step >= event.step && access.writes.is_some() && may_be(access.cell, cell)
            }),
            None => false,
        }
    }
}

/// Whether a cell may be the one with this number.
fn may_be(cell: Cell, number: u32) -> bool {
    match cell {
        Cell::Fixed(fixed) => fixed == number,
        Cell::Element { first, length, .. } => first <= number && number - first < length,
    }
}
