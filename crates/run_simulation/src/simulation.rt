//! Runs along the paths.

use crate::values::NO_LIMIT;
use crate::{Arrival, Deed, Machine, Pending, ThreadNumber, Values};
use path_execution::Execution;
use path_walk::{Event, EventKind};
use std::alloc::{AllocError, Global};
use store_buffers::MemoryModel;
use sym_exec::Access;
use tc_code::Code;

/// A run so far.
#[derive(Drop)]
pub struct Simulation<'a> {
    pub machine: Machine<'a>,
    pub values: Values<'a>,
    /// The events that were done, in order.
    done: Vec<Deed>,
    /// The beginnings of the sleeps that have ended, each with the event that ended it.
    ended: Vec<(Deed, Deed)>,
    /// The number of events done when a thread first left its path, if one has.
    pub left: Option<usize>,
}

impl<'a> Simulation<'a> {
    /// A run in which main has begun and no event is done.
    pub fn new(
        alloc: Global,
        code: &Code,
        execution: &'a Execution,
    ) -> Result<Simulation<'a>, AllocError> {
        let mut simulation = Simulation {
            machine: Machine::new(alloc, code, execution)?,
            values: Values::new(alloc, &execution.terms)?,
            done: Vec::new(alloc),
            ended: Vec::new(alloc),
            left: None,
        };
        simulation.begin(ThreadNumber::new(0));
        Ok(simulation)
    }

    /// The number of events done before an event; 255, the last of 256 times, if it isn't done.
    pub fn time(&self, deed: Deed) -> u8 {
        for (time, done) in (0..u8::MAX).zip(self.done.iter()) {
            if *done == deed {
                return time;
            }
        }
        u8::MAX
    }

    /// The event that ended the sleep that began with this one, if one did.
    pub fn ender(&self, sleep: Deed) -> Option<Deed> {
        for (ended, by) in &self.ended {
            if *ended == sleep {
                return Some(*by);
            }
        }
        None
    }

    /// Drains a pending store.
    pub fn drain(&mut self, store: &Pending) -> Result<(), AllocError> {
        self.machine.drain(store);
        Ok(self.done.push(store.deed)?)
    }

    /// Does a thread's next event, whether or not the machine enables it. Returns whether other
    /// threads can see it.
    pub fn go<M: MemoryModel>(&mut self, thread: ThreadNumber) -> Result<bool, AllocError> {
        let path = self.machine.path(thread);
        let at = self.machine.thread(thread).at;
        let Some(event) = path.event(at) else {
            return Ok(false);
        };
        let is_seen = match path.access(at) {
            Some(access) => self.accesses::<M>(thread, event, access)?,
            None => self.asks(thread, event)?,
        };
        let arrival = path.past(at, &self.values, NO_LIMIT);
        self.arrive(thread, arrival);
        Ok(is_seen)
    }

    /// Does an access. Returns whether it changes memory.
    fn accesses<M: MemoryModel>(
        &mut self,
        thread: ThreadNumber,
        event: Event,
        access: Access,
    ) -> Result<bool, AllocError> {
        let cell = self.values.cell(access.cell);
        if let Some(load) = access.takes {
            let found = self.found(thread, cell);
            self.values.set(load, Some(found), NO_LIMIT);
        }
        match self.store(thread, event, access, cell) {
            Some(store) if M::BUFFERED && access.takes.is_none() => {
                self.machine.stores.push(store)?;
                Ok(false)
            }
            Some(store) => {
                self.done.push(store.deed)?;
                Ok(self.machine.write(store.cell, store.value))
            }
            None => {
                self.done.push(deed_of(thread, event))?;
                Ok(false)
            }
        }
    }

    /// The value that a thread finds in a cell; 0 if there is no such cell, which happens only off
    /// its path.
    fn found(&self, thread: ThreadNumber, cell: Option<u32>) -> i32 {
        match cell {
            Some(cell) => self.machine.found(thread, cell).unwrap_or(0),
            None => 0,
        }
    }

    /// What an access stores, if it stores and there is such a cell. A value that isn't known
    /// counts as 0.
    fn store(
        &self,
        thread: ThreadNumber,
        event: Event,
        access: Access,
        cell: Option<u32>,
    ) -> Option<Pending> {
        Some(Pending {
            deed: deed_of(thread, event),
            cell: cell?,
            value: self.values.of(access.writes?).unwrap_or(0),
            bars: event.bars,
        })
    }

    /// Does an event that isn't an access. Returns whether other threads can see it.
    fn asks(&mut self, thread: ThreadNumber, event: Event) -> Result<bool, AllocError> {
        let deed = deed_of(thread, event);
        self.done.push(deed)?;
        match event.kind {
            EventKind::Lock(mutex) | EventKind::Wake { mutex, .. } => {
                self.machine.set_owner(mutex, Some(thread));
            }
            EventKind::Unlock(mutex) => self.machine.set_owner(mutex, None),
            EventKind::Sleep { condition, mutex } => {
                self.machine.set_owner(mutex, None);
                self.machine.sleep(thread, condition, event.step);
            }
            EventKind::Signal(condition) => self.signal(condition, deed)?,
            EventKind::Broadcast(condition) => self.broadcast(condition, deed)?,
            EventKind::Create(number) => self.create(thread, number),
            _ => {}
        }
        Ok(is_seen(event.kind))
    }

    /// A signal ends one sleep on a condition.
    fn signal(&mut self, condition: u32, by: Deed) -> Result<(), AllocError> {
        match self.machine.signalled(condition) {
            Some(thread) => self.end_sleep(thread, by),
            None => Ok(()),
        }
    }

    /// A broadcast ends all sleeps on a condition.
    fn broadcast(&mut self, condition: u32, by: Deed) -> Result<(), AllocError> {
        for thread in ThreadNumber::all() {
            if self.machine.thread(thread).waits_on == Some(condition) {
                self.end_sleep(thread, by)?;
            }
        }
        Ok(())
    }

    /// Wakes a thread up, and records what ended its sleep.
    fn end_sleep(&mut self, thread: ThreadNumber, by: Deed) -> Result<(), AllocError> {
        let sleep = self.machine.wake(thread);
        Ok(self.ended.push((sleep, by))?)
    }

    /// Begins a child of a thread, with the terms that it is handed.
    fn create(&mut self, parent: ThreadNumber, number: u32) {
        if let Some(child) = self.machine.child(parent, number) {
            self.values.renew_all();
            self.begin(child);
        }
    }

    /// Begins a thread, and takes it to its first event.
    fn begin(&mut self, thread: ThreadNumber) {
        self.machine.begin(thread);
        let path = self.machine.path(thread);
        let at = self.machine.thread(thread).at;
        let arrival = path.past_tests(at, &self.values, NO_LIMIT);
        self.arrive(thread, arrival);
    }

    /// Takes a thread to its next event, and records when a thread first leaves its path.
    fn arrive(&mut self, thread: ThreadNumber, arrival: Arrival) {
        self.machine.move_to(thread, arrival.place);
        if !arrival.is_on_path && self.left.is_none() {
            self.left = Some(self.done.len());
        }
    }
}

/// An event of a thread, done.
fn deed_of(thread: ThreadNumber, event: Event) -> Deed {
    Deed {
        thread: thread.index(),
        step: event.step,
    }
}

/// Whether other threads can see an event of this kind, which isn't an access.
fn is_seen(kind: EventKind) -> bool {
    matches!(
        kind,
        EventKind::Unlock(_)
            | EventKind::Sleep { .. }
            | EventKind::Signal(_)
            | EventKind::Broadcast(_)
    )
}
