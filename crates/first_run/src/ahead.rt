//! A thread that runs ahead alone.
ghost use Rattle.std.specs.Prelude.{◌<◌};
ghost use Rattle.first_run.specs.declared.tuned.TheConstants.{EVENTS_AHEAD};

use crate::tuned::{EVENTS_AHEAD, TERMS_AHEAD, TESTS_AHEAD};
use path_walk::EventKind;
use run_simulation::{Arrival, Machine, Place, ThreadNumber, Values};
use std::alloc::AllocError;
use store_buffers::MemoryModel;
use sym_exec::Access;

/// The outcome of an event of a thread that runs ahead.
#[derive(Clone, Copy, PartialEq, Eq)]
pub(crate) enum Pace {
    /// The event is done.
    On,
    /// There is no event, the run would end with it, or the limit of tests is reached.
    End,
    /// The thread has to wait.
    Wait,
    /// The event is done, and the thread leaves its path.
    Leave,
}

/// The values that reads ahead take.
#[derive(Clone, Copy)]
pub(crate) enum Reads {
    /// The current value of the cell.
    Now,
    /// The current value, or unknown if another thread may still write to the cell; the first event
    /// ahead always takes the current value.
    Sure,
    /// The current value, except that the event with this number ahead, from 0, takes this value.
    Instead { event: usize, value: i32 },
}

/// A read ahead: the number of its event, from 0, and its cell.
#[derive(Clone, Copy)]
pub(crate) struct Read {
    pub event: usize,
    pub cell: u32,
}

/// A write ahead, with its value if that is known.
#[derive(Clone, Copy)]
pub(crate) struct Write {
    pub cell: u32,
    pub value: Option<i32>,
}

/// A thread that runs ahead alone in a machine whose other threads don't move.
#[derive(Clone, Copy)]
pub(crate) struct Ahead {
    pub thread: ThreadNumber,
    reads: Reads,
    at: Place,
    /// Its last read, if the cell of that is known.
    pub last: Option<Read>,
    /// What each event ahead wrote, if it wrote.
    pub writes: [Option<Write>; EVENTS_AHEAD],
    /// The event ahead after which it left its path, if it has.
    pub left: Option<usize>,
    has_mutex: bool,
    has_pending: bool,
    /// Whether it wrote something that other threads see now or will see.
    pub changes: bool,
    /// Whether other threads see it now.
    pub is_seen: bool,
}

impl Ahead {
    /// A thread that has done nothing ahead yet.
    pub fn new(machine: &Machine, thread: ThreadNumber, reads: Reads) -> Ahead {
        Ahead {
            thread,
            reads,
            at: machine.thread(thread).at,
            last: None,
            writes: [None; EVENTS_AHEAD],
            left: None,
            has_mutex: machine.has_mutex(thread),
            has_pending: machine.has_pending(thread),
            changes: false,
            is_seen: false,
        }
    }

    /// A thread that has gone on as far as it can, for at most `EVENTS_AHEAD` events.
    pub fn run<M: MemoryModel>(
        machine: &Machine,
        values: &mut Values,
        thread: ThreadNumber,
        reads: Reads,
    ) -> Ahead {
        let mut ahead = Ahead::new(machine, thread, reads);
        for event in 0..EVENTS_AHEAD {
            if ahead.go::<M>(machine, values, event) != Pace::On {
                break;
            }
        }
        ahead
    }

    /// Does the next event, which has this number ahead. Nothing wakes the thread from a sleep that
    /// it begins ahead.
    pub fn go<M: MemoryModel>(
        &mut self,
        machine: &Machine,
        values: &mut Values,
        event: usize,
    ) -> Pace
        requires { event < EVENTS_AHEAD }
    {
        let path = machine.path(self.thread);
        let Some(next) = path.event(self.at) else {
            return Pace::End;
        };
        match next.kind {
            EventKind::Fail => return Pace::End,
            EventKind::Wake { .. } if event > 0 => return Pace::Wait,
            kind if !machine.allows(self.thread, kind) => return Pace::Wait,
            _ => {}
        }
        match path.access(self.at) {
            Some(access) => self.accesses::<M>(machine, values, event, access),
            None => self.asks(next.kind),
        }
        let arrival = path.past(self.at, values, TESTS_AHEAD);
        self.arrive(event, arrival)
    }

    /// Takes the thread to its next event.
    fn arrive(&mut self, event: usize, arrival: Arrival) -> Pace {
        self.at = arrival.place;
        if !arrival.is_on_path {
            self.left = Some(event);
            Pace::Leave
        } else if arrival.is_there {
            Pace::On
        } else {
            Pace::End
        }
    }

    /// Drains its stores, if there are any and the next event needs an empty buffer.
    pub fn drain(&mut self, machine: &Machine) {
        if self.has_pending && machine.path(self.thread).needs_empty_buffer(self.at) {
            self.has_pending = false;
            self.show();
        }
    }

    /// Shows its writes to the other threads, unless it holds a mutex.
    fn show(&mut self) {
        self.changes = true;
        self.is_seen |= !self.has_mutex;
    }

    /// Does an event that isn't an access.
    fn asks(&mut self, kind: EventKind) {
        match kind {
            EventKind::Lock(_) | EventKind::Wake { .. } => self.has_mutex = true,
            EventKind::Unlock(_) | EventKind::Sleep { .. } => {
                self.has_mutex = false;
                self.is_seen = true;
            }
            EventKind::Signal(_) | EventKind::Broadcast(_) => self.show(),
            _ => {}
        }
    }

    /// Does an access. If its cell isn't known, it takes an unknown value and writes nothing.
    fn accesses<M: MemoryModel>(
        &mut self,
        machine: &Machine,
        values: &mut Values,
        event: usize,
        access: Access,
    )
        requires { event < EVENTS_AHEAD }
    {
        let cell = values.cell(access.cell);
        let found = self.found(machine, event, cell);
        if let Some(load) = access.takes {
            self.last = cell.map(|cell| Read { event, cell });
            values.set(load, self.taken(event, found), TERMS_AHEAD);
        }
        if let (Some(cell), Some(term)) = (cell, access.writes) {
            let value = values.of(term);
            self.writes[event] = Some(Write { cell, value });
            if M::BUFFERED && access.takes.is_none() {
                self.has_pending = true;
            } else if value != found {
                self.show();
            }
        }
    }

    /// The value that it finds in a cell, if both are known.
    fn found(&self, machine: &Machine, event: usize, cell: Option<u32>) -> Option<i32> {
        let cell = cell?;
        if event > 0
            && matches!(self.reads, Reads::Sure)
            && machine.others_may_write(self.thread, cell)
        {
            return None;
        }
        for write in self.writes.iter().rev() {
            if let Some(write) = write {
                if write.cell == cell {
                    return write.value;
                }
            }
        }
        machine.found(self.thread, cell)
    }

    /// The value that a read takes where it finds this one.
    fn taken(&self, event: usize, found: Option<i32>) -> Option<i32> {
        match self.reads {
            Reads::Instead {
                event: other,
                value,
            } if other == event => Some(value),
            _ => found,
        }
    }

    /// The machine once the thread has come here, with all its stores in memory if `is_seen`.
    pub fn done_in<'a>(
        &self,
        machine: &Machine<'a>,
        is_seen: bool,
    ) -> Result<Machine<'a>, AllocError> {
        let mut after = machine.clone()?;
        after.move_ahead(self.thread, self.at);
        if is_seen {
            for store in machine.stores() {
                if store.is_of(self.thread) {
                    after.drain(store);
                }
            }
            self.write_to(&mut after);
        }
        Ok(after)
    }

    /// Does its writes of known values in a machine.
    fn write_to(&self, machine: &mut Machine) {
        for write in self.writes.iter() {
            if let Some(write) = write {
                if let Some(value) = write.value {
                    machine.write(write.cell, value);
                }
            }
        }
    }
}

/// Whether a thread leaves its path if it does its next event now, whatever the others do later.
pub(crate) fn leaves<M: MemoryModel>(
    machine: &Machine,
    values: &mut Values,
    thread: ThreadNumber,
) -> bool {
    let ahead = Ahead::run::<M>(machine, values, thread, Reads::Sure);
    ahead.left.is_some()
}

/// Whether a thread leaves its path later than a first one, or never.
pub(crate) fn is_later(left: Option<usize>, first: Option<usize>) -> bool {
    match (left, first) {
        (Some(left), Some(first)) => left > first,
        (left, _) => left.is_none(),
    }
}
