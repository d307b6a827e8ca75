//! The state of a machine, and what it enables.

use crate::{Deed, Path, Pending, Place, ThreadNumber};
use path_execution::Execution;
use path_walk::{Event, EventKind};
use std::alloc::{AllocError, Global};
use store_buffers::MemoryModel;
use tc_code::Code;
use tc_limits::limits::THREADS;

/// What a thread has done, and whether it waits.
#[derive(Clone, Copy, Default)]
pub struct Thread {
    pub at: Place,
    pub has_begun: bool,
    /// The condition on which it waits, if it does.
    pub waits_on: Option<u32>,
    /// The step that began its last sleep; 0 before the first.
    slept: usize,
}

/// The threads, in the order of their names, the pending stores, oldest first, the values in memory,
/// and the owner of each mutex.
#[derive(Clone, Drop)]
pub struct Machine<'a> {
    execution: &'a Execution,
    threads: [Thread; THREADS],
    pub(crate) stores: Vec<Pending>,
    memory: Vec<i32>,
    owners: Vec<Option<usize>>,
}

impl<'a> Machine<'a> {
    /// The machine before any thread has begun.
    pub(crate) fn new(
        alloc: Global,
        code: &Code,
        execution: &'a Execution,
    ) -> Result<Machine<'a>, AllocError> {
        Ok(Machine {
            execution,
            threads: [Thread::default(); THREADS],
            stores: Vec::new(alloc),
            memory: code.memory().to_vec(alloc)?,
            owners: vec![in alloc; None; code.mutexes() as usize]?,
        })
    }

    /// A thread.
    pub fn thread(&self, thread: ThreadNumber) -> Thread {
        self.threads[thread.index()]
    }

    /// The path of a thread; an empty one past the threads of the log.
    pub fn path(&self, thread: ThreadNumber) -> Path<'a> {
        let walk = self.execution.paths.threads().get(thread.index());
        let course = self.execution.symbolic.threads().get(thread.index());
        match (walk, course) {
            (Some(walk), Some(course)) => Path {
                events: walk.events(),
                accesses: course.accesses(),
                tests: course.tests(),
            },
            _ => Path {
                events: &[],
                accesses: &[],
                tests: &[],
            },
        }
    }

    /// The next event of a thread, if it isn't at its end.
    pub fn next(&self, thread: ThreadNumber) -> Option<Event> {
        self.path(thread).event(self.thread(thread).at)
    }

    /// The share of its path that a thread has done.
    pub fn share(&self, thread: ThreadNumber) -> usize {
        self.path(thread).share(self.thread(thread).at)
    }

    /// The child of a thread with this number.
    pub(crate) fn child(&self, parent: ThreadNumber, number: u32) -> Option<ThreadNumber> {
        let walks = self.execution.paths.threads();
        let parent = walks.get(parent.index())?;
        for child in ThreadNumber::all() {
            if walks.get(child.index())?.is_child_of(parent, number) {
                return Some(child);
            }
        }
        None
    }

    /// The pending stores of all threads, oldest first.
    pub fn stores(&self) -> &[Pending] {
        &self.stores
    }

    /// Whether stores of a thread are pending.
    pub fn has_pending(&self, thread: ThreadNumber) -> bool {
        self.stores.iter().any(|store| store.is_of(thread))
    }

    /// The pending store with this number, if it is one of this thread and may drain before the
    /// thread's older ones.
    pub fn drainable<M: MemoryModel>(
        &self,
        thread: ThreadNumber,
        number: usize,
    ) -> Option<Pending> {
        let store = *self.stores.get(number)?;
        for older in self.stores.iter().take(number) {
            if older.is_of(thread) && M::bound(older.cell == store.cell, older.bars != store.bars) {
                return None;
            }
        }
        if store.is_of(thread) {
            Some(store)
        } else {
            None
        }
    }

    /// Whether a thread's pending stores have to drain before it goes on.
    pub fn drains_first(&self, thread: ThreadNumber) -> bool {
        self.has_pending(thread) && self.path(thread).drains_first(self.thread(thread).at)
    }

    /// The value that a load of a thread finds in a cell, if there is such a cell.
    pub fn found(&self, thread: ThreadNumber, cell: u32) -> Option<i32> {
        for store in self.stores.iter().rev() {
            if store.is_of(thread) && store.cell == cell {
                return Some(store.value);
            }
        }
        self.memory.get(cell as usize).copied()
    }

    /// Whether a thread other than this one may still write to a cell.
    pub fn others_may_write(&self, thread: ThreadNumber, cell: u32) -> bool {
        for other in ThreadNumber::all() {
            if other != thread && self.path(other).may_write(self.thread(other).at, cell) {
                return true;
            }
        }
        self.stores
            .iter()
            .any(|store| store.cell == cell && !store.is_of(thread))
    }

    /// Whether a thread holds some mutex.
    pub fn has_mutex(&self, thread: ThreadNumber) -> bool {
        self.owners
            .iter()
            .any(|owner| *owner == Some(thread.index()))
    }

    /// Whether no thread holds a mutex.
    fn is_free(&self, mutex: u32) -> bool {
        !matches!(self.owners.get(mutex as usize), Some(Some(_)))
    }

    /// Whether a thread's child with this number has done its whole path.
    fn is_child_done(&self, parent: ThreadNumber, number: u32) -> bool {
        match self.child(parent, number) {
            Some(child) => self.next(child).is_none(),
            None => false,
        }
    }

    /// Whether all threads except this one have done their paths.
    fn others_are_done(&self, thread: ThreadNumber) -> bool {
        for other in ThreadNumber::all() {
            if other != thread && self.next(other).is_some() {
                return false;
            }
        }
        true
    }

    /// Whether the machine enables a thread's next event.
    pub fn lets(&self, thread: ThreadNumber) -> bool {
        let path = self.path(thread);
        let at = self.thread(thread).at;
        match path.event(at) {
            Some(event) => {
                self.allows(thread, event.kind)
                    && !(path.needs_empty_buffer(at) && self.has_pending(thread))
            }
            None => false,
        }
    }

    /// Whether a thread has begun and the others allow its event. A failure has to come last.
    pub fn allows(&self, thread: ThreadNumber, kind: EventKind) -> bool {
        let Thread {
            has_begun,
            waits_on,
            ..
        } = self.thread(thread);
        has_begun
            && match kind {
                EventKind::Lock(mutex) => self.is_free(mutex),
                EventKind::Wake { mutex, .. } => waits_on.is_none() && self.is_free(mutex),
                EventKind::Join(child) => self.is_child_done(thread, child),
                EventKind::Fail => self.others_are_done(thread),
                _ => true,
            }
    }

    /// Moves a thread to a place.
    pub(crate) fn move_to(&mut self, thread: ThreadNumber, at: Place) {
        self.threads[thread.index()].at = at;
    }

    /// Moves a thread to a place ahead. It waits there if it is before the end of a wait.
    pub fn move_ahead(&mut self, thread: ThreadNumber, at: Place) {
        self.move_to(thread, at);
        self.threads[thread.index()].waits_on = self.path(thread).awaited(at);
    }

    /// Begins a thread.
    pub(crate) fn begin(&mut self, thread: ThreadNumber) {
        self.threads[thread.index()].has_begun = true;
    }

    /// Drains a pending store.
    pub fn drain(&mut self, store: &Pending) {
        self.write(store.cell, store.value);
        self.stores.retain(|other| other.deed != store.deed);
    }

    /// Writes to a cell. Returns whether that changes its value.
    pub fn write(&mut self, cell: u32, value: i32) -> bool {
        match self.memory.get_mut(cell as usize) {
            Some(place) => {
                let changes = *place != value;
                *place = value;
                changes
            }
            None => false,
        }
    }

    /// Sets or clears the owner of a mutex.
    pub(crate) fn set_owner(&mut self, mutex: u32, owner: Option<ThreadNumber>) {
        if let Some(place) = self.owners.get_mut(mutex as usize) {
            *place = owner.map(|thread| thread.index());
        }
    }

    /// Makes a thread wait on a condition, from a step on.
    pub(crate) fn sleep(&mut self, thread: ThreadNumber, condition: u32, step: usize) {
        let thread = thread.index();
        self.threads[thread].waits_on = Some(condition);
        self.threads[thread].slept = step;
    }

    /// Wakes a thread up. Returns the sleep that it was in.
    pub(crate) fn wake(&mut self, thread: ThreadNumber) -> Deed {
        let thread = thread.index();
        self.threads[thread].waits_on = None;
        Deed {
            thread,
            step: self.threads[thread].slept,
        }
    }

    /// The thread that a signal on a condition wakes, if one waits: the one that has done the least
    /// share of its path. One that doesn't wake up on its path is at its end, so it comes last.
    pub(crate) fn signalled(&self, condition: u32) -> Option<ThreadNumber> {
        let mut found = None;
        for thread in ThreadNumber::all() {
            if self.thread(thread).waits_on == Some(condition) {
                found = self.lesser(found, thread);
            }
        }
        found
    }

    /// The thread that has done the least share of its path, of those that aren't at its end; only
    /// of the enabled ones if `only_let`.
    pub fn least(&self, only_let: bool) -> Option<ThreadNumber> {
        let mut found = None;
        for thread in ThreadNumber::all() {
            if self.next(thread).is_some() && (!only_let || self.lets(thread)) {
                found = self.lesser(found, thread);
            }
        }
        found
    }

    /// The thread that has done the lesser share of its path; the first of equal ones.
    fn lesser(&self, first: Option<ThreadNumber>, second: ThreadNumber) -> Option<ThreadNumber> {
        match first {
            Some(first) if self.share(first) <= self.share(second) => Some(first),
            _ => Some(second),
        }
    }
}
