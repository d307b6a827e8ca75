//! The run.

use crate::ahead::is_later;
use crate::choice::{Choice, Rank};
use crate::tuned::{NEAR, NEAR_IF_EAGER};
use path_execution::Execution;
use path_walk::EventKind;
use run_simulation::{Simulation, ThreadNumber};
use std::alloc::{AllocError, Global};
use store_buffers::MemoryModel;
use tc_code::Code;
use tc_limits::limits::EVENTS;

/// The run so far.
#[derive(Drop)]
pub(crate) struct Run<'a> {
    pub simulation: Simulation<'a>,
    /// Whether loads never begin a block, so that reads come before writes wherever they can.
    pub is_eager: bool,
    /// The thread in the middle of a block.
    block: Option<ThreadNumber>,
}

impl<'a> Run<'a> {
    /// A run from the beginning to the end.
    pub fn new<M: MemoryModel>(
        alloc: Global,
        code: &Code,
        execution: &'a Execution,
        is_eager: bool,
    ) -> Result<Run<'a>, AllocError> {
        let mut run = Run {
            simulation: Simulation::new(alloc, code, execution)?,
            is_eager,
            block: None,
        };
        // Each step does one of at most `EVENTS` events, or a store that was issued before reaches
        // memory.
        for _ in 0..2 * EVENTS {
            if !run.step::<M>()? {
                break;
            }
        }
        Ok(run)
    }

    /// The number of events within which a stuck thread leaves its path.
    pub fn near(&self) -> usize {
        if self.is_eager { NEAR_IF_EAGER } else { NEAR }
    }

    /// Whether no thread has left its path.
    pub fn is_whole(&self) -> bool {
        self.simulation.left.is_none()
    }

    /// Whether all threads stayed on their paths, or stayed longer than in another run.
    pub fn is_further(&self, other: &Run) -> bool {
        is_later(self.simulation.left, other.simulation.left)
    }

    /// Does one more thing, if anything is left to do.
    fn step<M: MemoryModel>(&mut self) -> Result<bool, AllocError> {
        if let Some(thread) = self.next_thread::<M>() {
            self.go::<M>(thread)?;
            return Ok(true);
        }
        match self.choice::<M>()? {
            Some(choice) => self.take::<M>(&choice)?,
            None => match self.last_thread() {
                Some(thread) => self.go::<M>(thread)?,
                None => return Ok(false),
            },
        }
        Ok(true)
    }

    /// The thread that does its next event without a choice: a free one, or the one in the middle
    /// of a block. A block ends where its thread can't go on.
    fn next_thread<M: MemoryModel>(&mut self) -> Option<ThreadNumber> {
        if let Some(thread) = self.free_thread::<M>() {
            return Some(thread);
        }
        let thread = self.block?;
        if !self.can_go::<M>(thread) {
            self.block = None;
        }
        self.block
    }

    /// A thread that can do its next event at once: no choice still open depends on when it is
    /// done.
    fn free_thread<M: MemoryModel>(&self) -> Option<ThreadNumber> {
        for thread in ThreadNumber::all() {
            if self.is_free_to_go::<M>(thread) {
                return Some(thread);
            }
        }
        None
    }

    fn is_free_to_go<M: MemoryModel>(&self, thread: ThreadNumber) -> bool {
        let machine = &self.simulation.machine;
        match machine.next(thread) {
            Some(event) => is_silent::<M>(event.kind) && machine.lets(thread),
            None => false,
        }
    }

    /// Does what was chosen.
    fn take<M: MemoryModel>(&mut self, choice: &Choice) -> Result<(), AllocError> {
        if let Some(store) = &choice.store {
            return self.simulation.drain(store);
        }
        if self.begins_block(choice) {
            self.block = Some(choice.thread);
        }
        self.go::<M>(choice.thread)
    }

    /// Whether what was chosen begins a block.
    fn begins_block(&self, choice: &Choice) -> bool {
        match self.simulation.machine.next(choice.thread) {
            Some(event) => match event.kind {
                EventKind::Lock(_) | EventKind::Wake { .. } => true,
                EventKind::Load => choice.rank == Rank::Write,
                _ => false,
            },
            None => false,
        }
    }

    /// Does a thread's next event. A block ends with the first event that others can see, or where
    /// its thread releases its mutex.
    fn go<M: MemoryModel>(&mut self, thread: ThreadNumber) -> Result<(), AllocError> {
        let is_seen = self.simulation.go::<M>(thread)?;
        if is_seen && self.block == Some(thread) && !self.simulation.machine.has_mutex(thread) {
            self.block = None;
        }
        Ok(())
    }

    /// The thread that leaves its path if none can go on along it: the one with the least share
    /// done among the enabled ones, or else among all that aren't done.
    fn last_thread(&self) -> Option<ThreadNumber> {
        let machine = &self.simulation.machine;
        machine.least(true).or(machine.least(false))
    }
}

/// Whether only threads that wait for an event of this kind see it.
fn is_silent<M: MemoryModel>(kind: EventKind) -> bool {
    match kind {
        EventKind::Store => M::BUFFERED,
        EventKind::Fence
        | EventKind::Exit
        | EventKind::Create(_)
        | EventKind::Join(_)
        | EventKind::Unlock(_) => true,
        _ => false,
    }
}
