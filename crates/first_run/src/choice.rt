//! The choice of what is done next.
ghost use Rattle.std.specs.Prelude.{◌≤◌};
ghost use Rattle.first_run.specs.declared.tuned.TheConstants.{EVENTS_AHEAD};

use crate::ahead::{Ahead, leaves};
use crate::block::{Fate, block_of};
use crate::run::Run;
use crate::stuck::count_stuck;
use crate::tuned::EVENTS_AHEAD;
use path_walk::EventKind;
use run_simulation::{Machine, Pending, Simulation, ThreadNumber, Values};
use std::alloc::AllocError;
use store_buffers::MemoryModel;

/// The priority of a choice.
#[derive(Clone, Copy, PartialEq, Eq, PartialOrd, Ord)]
pub(crate) enum Rank {
    /// Other threads don't see it.
    Read,
    /// Other threads see it.
    Write,
    /// It drains a store that nobody waits for.
    Spare,
}

/// Something that can be done next: a thread's next event, or the drain of a pending store.
#[derive(Clone, Copy)]
pub(crate) struct Choice {
    pub rank: Rank,
    /// The number of threads that are stuck afterwards.
    stuck: usize,
    /// The share of its path that its thread has done.
    share: usize,
    pub thread: ThreadNumber,
    pub store: Option<Pending>,
}

impl Choice {
    /// Whether it comes before another choice. Spare drains come last; then fewer stuck threads
    /// come first; then what other threads don't see; then the thread with the least share done.
    fn is_before(&self, other: &Choice) -> bool {
        self.key() < other.key()
    }

    fn key(&self) -> (bool, usize, Rank, usize) {
        (self.rank == Rank::Spare, self.stuck, self.rank, self.share)
    }
}

/// The choice that comes first, of the best so far and another.
fn first(found: Option<Choice>, other: Option<Choice>) -> Option<Choice> {
    let (Some(choice), Some(another)) = (found, other) else {
        return found.or(other);
    };
    Some(if another.is_before(&choice) {
        another
    } else {
        choice
    })
}

/// The greatest length of a block that begins with an event of this kind. Only a load or a mutex
/// taken begins a longer one.
fn block_length(kind: EventKind) -> usize
    ensures { result ≤ EVENTS_AHEAD }
{
    match kind {
        EventKind::Load | EventKind::Lock(_) | EventKind::Wake { .. } => EVENTS_AHEAD,
        _ => 1,
    }
}

/// The priority of an event, by how its block ends. A mutex isn't taken if its block can't end.
fn rank_of(kind: EventKind, fate: Fate, is_eager: bool) -> Option<Rank> {
    match (kind, fate) {
        (EventKind::Lock(_) | EventKind::Wake { .. }, Fate::Stops) => None,
        (EventKind::Load, Fate::Stops) | (_, Fate::Reads) => Some(Rank::Read),
        (EventKind::Load, _) if is_eager => Some(Rank::Read),
        _ => Some(Rank::Write),
    }
}

impl Run<'_> {
    /// The next choice, if some thread can do something without leaving its path.
    pub fn choice<M: MemoryModel>(&mut self) -> Result<Option<Choice>, AllocError> {
        let mut found = None;
        for thread in ThreadNumber::all() {
            found = first(found, self.event_choice::<M>(thread)?);
            found = first(found, self.stores_choice::<M>(thread)?);
        }
        Ok(found)
    }

    /// Whether a thread can do its next event now and stay on its path.
    pub fn can_go<M: MemoryModel>(&mut self, thread: ThreadNumber) -> bool {
        let Simulation {
            machine,
            values,
            ..
        } = &mut self.simulation;
        !machine.drains_first(thread)
            && machine.lets(thread)
            && !leaves::<M>(machine, values, thread)
    }

    /// The choice of a thread's next event, if that can be done now.
    fn event_choice<M: MemoryModel>(
        &mut self,
        thread: ThreadNumber,
    ) -> Result<Option<Choice>, AllocError> {
        if !self.can_go::<M>(thread) {
            return Ok(None);
        }
        let Simulation {
            machine,
            values,
            ..
        } = &mut self.simulation;
        let Some((rank, block)) = next_block::<M>(machine, values, thread, self.is_eager) else {
            return Ok(None);
        };
        let after = block.done_in(machine, rank == Rank::Write)?;
        Ok(Some(self.weighed::<M>(rank, thread, None, &after)))
    }

    /// The best drain of a thread's pending stores; of equal ones the newest.
    fn stores_choice<M: MemoryModel>(
        &mut self,
        thread: ThreadNumber,
    ) -> Result<Option<Choice>, AllocError> {
        let mut found = None;
        for number in (0..self.simulation.machine.stores().len()).rev() {
            if let Some(store) = self.simulation.machine.drainable::<M>(thread, number) {
                found = first(found, Some(self.store_choice::<M>(thread, store)?));
            }
        }
        Ok(found)
    }

    /// The choice to drain a pending store of a thread.
    fn store_choice<M: MemoryModel>(
        &mut self,
        thread: ThreadNumber,
        store: Pending,
    ) -> Result<Choice, AllocError> {
        let machine = &self.simulation.machine;
        let rank = if machine.drains_first(thread) {
            Rank::Write
        } else {
            Rank::Spare
        };
        let mut after = machine.clone()?;
        after.drain(&store);
        Ok(self.weighed::<M>(rank, thread, Some(store), &after))
    }

    /// A choice, after which the machine is this one.
    fn weighed<M: MemoryModel>(
        &mut self,
        rank: Rank,
        thread: ThreadNumber,
        store: Option<Pending>,
        after: &Machine,
    ) -> Choice {
        let near = self.near();
        Choice {
            rank,
            stuck: count_stuck::<M>(after, &mut self.simulation.values, near),
            share: self.simulation.machine.share(thread),
            thread,
            store,
        }
    }
}

/// What a thread does next, with its priority, if it does anything: its block, or the first event
/// of that if it only reads.
fn next_block<M: MemoryModel>(
    machine: &Machine,
    values: &mut Values,
    thread: ThreadNumber,
    is_eager: bool,
) -> Option<(Rank, Ahead)> {
    let kind = machine.next(thread)?.kind;
    let (fate, block) = block_of::<M>(machine, values, thread, block_length(kind));
    match rank_of(kind, fate, is_eager)? {
        Rank::Read => Some((Rank::Read, block_of::<M>(machine, values, thread, 1).1)),
        rank => Some((rank, block)),
    }
}
