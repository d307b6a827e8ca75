//! Which threads are stuck.

use crate::ahead::{Ahead, Reads, is_later};
use run_simulation::{Machine, ThreadNumber, Values};
use store_buffers::MemoryModel;
use tc_limits::limits::THREADS;

/// How many threads are stuck. A thread is stuck under three conditions: the machine lets it go on;
/// it leaves its path within `near` events if it goes on alone; and no value that another thread is
/// about to write to the cell that it read last keeps it on its path there.
pub(crate) fn count_stuck<M: MemoryModel>(
    machine: &Machine,
    values: &mut Values,
    near: usize,
) -> usize {
    let all = all_ahead::<M>(machine, values);
    let mut stuck = [false; THREADS];
    for thread in ThreadNumber::all() {
        let own = &all[thread.index()];
        stuck[thread.index()] = leaves_soon(machine, own, near)
            && !is_kept::<M>(machine, values, &all, own);
    }
    stuck.iter().filter(|found| **found).count()
}

/// Runs ahead with each thread.
fn all_ahead<M: MemoryModel>(machine: &Machine, values: &mut Values) -> [Ahead; THREADS] {
    let mut all = [Ahead::new(machine, ThreadNumber::new(0), Reads::Now); THREADS];
    for thread in ThreadNumber::all() {
        all[thread.index()] = Ahead::run::<M>(machine, values, thread, Reads::Now);
    }
    all
}

/// Whether a thread can go on and leaves its path within `near` events, one of which reads.
fn leaves_soon(machine: &Machine, own: &Ahead, near: usize) -> bool {
    match own.left {
        Some(event) => event < near && own.last.is_some() && machine.lets(own.thread),
        None => false,
    }
}

/// Whether a pending store of another thread, or a write ahead of it, keeps a thread on its path
/// for longer.
fn is_kept<M: MemoryModel>(
    machine: &Machine,
    values: &mut Values,
    all: &[Ahead],
    own: &Ahead,
) -> bool {
    for store in machine.stores() {
        if !store.is_of(own.thread)
            && stays_with::<M>(machine, values, own, store.cell, Some(store.value))
        {
            return true;
        }
    }
    for other in all {
        if other.thread != own.thread && is_kept_by::<M>(machine, values, other, own) {
            return true;
        }
    }
    false
}

/// Whether a write ahead of another thread keeps a thread on its path for longer.
fn is_kept_by<M: MemoryModel>(
    machine: &Machine,
    values: &mut Values,
    other: &Ahead,
    own: &Ahead,
) -> bool {
    for write in other.writes.iter() {
        if let Some(write) = write {
            if stays_with::<M>(machine, values, own, write.cell, write.value) {
                return true;
            }
        }
    }
    false
}

/// Whether a thread stays on its path for longer if its last read finds this value in this cell.
fn stays_with<M: MemoryModel>(
    machine: &Machine,
    values: &mut Values,
    own: &Ahead,
    cell: u32,
    value: Option<i32>,
) -> bool {
    let (Some(last), Some(value)) = (own.last, value) else {
        return false;
    };
    if cell != last.cell {
        return false;
    }
    let event = last.event;
    let reads = Reads::Instead { event, value };
    let ahead = Ahead::run::<M>(machine, values, own.thread, reads);
    is_later(ahead.left, own.left)
}
