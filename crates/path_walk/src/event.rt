//! The events of a thread: what its path says that it asks of memory and of other threads.

/// What a step asks, without cells and values, which a path doesn't determine.
#[derive(Clone, Copy, Debug)]
pub enum EventKind {
    /// To read a cell.
    Load,
    /// To write a cell.
    Store,
    /// To read and write a cell at once: a `swap`, a `cas` or an `add`.
    Exchange,
    /// To acquire the mutex.
    Lock(u32),
    /// To release the mutex.
    Unlock(u32),
    /// To wait on the condition and release the mutex.
    Sleep { condition: u32, mutex: u32 },
    /// To be woken and acquire the mutex.
    Wake { condition: u32, mutex: u32 },
    /// To wake one thread that waits on the condition.
    Signal(u32),
    /// To wake all threads that wait on the condition.
    Broadcast(u32),
    /// To create the child with this number, from 1.
    Create(u32),
    /// To wait for the exit of the child with this number; 0 is no child.
    Join(u32),
    /// To wait until all stores of the thread have drained.
    Fence,
    /// To exit.
    Exit,
    /// To fail: the site is false, and the run ends.
    Fail,
}

/// A step that asks something of memory or of other threads, or that fails.
#[derive(Clone, Copy, Debug)]
pub struct Event {
    /// The number of the step in its thread, from 0.
    pub step: usize,
    /// The line of its instruction in the program's text, from 1.
    pub line: u32,
    /// What it asks.
    pub kind: EventKind,
    /// The number of `stbar` that the thread has done before it. So a bar is between two events of
    /// a thread if and only if their numbers differ.
    pub bars: usize,
}

/// The steps between which a thread holds a mutex.
#[derive(Clone, Copy, Debug)]
pub struct Region {
    /// The mutex.
    pub mutex: u32,
    /// The step that acquires it: a lock, or the second half of a wait.
    pub from: usize,
    /// The first later step that releases it: an unlock, or the first half of a wait. None if the
    /// region is open at the end of the path.
    pub to: Option<usize>,
}

/// A wait of a thread.
#[derive(Clone, Copy, Debug)]
pub struct Sleep {
    /// The step that begins it.
    pub step: usize,
    /// The condition on which it waits.
    pub condition: u32,
    /// The mutex that it releases and acquires again.
    pub mutex: u32,
    /// The step that ends it, if the path has it.
    pub wake: Option<usize>,
}

/// What blocks a thread in a deadlock: the call that doesn't return.
#[derive(Clone, Copy, Debug)]
pub enum Blocked {
    /// A lock, like `pthread_mutex_lock`: a thread holds the mutex, maybe this one.
    Lock {
        mutex: u32,
    },
    /// The second half of a wait, like `pthread_cond_wait`: nothing wakes the thread from the sleep
    /// that it began in that step, or a thread holds the mutex.
    Wake {
        condition: u32,
        mutex: u32,
        sleep: usize,
    },
    /// A join, like `pthread_join`: the child with this number, from 1, has not exited; 0 is no
    /// child.
    Join {
        child: u32,
    },
}

/// A step of a thread that creates or joins a child.
#[derive(Clone, Copy, Debug)]
pub struct Link {
    /// The step.
    pub step: usize,
    /// The number of the child, from 1. The child's name is the thread's name with this number
    /// appended.
    pub child: u32,
}
