//! What a conjunct is about.

/// The rules to which a conjunct belongs. `thread` is a thread's index in the paths.
#[derive(Clone, Copy, Debug, PartialEq, Eq)]
pub enum Group {
    /// The order of a thread's own events, and their order to the failing event.
    Own { thread: usize },
    /// A thread's events come after its create, and its exit before the join.
    Child { thread: usize },
    /// The values that a thread's loads of a line take.
    Read { thread: usize, line: u32 },
    /// At most one thread holds the mutex at a time.
    Mutex(u32),
    /// The sleeps on the condition, and the events that end them.
    Condition(u32),
    /// The outcomes and sites of a thread at a line.
    Test { thread: usize, line: u32 },
    /// A thread can't go on at the end of a deadlock.
    Stuck { thread: usize },
}
