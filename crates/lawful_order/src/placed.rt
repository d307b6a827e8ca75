//! Items with their threads.

/// An item of a thread, with the thread's index in the paths.
#[derive(Clone, Copy, Debug)]
pub struct Placed<T> {
    /// The thread.
    pub thread: usize,
    /// The item.
    pub it: T,
}
