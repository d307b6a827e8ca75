//! Events that were done, and stores that haven't reached memory.
ghost use Rattle.std.specs.Prelude.{◌≡◌, ◌==◌};

use crate::ThreadNumber;

/// An event that was done: a step of the thread with this index.
#[derive(Clone, Copy, PartialEq, Eq)]
pub struct Deed {
    pub thread: usize,
    pub step: usize,
}

/// A store that hasn't reached memory.
#[derive(Clone, Copy)]
pub struct Pending {
    pub deed: Deed,
    pub cell: u32,
    pub value: i32,
    /// The number of bars that its thread had done before it.
    pub bars: usize,
}

impl Pending {
    /// Whether it is a store of this thread.
    pub fn is_of(&self, thread: ThreadNumber) -> bool
        ensures { result ≡ (self.now.deed.thread == thread) }
    {
        self.deed.thread == thread.index()
    }
}
