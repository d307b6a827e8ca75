//! Requests of instructions.

use int_ops::Update;

/// What an instruction asks of the memory and of the other threads: at most one thing.
#[derive(Clone, Copy, Debug, PartialEq, Eq)]
pub enum Request {
    /// Nothing: the thread goes on by itself.
    Silent,
    /// Load a cell.
    Read(u32),
    /// Store a value to a cell.
    Write(u32, i32),
    /// Load a cell and store the updated value to it, in one step.
    Exchange(u32, Update<i32>),
    /// Make the thread's later stores reach memory after its earlier ones.
    Bar,
    /// Acquire a mutex.
    Acquire(u32),
    /// Release a mutex.
    Release(u32),
    /// Begin to wait on a condition, and release a mutex.
    BeginWait(u32, u32),
    /// End a wait on a condition, once woken, and acquire a mutex.
    EndWait(u32, u32),
    /// Wake one thread that waits on a condition, if there is one.
    WakeOne(u32),
    /// Wake all threads that wait on a condition.
    WakeAll(u32),
    /// Start a child that runs a function.
    Start(u32),
    /// Wait until the child of that number has exited.
    Await(u32),
    /// Wait until all stores of the thread are in memory.
    OrderStores,
    /// End the thread.
    Finish,
    /// End the run: the test of a site failed.
    Fail,
}
