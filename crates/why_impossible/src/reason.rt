//! Reasons.

use std::fmt;
use tc_base::ThreadName;

/// A reason why no run reproduces a log: the rules that all its runs meet of one kind and one thread, mutex, condition or line.
#[derive(Debug, Drop)]
pub enum Reason {
    /// The order of a thread's own events, and their place relative to the failing one.
    Own(ThreadName),
    /// A thread's events come after its creation, and its exit comes before the join.
    Child(ThreadName),
    /// The values that a thread's loads at a line take.
    Read(ThreadName, u32),
    /// No two threads hold the mutex at once.
    Mutex(u32),
    /// The sleeps on the condition, and what ends them.
    Condition(u32),
    /// The outcomes of branches, and the sites passed and failed, of a thread at a line.
    Test(ThreadName, u32),
    /// A thread can't go on at the end of a deadlock.
    Stuck(ThreadName),
    /// The paths alone are contradictory: by its own steps a thread can't do what is at this line.
    Dead(ThreadName, u32),
}

impl fmt::Display for Reason {
    ghost use Rattle.std.specs.Prelude.{Some};
    ghost use Rattle.why_impossible.specs.Reasons.{reason_text};

    ghost output = { λ r. Some (reason_text r) };

    fn fmt<W: fmt::Write>(&self, f: &mut fmt::Formatter<W>) -> fmt::Result {
        match self {
            Reason::Own(name) => write!(f, "own {name}"),
            Reason::Child(name) => write!(f, "child {name}"),
            Reason::Read(name, line) => write!(f, "read {name} line {line}"),
            Reason::Mutex(mutex) => write!(f, "mutex {mutex}"),
            Reason::Condition(condition) => write!(f, "cond {condition}"),
            Reason::Test(name, line) => write!(f, "test {name} line {line}"),
            Reason::Stuck(name) => write!(f, "stuck {name}"),
            Reason::Dead(name, line) => write!(f, "dead {name} line {line}"),
        }
    }
}
