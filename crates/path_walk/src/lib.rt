//! What each thread of a log does, from the code and the log alone.
#![tactic(auto)]

mod account;
mod draft;
mod ending;
mod event;
mod fault;
mod follow;
mod marks;
mod operators;
mod parts;
mod paths;
mod tell;
mod whole;

pub use event::{Blocked, Event, EventKind, Link, Region, Sleep};
pub use fault::{Misfit, WalkFault};
pub use paths::{Paths, Walk};
pub use whole::walk;
