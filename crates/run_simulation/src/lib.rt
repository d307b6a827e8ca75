//! A machine that goes along the paths of a log.
//!
//! It does a thread's next event whenever it is asked to, and loads take the values that they find.
//! A thread whose tests then have other outcomes than the logged ones has left its path; it goes on
//! as logged.
//!
//! There are always `THREADS` threads, so a thread's number is always in range. Those past the
//! threads of a log have empty paths and never begin.
#![tactic(auto)]

mod machine;
mod number;
mod path;
mod simulation;
mod store;
mod values;

pub use machine::{Machine, Thread};
pub use number::ThreadNumber;
pub use path::{Arrival, Path, Place};
pub use simulation::Simulation;
pub use store::{Deed, Pending};
pub use values::Values;
