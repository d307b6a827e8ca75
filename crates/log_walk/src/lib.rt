//! The logs that suffice to find every failure and every deadlock, one after another.
//!
//! A log is made thread by thread, in the order of their names. The path of a creator decides how a
//! child's path may end: a joined child exits, and if the create is the last step of its creator,
//! the child's last step is one that another thread may use. Only the paths are kept from one log
//! to the next: the next log has the next path of the last thread that has one, and the first path
//! of each thread after it. Logs are left out in which some path isn't needed: it has a pure turn, a
//! round of a loop that changes nothing, or goes against a value that it determines.
#![tactic(auto)]

mod bounds;
mod rest;
mod told;
mod walk;

pub use bounds::{Bounds, Kind, LeftOut};
pub use thread_paths::Program;
pub use walk::{Given, first_threads, next_threads};
