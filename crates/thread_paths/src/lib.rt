//! The paths that a thread may take, one after another: they fit its function, don't alone rule out
//! every run, and end as the log of a failure or a deadlock needs it. Paths with a pure turn are left
//! out: rounds of a loop that change nothing. So are paths on which a branch goes against a value that
//! the path determines.
//!
//! A path is determined by its outcomes and its number of steps, so only these are kept between two
//! paths. The search for the next path follows the outcomes of the one before it, and then turns
//! the last false into a true.
#![tactic(auto)]

mod aim;
mod descent;
mod failed;
mod found;
mod known;
mod leads;
mod past;
mod program;
mod rounds;
mod search;
mod turn;

pub use aim::{Aim, End, Scope};
pub use found::{Cut, Found, Path};
pub use program::Program;
pub use search::{first_path, next_path};
