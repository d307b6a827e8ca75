//! Threads: their names, paths and states, the moves of a run, and the requests of instructions.
#![tactic(auto)]

mod failing;
mod handle;
mod moves;
mod name;
mod request;

pub use failing::Failing;
pub use handle::Handle;
pub use moves::Move;
pub use name::ThreadName;
pub use request::Request;
