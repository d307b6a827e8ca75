//! The machine over every memory model: its states, its steps, and why a move isn't enabled.
#![tactic(auto)]

mod choice;
mod fault;
pub mod laws;
mod listed;
mod machine;
mod state;
mod why;

pub use choice::Choice;
pub use fault::StepFault;
pub use listed::{choices, moves};
pub use machine::{enabled, step, try_step};
pub use state::{State, start};
pub use tc_threads::{Outcomes, ThreadNames};
pub use why::Why;
