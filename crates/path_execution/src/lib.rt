//! The symbolic execution of a log's paths.
#![tactic(auto)]

mod execution;

pub use execution::Execution;
