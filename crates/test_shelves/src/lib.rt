//! Shelves and sinks in memory for tests, which fail as a test plans, or never.
#![tactic(auto)]

pub mod mem;
mod named;
mod plan;
mod reading;
