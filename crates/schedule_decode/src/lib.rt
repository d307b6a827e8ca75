//! Schedules of lawful worlds.
#![tactic(auto)]

mod schedule;

pub use schedule::decode;
