//! Which variable a search decides (the most active, with its last value), and when it restarts.
#![tactic(auto)]

mod activity;
mod luby;

pub use activity::Activity;
pub use luby::Luby;
