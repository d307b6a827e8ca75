//! Schedules and logs as pages for a browser, each in one file that needs no other.
//!
//! What is shown is a list in the page, and the page's script makes the rest from it.
#![tactic(auto)]

mod fixed;
mod list;
mod log;
mod schedule;
mod script;
mod style;

pub use log::log_page;
pub use schedule::schedule_page;
