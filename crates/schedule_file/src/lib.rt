//! Schedules: the moves of a run as lines of text.
#![tactic(auto)]

mod fault;
mod front;
mod laws;
mod moves;
mod reading;
mod schedule;
mod writing;

pub use fault::ScheduleFault;
pub use laws::{faults_are_one, schedules_are_one};
pub use reading::read_schedule;
pub use schedule::Schedule;
pub use writing::write_schedule;
