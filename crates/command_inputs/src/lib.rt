//! The inputs that commands share: programs, logs and schedules, their limits, and why they are
//! refused.
#![tactic(auto)]

pub mod command_ends;
mod file;
mod limits;
mod reading;
mod refusal;

pub use file::{LogFile, ProgramFile, ScheduleFile};
pub use limits::{LogPart, log_limit, program_limit, schedule_limit};
pub use reading::{read_both, refuse_other};
pub use refusal::{Fault, LogRefusal, Refusal};
