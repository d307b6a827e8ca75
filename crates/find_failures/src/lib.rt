//! The search for a failure or a deadlock without a run: goes through the logs that suffice to find
//! each one, and solves them one after another.
//!
//! Logs with few outcomes come first. If no log is possible, and none was left out, no run of the
//! program fails, or comes to a deadlock.
#![tactic(auto)]

mod asked;
mod copies;
mod found;
mod gone;
mod levels;
mod round;
mod verdict;

pub use asked::Asked;
pub use copies::log_of;
pub use found::{Found, Reach, Reason, Refuted, Searched, Unknown};
pub use levels::find;
pub use round::{both, following, is_new};
