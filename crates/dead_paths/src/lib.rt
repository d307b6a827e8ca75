//! Why the paths of a log alone rule out every run.
#![tactic(auto)]

mod cause;
mod own;

pub use cause::{Cause, cause_of};
