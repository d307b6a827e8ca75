//! The log of a run that failed or deadlocked: the path of each thread, and how the run ended.
#![tactic(auto)]

mod log;

pub use log::{Log, ThreadPath};
