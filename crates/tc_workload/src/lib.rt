//! Programs generated from words, each with a log: workers write their own cells and read each
//! other's.
#![tactic(auto)]

mod log;
mod program;

pub use log::workload_log;
pub use program::{WORKERS, workload_text};
