//! The system of a log: its paths, their execution, and a formula that is true exactly in the
//! worlds of runs along these paths.
#![tactic(auto)]

mod building;
mod conjuncts;
mod fault;
pub mod laws;
mod system;

pub use building::build;
pub use fault::{BuildFault, Which};
pub use system::System;
