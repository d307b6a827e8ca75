//! The reasons of an impossibility: the rules, with threads by name, that no run meets together.
#![tactic(auto)]

mod explained;
mod naming;
pub mod reached_groups;
mod reason;
mod reasons;
pub mod refute_core;

pub use explained::{Explained, why};
pub use reason::Reason;
pub use reasons::Reasons;
