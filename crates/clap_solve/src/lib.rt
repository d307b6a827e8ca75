//! From a program and a log to a schedule that reproduces the log, or to a proof that none does.
#![tactic(auto)]

mod checking;
mod fault;
pub mod formula_sizes;
mod imported;
mod importing;
pub mod laws;
pub mod mutex_rules;
mod posed;
mod solving;

pub use cdcl_core::Answer;
pub use checking::check_start;
pub use fault::CheckImpossibleFault;
pub use imported::Imported;
pub use importing::take_answer;
pub use posed::{Posed, clauses, pose};
pub use solving::{search, solve};
