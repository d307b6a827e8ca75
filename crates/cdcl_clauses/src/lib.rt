//! The clauses of a search, the two literals that each watches, and the invariants of propagation.
#![tactic(auto)]

mod clauses;
mod watches;

pub use clauses::Clauses;
pub use watches::{Watch, Watches};
