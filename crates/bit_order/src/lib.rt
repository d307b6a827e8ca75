//! The order of events as clauses. Each event has a position of 8 bits, each load 32 bits of value,
//! and each choice of what ends a sleep a variable. A literal tells which of two events comes
//! first. A valuation is read as a world, and each world has such a valuation.
#![tactic(auto)]

mod choices;
mod clause;
pub mod laws;
mod layout;
mod pairs;
mod reading;
mod words;
mod writing;

pub use clause::{add_clause, clause_of};
pub use layout::Layout;
pub use pairs::complete;
