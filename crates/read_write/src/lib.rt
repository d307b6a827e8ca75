//! Which write a load takes its value from.
#![tactic(auto)]

mod accesses;
pub mod laws;
mod reads;

pub use accesses::all_accesses;
pub use reads::{read_constraints, value_at_start};
