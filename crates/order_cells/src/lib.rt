//! Whether two accesses are to the same cell.
#![tactic(auto)]

mod cells;
pub mod laws;

pub use cells::{constant_of, known_same, same_test};
