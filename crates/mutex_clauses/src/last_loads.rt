//! The loads after all regions of a mutex take the last state of its cells: clauses that say so,
//! where all is in order in the regions.
mod loads;

pub use loads::{LastState, add_last_loads};
