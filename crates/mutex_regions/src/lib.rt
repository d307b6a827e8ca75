//! What a region of a mutex does, as a function of the state of the mutex's cells. A critical
//! section is one step: while regions don't overlap, what it finds is what the region before it
//! left.
#![tactic(auto)]

mod exprs;
mod functions;
pub mod laws;
mod regions;
mod variables;

pub use exprs::term_over;
pub use functions::{Doing, Holding, Loaded, function_of, is_used};
pub use regions::{lies_in, regions_of};
pub use variables::{Spot, Variable, is_inside, spots_of, variables_of};
