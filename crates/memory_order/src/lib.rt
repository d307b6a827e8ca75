//! The order of each thread's own events under a memory model, as conjuncts of a formula.
#![tactic(auto)]

mod kept;
pub mod laws;
mod own;

pub use own::order_constraints;
