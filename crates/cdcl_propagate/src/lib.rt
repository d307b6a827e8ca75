//! Unit propagation with two watched literals for each clause.
#![tactic(auto)]

mod inspect;
mod units;

pub use units::propagate;
