//! The limits of a debugging session.
#![tactic(auto)]

pub mod limits;
