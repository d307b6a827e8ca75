//! A refutation that is read in pieces, with each of its lines checked over the clauses of a log as
//! soon as it is read.
#![tactic(auto)]

mod incoming;
mod start;

pub use incoming::Incoming;
