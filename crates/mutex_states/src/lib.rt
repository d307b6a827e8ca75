//! The states of a mutex's cells at each rank of its regions, as clauses that are added to those of
//! a log. They rest on no rule: in every world they hold for some values of their new variables.
#![tactic(auto)]

pub mod laws;
mod ranks;

pub use ranks::{Begins, Ranks, add_ranks};
