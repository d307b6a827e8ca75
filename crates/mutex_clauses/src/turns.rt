//! The states of a mutex's cells from rank to rank of its regions, as clauses.
mod terms;
mod turn;
mod turns;
mod variables;

pub use turns::{Turns, add_turns};
