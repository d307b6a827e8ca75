//! The rows of a schedule: the effect of each move.
#![tactic(auto)]

mod row;
mod slots;
mod telling;
mod thread;
mod told;

pub use row::Row;
pub use told::{End, Standing, Told, tell};
