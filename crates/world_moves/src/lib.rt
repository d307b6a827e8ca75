//! The moves of lawful worlds: turns an order of all events into the moves of a run.
#![tactic(auto)]

mod events;
mod made;
mod moves;

pub use moves::moves_of;
