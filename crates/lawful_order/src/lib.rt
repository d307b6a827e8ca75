//! Lawful orders: the orders of the paths' events that runs can have under a memory model.
//! Definitions, independent of formulas, and the type of an item with its thread.
#![tactic(auto)]

mod placed;

pub use placed::Placed;
