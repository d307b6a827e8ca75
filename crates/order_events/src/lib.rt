//! The events and sleeps of paths, each with its number.
#![tactic(auto)]

mod events;
mod formula;
mod items;
mod laws;
mod sleeps;

pub use events::Events;
pub use formula::{formula_of, one_of, single};
pub use items::push_items;
pub use lawful_order::Placed;
pub use laws::{numbers_differ, paths_are_whole, steps_have_numbers};
pub use sleeps::Sleeps;
