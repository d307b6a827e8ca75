//! Deeds of moves as values, and memory and the stores that wait in buffers after them.
#![tactic(auto)]

mod deed;
mod laws;
mod seen;

pub use deed::{Deed, Step, Stored};
pub use laws::{first_drains, memory_is_seen};
pub use seen::Seen;
