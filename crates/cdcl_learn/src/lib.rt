//! What a conflict teaches.
#![tactic(auto)]

mod analysis;
mod conflicts;
mod lesson;

pub use conflicts::{analyze, close};
pub use lesson::{Lesson, Turn};
