//! What logs may have too many of, and the line that says so.
#![tactic(auto)]

mod part;

pub use part::{Part, part_left, part_of};
