//! Learnt clauses as lines of a derivation: they pass a checker and say more than propagation.
#![tactic(auto)]

mod fresh;
mod keeping;
mod lessons;
mod lines;
mod literals;
mod models;

pub use fresh::{added_is_fresh, asserted_is_fresh, fresh_goes_on, fresh_says_more};
pub use keeping::{
    drop_passes, empty_closes, hints_are_there, keep_is_represented, keeps_on, keeps_one_more,
    opening_is_represented, same_are_represented, shown_passes,
};
pub use lessons::{false_are_apart, false_are_within, sort_lesson, sort_literals};
pub use lines::{add_line, delete_line};
pub use literals::{to_lit, to_literal, to_literals};
pub use models::{assignment_of, full_satisfies};
