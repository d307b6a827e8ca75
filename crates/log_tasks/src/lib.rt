//! Programs and their logs as commands take them: which are searched, why others are refused, and
//! the texts and lines of what is found.
#![tactic(auto)]

mod budget;
mod fault;
mod lines;
mod reading;

pub use budget::{Budget, USUAL_BUDGET};
pub use fault::refuse_built;
pub use lines::{impossible_line, moves_line, spent_line};
pub use reading::read_own;
