//! Schedules and logs in the words of their program, and as text.
#![tactic(auto)]

mod counts;
mod effects;
mod ends;
mod folds;
mod moves;
mod program;
mod sites;
mod table;
mod terms;
mod values;
mod walks;
mod wording;

pub use counts::{Counts, counts_of};
pub use effects::Effect;
pub use ends::push_end;
pub use moves::{Shown, show_moves};
pub use program::Program;
pub use table::{Detail, log_text, schedule_text};
pub use walks::{Went, push_ending, push_title, walk_words};
