//! A formula over the order of events as clauses: each conjunct gets a literal, built from literals
//! of the order and words of terms, and a clause that asserts it.
#![tactic(auto)]

mod blasted;
mod cases;
mod contended;
mod drafts;
mod first_values;
pub mod laws;
mod reads;
mod roots;

pub use blasted::{Blasted, blast};
pub use drafts::{Draft, load_words};
pub use first_values::extend_values;
pub use reads::add_value;
