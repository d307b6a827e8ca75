//! Trees of programs as flat code.
#![tactic(auto)]

mod draft;
mod law;
mod program;
mod simple;
mod statement;
mod tables;
mod things;
mod value;

pub use law::{code_is_lawful, names_stand_for_what_they_mean};
pub use program::lower;
