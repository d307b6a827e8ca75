//! Laws of the grammar: words are at most one program, and otherwise have one fault.
#![tactic(auto)]

mod laws;

pub use laws::{words_are_one_program, words_have_one_fault};
