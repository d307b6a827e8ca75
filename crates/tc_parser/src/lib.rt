//! Programs: from a text to its tree, or to the one fault that it has.
#![tactic(auto)]

mod brackets;
mod counts;
mod fault;
mod laws;
mod parser;
mod stretches;

pub use fault::{ParseFault, TextFault, What};
pub use laws::{
    faults_are_one, language_2_has_the_programs_of_1, language_3_has_the_programs_of_2,
    language_4_has_the_programs_of_3, numbers_are_ints, programs_are_one,
};
pub use parser::{parse, read};
