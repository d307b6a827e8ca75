//! Reads the words of a program as a tree, or finds the first word with which no program continues.
#![tactic(auto)]

mod expressions;
mod programs;
mod reader;
mod statements;

pub use programs::read_program;
pub use reader::Stop;
