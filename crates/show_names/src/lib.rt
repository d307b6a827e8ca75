//! Names for the numbers of a program's code, and the lines of its text, as they are shown.
#![tactic(auto)]

mod body;
mod globals;
mod names;
mod source;
mod text;

pub use names::Names;
