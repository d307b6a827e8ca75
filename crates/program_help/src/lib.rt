//! Explains why a text isn't a program, and describes a program. No clause gives the words.
#![tactic(auto)]

mod bytes;
mod counts;
mod expected;
mod foreign;
mod habits;
mod meanings;
mod names;
mod program;
mod quote;
mod refusal;
mod scopes;
mod source;

pub use program::describe;
pub use refusal::explain;
