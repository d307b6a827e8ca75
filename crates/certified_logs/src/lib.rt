//! The logs that a certificate refutes, one after another, with the clauses of each.
//!
//! They come in the order in which the search goes through them. A log that doesn't fit the program
//! has no clauses, and no moves reproduce it; so it is passed over.
#![tactic(auto)]

mod ends;
mod next;
mod place;
mod start;
mod write;

pub use next::Next;
pub use place::Place;
pub use write::{certificate, header_of};
