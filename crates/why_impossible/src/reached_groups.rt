//! The rules behind an impossibility: groups of conjuncts whose clauses a derivation reaches.

mod groups;
pub mod laws;
mod order;

pub use groups::reached_groups;
