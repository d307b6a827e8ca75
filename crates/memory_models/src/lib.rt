//! The names of the memory models, as commands and files write them.
#![tactic(auto)]

mod model;

pub use model::Model;
