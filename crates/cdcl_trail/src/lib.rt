//! The trail of the literals that are true in a search.
#![tactic(auto)]

mod trail;

pub use trail::{Trail, Value};
