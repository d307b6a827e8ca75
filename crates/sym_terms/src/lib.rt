//! Terms over the values that loads take. Each distinct term is one node, which names the nodes of
//! its parts, so a value that is used several times is stored once.
#![tactic(auto)]

pub mod laws;
mod node;
mod terms;
mod values;

pub use node::{Id, Node};
pub use terms::Terms;
pub use values::{Values, value};
