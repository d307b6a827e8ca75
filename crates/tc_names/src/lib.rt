//! The rules for names: each is declared once in its scope, and used as what it is.
#![tactic(auto)]

mod fault;
mod names;
mod scope;
mod uses;

pub use fault::NameFault;
pub use names::check_names;
pub use scope::{Declaration, Meaning};
