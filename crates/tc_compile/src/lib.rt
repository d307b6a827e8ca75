//! From a program's text to its flat code, or to the one fault that it has.
#![tactic(auto)]

mod fault;
mod laws;
mod reading;

pub use fault::CompileFault;
pub use laws::code_is_one;
pub use reading::compile;
