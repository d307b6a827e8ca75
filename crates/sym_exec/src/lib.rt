//! Symbolic execution: executes the paths of threads, with a term in place of each loaded value.
#![tactic(auto)]

pub mod laws;
mod making;
mod symbolic;
mod thread;
mod threads;

pub use making::{expr_term, expr_terms};
pub use symbolic::{Access, Cell, Course, Handed, Symbolic, Test};
pub use threads::execute;
