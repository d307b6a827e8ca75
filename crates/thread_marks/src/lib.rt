//! The effect of a thread's own steps on its mutexes and thread variables, as far as it decides
//! whether a later step is possible.
#![tactic(auto)]

mod own;

pub use own::Own;
