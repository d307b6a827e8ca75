//! The rules of synchronisation as conjuncts: children, mutexes, conditions and deadlocks.
#![tactic(auto)]

mod children;
pub mod laws;
mod mutexes;
mod stuck;
mod sync;

pub use sync::sync_constraints;
