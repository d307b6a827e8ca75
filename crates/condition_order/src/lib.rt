//! The rules of condition variables as conjuncts: what ends a wait, and which signals may be lost.
#![tactic(auto)]

mod conjuncts;
pub mod laws;
mod wait;

pub use conjuncts::condition_conjuncts;
pub use wait::{Ender, enders};
