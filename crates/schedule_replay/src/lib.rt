//! Replays: whether a schedule reproduces a log under a memory model.
#![tactic(auto)]

mod laws;
mod replaying;
mod verdict;

pub use laws::verdicts_are_one;
pub use replaying::replay;
pub use verdict::Verdict;
