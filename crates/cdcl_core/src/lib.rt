//! A search for a satisfying assignment, which learns from conflicts and can be paused.
#![tactic(auto)]

mod answer;
mod loading;
mod progress;
mod reducing;
mod running;
mod search;
mod solve;
mod stages;
mod state;
mod turns;

pub use answer::Answer;
pub use progress::Progress;
pub use search::Search;
pub use solve::solve_cnf;
