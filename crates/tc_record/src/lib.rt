//! Seeded runs: a generator chooses the moves of a program's run, and a run that fails gives a log.
#![tactic(auto)]

mod end;
mod failing;
mod laws;
mod logged;
mod recording;
mod seeded;
mod words;

pub use end::Which;
pub use laws::{
    ended_runs_have_logs, ended_runs_have_texts, ended_runs_reproduce_logs, recorded_logs_fit,
};
pub use recording::run_seeded;
pub use seeded::{Seeded, SeededFault};
pub use words::seed_words;
