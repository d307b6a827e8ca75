//! One run along the paths of a log: what a search for a schedule tries first.
//!
//! The run only goes forward. Fixed rules choose each step, by what each thread would do next if it
//! went on alone, and no step is taken back. If no thread can go on along its path, one leaves it:
//! its path goes on as logged, and its loads take the values that are there. So the run proves
//! nothing: if it isn't a run of the log, it only costs the search time.
//!
//! This crate decides; `run_simulation` does what it decides.
#![tactic(auto)]

mod ahead;
mod block;
mod choice;
mod run;
mod stuck;
mod tuned;
mod world;

pub use world::first_world;
