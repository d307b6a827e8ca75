//! What the regions of a mutex do, with their tests: each is a step from the state of the mutex's
//! cells before it to the state after it.
mod steps;
mod tests;

pub use steps::{Step, Tested, steps_of};
