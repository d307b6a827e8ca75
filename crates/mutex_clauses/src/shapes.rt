//! The terms of the expressions of a mutex's regions, and the shapes of the regions.
mod pool;
mod shapes;
mod steps;

pub use shapes::termed_steps;
pub use steps::{LoadTerm, Shape, Termed, TermedSteps, TestTerm};
