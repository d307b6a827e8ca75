//! The steps that a thread has taken.

use crate::known::Known;
use thread_marks::Own;

/// What the steps of a thread determine so far.
#[derive(Drop)]
pub struct Past {
    /// Its mutexes and thread variables.
    pub own: Own,
    /// The values of its slots.
    pub known: Known,
    /// The places of the steps, in order.
    pub places: Vec<usize>,
}
