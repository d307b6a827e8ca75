//! Rows: a deed, and the place of its thread.

use show_deeds::Deed;

/// The deed of one move, and the place of its thread before it.
#[derive(Drop)]
pub struct Row {
    /// The deed.
    pub deed: Deed,
    /// The number of the function that the thread does.
    pub function: usize,
    /// The number of the instruction there that it does next: for a step, the step's own.
    pub instruction: usize,
    /// The value of each slot of the thread.
    pub slots: Vec<i32>,
}
