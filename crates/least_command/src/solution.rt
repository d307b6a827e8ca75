//! What searches found.
use least_switch::Least;

/// What searches found, and its texts.
#[derive(Drop)]
pub struct Solution {
    pub least: Least,
    /// A schedule, or a refutation.
    pub out: Vec<u8>,
    /// A refutation of schedules with fewer switches, if there is one.
    pub refutation: Option<Vec<u8>>,
}
