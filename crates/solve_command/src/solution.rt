//! What a search found.
use clap_solve::Answer;
use schedule_file::Schedule;

/// What a search found, and its text.
#[derive(Drop)]
pub struct Solution {
    pub answer: Answer<Schedule>,
    /// A schedule, or a refutation.
    pub text: Vec<u8>,
}
