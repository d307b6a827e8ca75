//! The steps of a search from one conflict to the next.
#![tactic(auto)]

mod attaching;
mod backs;
mod choice;
mod descent;
mod forgetting;
mod loading;

pub use attaching::{attach, detach};
pub use backs::go_back;
pub use choice::next_open;
pub use descent::to_conflict;
pub use forgetting::forget;
pub use loading::{Loaded, load_clause};
