//! Where the words of a text stop being a program's, and which kinds of tokens are possible there.
#![tactic(auto)]

mod kinds;
mod laws;
mod stuck;
mod texts;

pub use kinds::ALL_KINDS;
pub use laws::no_kind_is_missed;
pub use stuck::{Stuck, find_stuck};
pub use texts::stuck_of;
