//! The threads of the machine: local state, store buffer, and the requests and effects of
//! instructions.
#![tactic(auto)]

mod effect;
mod local;
mod names;
mod outcomes;
mod request;
mod thread;
mod threads;
mod waiting;

pub use effect::Effect;
pub use local::Local;
pub use names::ThreadNames;
pub use outcomes::Outcomes;
pub use request::drains_first;
pub use thread::Thread;
pub use threads::Threads;
pub use waiting::WaitSet;
