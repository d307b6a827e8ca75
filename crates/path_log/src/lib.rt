//! The text of a log: the paths of the threads of a run that failed or came to a deadlock, as bytes.
#![tactic(auto)]

mod cursor;
mod digest;
mod fault;
mod field;
mod laws;
mod outcomes;
mod reading;
mod room;
mod threads;
mod writing;

pub use digest::{is_of_other, program_digest};
pub use fault::LogFault;
pub use laws::{faults_are_one, logs_are_one};
pub use reading::read_log;
pub use room::has_text;
pub use writing::write_log;
