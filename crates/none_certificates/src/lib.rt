//! Certificates that no run of a program fails, or that none comes to a deadlock, as text: the logs
//! that suffice, each with a refutation.
#![tactic(auto)]

mod guess;
mod header;
mod header_guess;
mod laws;
mod line;
mod read;
mod write;

pub use header::Header;
pub use laws::certificates_are_one;
pub use line::LogLine;
pub use read::{is_log_line, read_header, read_log_line};
pub use write::{write_header, write_refuted};
