//! What is wrong with a line.

use clap_system::Which;

/// What is wrong with a line of a certificate.
#[derive(Clone, Copy)]
pub enum Wrong {
    /// It isn't what the certificate goes on with.
    Refused,
    /// It isn't a line of a certificate.
    Form,
    /// The log that is wanted has too many of something: their number, and the limit.
    Limit(Which, u64, u64),
}
