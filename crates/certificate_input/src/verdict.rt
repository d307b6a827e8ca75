//! The verdict on a certificate.

use clap_system::Which;
use log_walk::LeftOut;
use none_certificates::Header;

/// The verdict on a certificate.
#[derive(Clone, Copy)]
pub enum Verdict {
    /// Each log is refuted: no run ends as the header says.
    Holds(Header),
    /// All lines pass, but some log isn't refuted.
    Open,
    /// The line of this number is the first that doesn't pass.
    LineRefused(u32),
    /// The line of this number is the first that breaks the form.
    Form(u32),
    /// The next log has too many of something: their number, and the limit.
    Limit(Which, u64, u64),
    /// Each log is refuted, except some with too many threads, too many steps or too long a name.
    LeftOut(LeftOut),
}
