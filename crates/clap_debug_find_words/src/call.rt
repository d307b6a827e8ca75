//! The call that words ask for.

use certificate_check::CheckCertificate;
use find_command::Search;

/// The call that words ask for, with its files and options.
#[derive(Clone, Copy)]
pub enum Call<'a> {
    /// Searches for a failure or a deadlock of a program.
    Search(Search<'a>),
    /// Checks a certificate for a program.
    Check(CheckCertificate<'a>),
}
