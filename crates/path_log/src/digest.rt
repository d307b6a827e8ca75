//! Digests of programs.
ghost use Rattle.std.specs.Prelude.{◌≡◌, true, false};
ghost use Rattle.sha2.specs.Sha256.{sha256};
ghost use Rattle.path_log.specs.Texts.{IsOfOther};

use run_log::Log;
use sha2::{Digest, Sha256};

/// The digest of a program's text, by which a log names the program.
pub fn program_digest(program: &[u8]) -> [u8; 32]
    ensures { result ≡ sha256 program.now }
{
    Sha256::digest(program)
}

/// Whether a log has the digest of another program. A log of format 1 has no digest and may be of
/// any.
pub fn is_of_other(log: &Log, program: &[u8]) -> bool
    ensures other { result ≡ true → IsOfOther program.now log.now }
    ensures same { result ≡ false → IsOfOther program.now log.now → ⊥ }
{
    match log.digest() {
        Some(digest) => *digest != program_digest(program),
        None => false,
    }
}
