//! Logs that commands keep: in format 2, with the digest of the program.
#![tactic(auto)]

ghost use Rattle.std.specs.Prelude.{◌≡◌, IfOk, IsTrue};
ghost use Rattle.run_log.specs.Logs.{StoredLog};
ghost use Rattle.path_log.specs.Texts.{HasText, IsLog, is_of_format, log_text};
ghost use Rattle.kept_logs.specs.Digests.{with_digest};

use path_log::{program_digest, write_log};
use run_log::Log;
use std::alloc::{AllocError, Global};

/// The text of a log in format 2, with the digest of the program.
pub fn text_with_digest(alloc: Global, program: &[u8], log: Log) -> Result<Vec<u8>, AllocError>
    requires { IsTrue (is_of_format log.log) }
    ensures has_text { HasText (with_digest program.now log.log) }
    ensures text { IfOk result (λ text. text.items ≡ log_text (with_digest program.now log.log)) }
    ensures log { IfOk result (λ text. IsLog text.items (with_digest program.now log.log)) }
{
    let text = written(alloc, program, log)?;
    tell_reading(&text);
    Ok(text)
}

/// The same, by the bytes that are written.
fn written(alloc: Global, program: &[u8], log: Log) -> Result<Vec<u8>, AllocError>
    requires { IsTrue (is_of_format log.log) }
    ensures has_text { HasText (with_digest program.now log.log) }
    ensures text { IfOk result (λ text. text.items ≡ log_text (with_digest program.now log.log)) }
{
    let log = log.with_digest(&program_digest(program));
    write_log(alloc, &log)
}

/// Tells that bytes that are written as a log are read as that log.
fn tell_reading(text: &[u8])
    ensures { (log : StoredLog) → HasText log → text.now ≡ log_text log → IsLog text.now log }
{}
