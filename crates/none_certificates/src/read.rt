//! The header and the lines of logs, read from their bytes.
ghost use Rattle.std.specs.Prelude.{◌≡◌, ◌↔◌, IfOk, MatchOption, IsTrue, option_map};
ghost use Rattle.none_certificates.specs.Certificates.{is_header, is_log_line};
ghost use Rattle.none_certificates.specs.Texts.{header_text, log_text, IsNoHeader, IsNoLogLine};

use crate::guess::log_guess;
use crate::header_guess::header_guess;
use crate::write::{header_line, log_line};
use crate::{Header, LogLine};
use run_log::ThreadPath;
use std::alloc::{AllocError, Global};
use tc_base::ThreadName;

/// Whether these bytes are the header's text.
fn is_header_text(alloc: Global, header: Header, bytes: &[u8]) -> Result<bool, AllocError>
    ensures { IfOk result (λ same. IsTrue same ↔ (header_text header ≡ bytes.now)) }
{
    let line = header_line(alloc, header)?;
    Ok(line.as_bytes() == bytes)
}

/// The header with this text (without its line end), if there is one. At most one header has it.
pub fn read_header(alloc: Global, bytes: &[u8]) -> Result<Option<Header>, AllocError>
    ensures { IfOk result (λ header. MatchOption header (IsNoHeader bytes.now) (λ h. (header_text h ≡ bytes.now) × IsTrue (is_header h))) }
{
    let Some(header) = header_guess(bytes) else {
        return Ok(None);
    };
    if is_header_text(alloc, header, bytes)? {
        return Ok(Some(header));
    }
    Ok(None)
}

/// Whether these bytes are the text (without its line end) of the line of this log, given by the
/// thread that fails, if one does, and its threads.
pub fn is_log_line(
    alloc: Global,
    failing: Option<&ThreadName>,
    threads: &[ThreadPath],
    bytes: &[u8],
) -> Result<bool, AllocError>
    ensures { IfOk result (λ same. IsTrue same ↔ (log_text (record { failing = option_map (λ n. n.now) failing.entry; threads = threads.now }) ≡ bytes.now)) }
{
    let line = log_line(alloc, failing, threads)?;
    Ok(line.as_bytes() == bytes)
}

/// What the line of a log with this text (without its line end) says, if there is one. At most one
/// has it.
pub fn read_log_line(alloc: Global, bytes: &[u8]) -> Result<Option<LogLine>, AllocError>
    ensures { IfOk result (λ line. MatchOption line (IsNoLogLine bytes.now) (λ l. (log_text l ≡ bytes.now) × IsTrue (is_log_line l))) }
{
    let line = log_guess(alloc, bytes)?;
    if is_log_line(alloc, line.failing.as_ref(), &line.threads, bytes)? {
        return Ok(Some(line));
    }
    Ok(None)
}
