//! Certificates that are written again.

use anyhow::Result;
use none_certificates::{LogLine, read_header, read_log_line, write_header, write_refuted};
use refute_check::read_refutation;
use std::alloc::Global;
use std::str;

/// The header of a refutation, which a certificate leaves out.
const LEFT_OUT: &str = "clap-refutation 2 sc\n";

/// A log and the text of its refutation.
#[derive(Drop)]
struct Part {
    log: LogLine,
    refutation: String,
}

/// Adds a line after the first.
fn add(alloc: Global, parts: &mut Vec<Part>, line: &str) -> Result<bool> {
    if let Some(log) = read_log_line(alloc, line.as_bytes())? {
        let refutation = String::from_str(alloc, LEFT_OUT)?;
        parts.push(Part { log, refutation })?;
        return Ok(true);
    }
    let Some(part) = parts.last_mut() else {
        return Ok(false);
    };
    part.refutation.push_str(line)?;
    part.refutation.push_str("\n")?;
    Ok(true)
}

/// Writes a part again.
fn write_part(alloc: Global, text: &mut Vec<u8>, part: &Part) -> Result<bool> {
    let Ok((_, derivation)) = read_refutation(alloc, part.refutation.as_bytes()) else {
        return Ok(false);
    };
    let log = &part.log;
    write_refuted(alloc, text, log.failing.as_ref(), &log.threads, &derivation)?;
    Ok(true)
}

/// The certificate that some lines are, written again, if they are one.
fn written(alloc: Global, given: &str) -> Result<Option<Vec<u8>>> {
    let mut parts = Vec::new(alloc);
    let mut text = Vec::new(alloc);
    for (place, line) in given.lines().enumerate() {
        if place == 0 {
            let Some(header) = read_header(alloc, line.as_bytes())? else {
                return Ok(None);
            };
            write_header(alloc, &mut text, header)?;
        } else if !add(alloc, &mut parts, line)? {
            return Ok(None);
        }
    }
    for part in &parts {
        if !write_part(alloc, &mut text, part)? {
            return Ok(None);
        }
    }
    Ok(Some(text))
}

/// Whether a certificate is read, and is the same when it is written again.
pub(crate) fn again(alloc: Global, given: &[u8]) -> Result<String> {
    let text = written(alloc, str::from_utf8(given)?)?;
    let answer = match &text {
        None => "refused",
        Some(text) if text.as_slice() == given => "the same",
        Some(_) => "another",
    };
    Ok(String::from_str(alloc, answer)?)
}
