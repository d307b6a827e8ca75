//! The text as it is written, line by line.

use crate::text::shown;
use std::alloc::{AllocError, Global};

/// The lines of a text, each with the blanks before it.
pub(crate) fn source_of(alloc: Global, text: &[u8]) -> Result<Vec<String>, AllocError> {
    let mut lines = Vec::new(alloc);
    let mut line = Vec::new(alloc);
    for byte in text {
        match byte {
            b'\n' => {
                lines.push(shown(alloc, line.as_slice())?)?;
                line.clear();
            }
            b'\t' => line.extend_from_slice(b"    ")?,
            _ => line.push(*byte)?,
        }
    }
    if !line.is_empty() {
        lines.push(shown(alloc, line.as_slice())?)?;
    }
    Ok(lines)
}
