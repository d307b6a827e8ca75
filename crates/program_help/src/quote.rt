//! A line of a text with a caret.

use std::alloc::{AllocError, Global};
use tc_lexer::Place;

/// The most characters of a line that are shown before the caret.
const BEFORE: usize = 60;

/// The most characters of a line that are shown.
const WIDTH: usize = 100;

/// Adds the line of a place with its number, and a caret under the place.
pub(crate) fn push_quote(out: &mut String, text: &[u8], place: Place) -> Result<(), AllocError> {
    let alloc = *out.allocator();
    let line = line_at(text, place.line);
    let column = (place.col as usize).saturating_sub(1).min(line.len());
    let before = legible(alloc, line.get(..column).unwrap_or(line))?.len();
    let hidden = before.saturating_sub(BEFORE);
    let start = out.len();
    write!(out, "{} ", place.line)?;
    let width = out.len().saturating_sub(start);
    push_line(out, legible(alloc, line)?.as_str(), hidden)?;
    push_caret(out, width, before.saturating_sub(hidden))
}

/// Adds a line from its first character that is shown.
fn push_line(out: &mut String, line: &str, first: usize) -> Result<(), AllocError> {
    out.push_str("| ")?;
    for c in line.chars().skip(first).take(WIDTH) {
        out.push(c)?;
    }
    out.push('\n')
}

/// Adds a caret below a line: after the width of its number, and `before` characters of it.
fn push_caret(out: &mut String, width: usize, before: usize) -> Result<(), AllocError> {
    push_blanks(out, width)?;
    out.push_str("| ")?;
    push_blanks(out, before)?;
    out.push_str("^\n")
}

/// Adds `count` blanks.
fn push_blanks(out: &mut String, count: usize) -> Result<(), AllocError> {
    for _ in 0..count {
        out.push(' ')?;
    }
    Ok(())
}

/// The text from a place on.
pub(crate) fn rest_at(text: &[u8], place: Place) -> &[u8] {
    let mut rest = text;
    for _ in 1..place.line {
        let next = line_length(rest).saturating_add(1);
        rest = rest.get(next..).unwrap_or(b"");
    }
    let column = (place.col as usize).saturating_sub(1);
    rest.get(column..).unwrap_or(b"")
}

/// The line of a text with this number, from 1, without its line feed.
fn line_at(text: &[u8], number: u32) -> &[u8] {
    let rest = rest_at(
        text,
        Place {
            line: number,
            col: 1,
        },
    );
    rest.get(..line_length(rest)).unwrap_or(rest)
}

/// The number of bytes before the first line feed.
fn line_length(text: &[u8]) -> usize {
    text.iter().take_while(|byte| **byte != b'\n').count()
}

/// Bytes as text: a blank in place of each control character, and a `?` in place of each character
/// that isn't ASCII.
pub(crate) fn legible(alloc: Global, bytes: &[u8]) -> Result<String, AllocError> {
    let mut out = String::new(alloc);
    for byte in bytes {
        match *byte {
            0x20..=0x7e => out.push(*byte as char)?,
            // (a later byte of a character)
            0x80..=0xbf => {}
            0xc0..=0xff => out.push('?')?,
            _ => out.push(' ')?,
        }
    }
    Ok(out)
}
