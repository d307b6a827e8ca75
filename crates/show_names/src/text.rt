//! Texts as they are shown.
ghost use Rattle.std.specs.Prelude.{◌≤◌, length};

use std::alloc::{AllocError, Global};
use std::str;

/// The most characters of a line that are shown.
const WIDTH: usize = 60;

/// The lines of a text, each without comments and without the blanks at its ends, and cut off if it
/// is too long.
pub(crate) fn lines_of(alloc: Global, text: &[u8]) -> Result<Vec<String>, AllocError> {
    let mut lines = Vec::new(alloc);
    let mut start = 0;
    let mut is_open = false;
    for (i, byte) in text.iter().enumerate() {
        if *byte == b'\n' {
            lines.push(line_of(alloc, &text[start..i], &mut is_open)?)?;
            start = i + 1;
        }
    }
    lines.push(line_of(alloc, &text[start..], &mut is_open)?)?;
    Ok(lines)
}

/// A line as it is shown, and whether a comment is open after it, given whether one is open before
/// it.
fn line_of(alloc: Global, line: &[u8], is_open: &mut bool) -> Result<String, AllocError> {
    let code = without_comments(alloc, line, is_open)?;
    let whole = shown(alloc, trimmed(code.as_slice()))?;
    if whole.chars().count() <= WIDTH {
        return Ok(whole);
    }
    let mut cut = String::new(alloc);
    for c in whole.chars().take(WIDTH - 3) {
        cut.push(c)?;
    }
    cut.push_str("...")?;
    Ok(cut)
}

/// A line with a blank in place of each comment, and whether one is open after it, given whether
/// one is open before it.
fn without_comments(alloc: Global, line: &[u8], is_open: &mut bool) -> Result<Vec<u8>, AllocError> {
    let mut code = Vec::new(alloc);
    let mut rest = line;
    while let [byte, later @ ..] = rest {
        rest = match rest {
            [b'*', b'/', behind @ ..] if *is_open => {
                *is_open = false;
                behind
            }
            _ if *is_open => later,
            [b'/', b'/', ..] => &[],
            [b'/', b'*', behind @ ..] => {
                code.push(b' ')?;
                *is_open = true;
                behind
            }
            _ => {
                code.push(*byte)?;
                later
            }
        };
    }
    Ok(code)
}

/// A line without the blanks at its ends.
fn trimmed(line: &[u8]) -> &[u8] {
    let mut rest = line;
    while let [b' ' | b'\t' | b'\r', later @ ..] = rest {
        rest = later;
    }
    while let [earlier @ .., b' ' | b'\t' | b'\r'] = rest {
        rest = earlier;
    }
    rest
}

/// Bytes as text, with a blank in place of each control character. If they aren't UTF-8, each byte
/// that isn't ASCII becomes a question mark.
pub(crate) fn shown(alloc: Global, bytes: &[u8]) -> Result<String, AllocError> {
    let mut text = String::new(alloc);
    match str::from_utf8(bytes) {
        Ok(whole) => {
            for c in whole.chars() {
                text.push(if is_control(c) { ' ' } else { c })?;
            }
        }
        Err(_) => {
            for byte in bytes {
                text.push(ascii(*byte))?;
            }
        }
    }
    Ok(text)
}

/// Whether it is a control character.
fn is_control(c: char) -> bool {
    c < ' ' || ('\u{7f}'..='\u{9f}').contains(&c)
}

/// A byte as a character.
fn ascii(byte: u8) -> char {
    match byte {
        0x20..=0x7e => byte as char,
        0x80..=0xff => '?',
        _ => ' ',
    }
}
