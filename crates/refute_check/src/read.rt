//! The lines of a refutation, read from their bytes.
ghost use Rattle.std.specs.Prelude.{◌≡◌, ◌↔◌, IfOk, MatchOption, IsTrue};
ghost use Rattle.refute_check.specs.Texts.{head_text, line_text, is_head, is_readable, IsNoHead, IsNoLine};

use crate::guess::line_guess;
use crate::head_guess::head_guess;
use crate::write::{write_head, write_line};
use crate::{Head, Line};
use std::alloc::{AllocError, Global};

/// The line with this text (without its line end), if there is one. At most one line has it.
pub fn read_line(alloc: Global, bytes: &[u8]) -> Result<Option<Line>, AllocError>
    ensures { IfOk result (λ line. MatchOption line (IsNoLine bytes.now) (λ l. (line_text l ≡ bytes.now) × IsTrue (is_readable l))) }
{
    let Some(line) = line_guess(alloc, bytes)? else {
        return Ok(None);
    };
    if is_line_text(alloc, &line, bytes)? {
        return Ok(Some(line));
    }
    Ok(None)
}

/// Whether these bytes are the line's text.
fn is_line_text(alloc: Global, line: &Line, bytes: &[u8]) -> Result<bool, AllocError>
    ensures { IfOk result (λ same. IsTrue same ↔ (line_text line.now ≡ bytes.now)) }
{
    let mut text = String::with_capacity(alloc, bytes.len())?;
    write_line(&mut text, line)?;
    Ok(text.as_bytes() == bytes)
}

/// Whether these bytes are the header's text.
fn is_head_text(alloc: Global, head: Head, bytes: &[u8]) -> Result<bool, AllocError>
    ensures { IfOk result (λ same. IsTrue same ↔ (head_text head ≡ bytes.now)) }
{
    let mut text = String::new(alloc);
    write_head(&mut text, head)?;
    Ok(text.as_bytes() == bytes)
}

/// The header with this text (without its line end), if there is one. At most one header has it.
pub fn read_head(alloc: Global, bytes: &[u8]) -> Result<Option<Head>, AllocError>
    ensures { IfOk result (λ head. MatchOption head (IsNoHead bytes.now) (λ h. (head_text h ≡ bytes.now) × IsTrue (is_head h))) }
{
    let Some(head) = head_guess(bytes) else {
        return Ok(None);
    };
    if is_head_text(alloc, head, bytes)? {
        return Ok(Some(head));
    }
    Ok(None)
}
