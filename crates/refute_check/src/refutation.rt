//! A whole refutation, read at once.
ghost use Rattle.std.specs.Prelude.{◌≡◌, ◌+◌, ◌<◌, ◌≤◌, None, IfOk, IfErr, length, take};
ghost use Rattle.refute_check.specs.Texts.{refutation_text};
ghost use Rattle.refute_check.specs.Laws.{IsWhole};
ghost use Rattle.refute_check.specs.Reading.{ReadsTo, bodies};
ghost use Rattle.refute_check.specs.helpers.Pieces.{ReadsMore};
ghost use Rattle.refute_check.specs.Broken.{IsFault, IsFaultFrom};

use crate::{Derivation, Head, RefutationFault, RefutationText, Taken};
use std::alloc::Global;

/// The header and the derivation with this text.
///
/// Bytes either are the text of one header and derivation, or have one line that first breaks the
/// form, so the answer is unique, except for `Memory`.
pub fn read_refutation(alloc: Global, bytes: &[u8]) -> Result<(Head, Derivation), RefutationFault>
    ensures found { IfOk result (λ r. IsWhole r.0 r.1 × (refutation_text r.0 r.1 ≡ bytes.now)) }
    ensures refused { IfErr result (λ fault. IsFault bytes.now fault) }
{
    let mut text = RefutationText::new(alloc);
    let (count, taken) = text.take(bytes)?;
    let Taken::Header(head) = taken else {
        return Err(RefutationFault::Form(1));
    };
    let derivation = read_lines(alloc, text, &bytes[count..])?;
    Ok((head, derivation))
}

/// The lines after the header.
fn read_lines(
    alloc: Global,
    mut text: RefutationText,
    bytes: &[u8],
) -> Result<Derivation, RefutationFault>
    requires second { text.line ≡ 2 }
    requires free { text.fault ≡ None }
    ensures found { IfOk result (λ lines. ReadsTo text bytes.now (bodies lines) None) }
    ensures refused { IfErr result (λ fault. IsFaultFrom text bytes.now fault) }
{
    let mut lines = Derivation::new(alloc);
    let mut from = 0;
    while from < bytes.len() {
        from += read_more(&mut text, &mut lines, &bytes[from..])?;
    }
    match text.finish() {
        Ok(()) => Ok(lines),
        Err(line) => Err(RefutationFault::Form(line)),
    }
}

/// Reads up to the next line end, keeps that line, and returns the number of bytes.
fn read_more(
    text: &mut RefutationText,
    lines: &mut Derivation,
    bytes: &[u8],
) -> Result<usize, RefutationFault>
    requires place { text.old.line ≡ length lines.old + 2 }
    requires free { text.old.fault ≡ None }
    requires some { 0 < length bytes.now }
    ensures count { IfOk result (λ n. (0 < n) × (n ≤ length bytes.now)) }
    ensures read { IfOk result (λ n. ReadsMore text.old (take n bytes.now) lines.old lines.new text.new) }
    ensures refused { IfErr result (λ fault. IsFaultFrom text.old bytes.now fault) }
{
    let (count, taken) = text.take(bytes)?;
    match taken {
        Taken::Line(line) => {
            lines.push(line)?;
            Ok(count)
        }
        Taken::Form(line) => Err(RefutationFault::Form(line)),
        Taken::More | Taken::Header(_) => Ok(count),
    }
}
