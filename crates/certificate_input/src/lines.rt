//! The lines of refutations, one by one.
ghost use Rattle.std.specs.Prelude.{◌≡◌, ◌++◌, ◌∷◌, [], List, codes, IfOk, MatchOption};
ghost use Rattle.refute_check.specs.Texts.{ended};
ghost use Rattle.refute_check.specs.declared.line.Line.{Line as PlainLine};
ghost use Rattle.none_certificates.specs.Texts.{IsNoLogLine};
ghost use Rattle.certificate_input.specs.Cuts.{IsTextOf};
ghost use Rattle.certificate_input.specs.helpers.Incoming.{IsWrongLog};

use crate::wrong::Wrong;
use none_certificates::read_log_line;
use refute_check::{Derivation, RefutationFault, read_refutation};
use std::alloc::{AllocError, Global};

/// The text of a refutation that has only this line.
fn text_of(alloc: Global, line: &[u8]) -> Result<Vec<u8>, AllocError>
    ensures { IfOk result (λ text. text.items ≡ ended (codes "clap-refutation 2 sc") ++ ended line.now) }
{
    let mut text = Vec::new(alloc);
    text.extend_from_slice(b"clap-refutation 2 sc\n")?;
    text.extend_from_slice(line)?;
    text.push(b'\n')?;
    Ok(text)
}

/// The derivation that has only this line, if it is one of a refutation.
pub(crate) fn line_in(alloc: Global, line: &[u8]) -> Result<Option<Derivation>, AllocError>
    ensures { IfOk result (λ found. MatchOption found ((l : PlainLine) → IsTextOf line.now l → ⊥) (λ d. (l : PlainLine) × (d ≡ l ∷ []) × IsTextOf line.now l)) }
{
    let text = text_of(alloc, line)?;
    match read_refutation(alloc, &text) {
        Ok((_, derivation)) => {
            if derivation.lines().len() == 1 {
                Ok(Some(derivation))
            } else {
                Ok(None)
            }
        }
        Err(RefutationFault::Form(_)) => Ok(None),
        Err(RefutationFault::Memory) => Err(AllocError),
    }
}

/// What is wrong with a line that isn't the line of the log that is wanted.
pub(crate) fn wrong_log(alloc: Global, line: &[u8]) -> Result<Wrong, AllocError>
    ensures { IfOk result (IsWrongLog line.now) }
{
    match read_log_line(alloc, line)? {
        Some(_) => Ok(Wrong::Refused),
        None => Ok(Wrong::Form),
    }
}
