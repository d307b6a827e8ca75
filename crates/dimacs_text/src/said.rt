//! The state of a reader of an answer.
ghost use Rattle.std.specs.Prelude.{◌≡◌, IfOk};
ghost use Rattle.dimacs_text.specs.Answers as answers;
ghost use Rattle.dimacs_text.specs.helpers.Reading as reading;

use crate::Literals;
use crate::pieces::{next_part, trimmed};
use crate::words::{Word, word_in};
use cnf_core::Lit;
use std::alloc::{AllocError, Global};

/// What the lines so far have said.
#[derive(Debug, Drop)]
pub(crate) enum Said {
    /// Nothing.
    Nothing,
    /// There is an answer, with these literals so far.
    Begun(Literals),
    /// All literals of the answer.
    Whole(Literals),
}

impl Said {
    /// The state after one more line, unless it breaks the form.
    pub(crate) fn after_line(self, alloc: Global, line: &[u8]) -> Result<Option<Said>, AllocError>
        ensures { IfOk result (λ next. next ≡ reading.after_any self (answers.trimmed line.now)) }
    {
        let line = trimmed(line);
        if is_skipped(line) {
            return Ok(Some(self));
        }
        match self {
            Said::Nothing if line == b"s SATISFIABLE".as_slice() => {
                Ok(Some(Said::Begun(Literals::new(alloc))))
            }
            Said::Begun(literals) => after_values(literals, line),
            _ => Ok(None),
        }
    }

    /// The state after one more part between blanks, unless it breaks the form.
    fn after_part(self, part: &[u8]) -> Result<Option<Said>, AllocError>
        ensures { IfOk result (λ next. next ≡ reading.after_part self part.now) }
    {
        if part.is_empty() {
            return Ok(Some(self));
        }
        let Some(word) = word_in(part) else {
            return Ok(None);
        };
        self.after_word(word)
    }

    /// The state after one more word, unless it breaks the form.
    fn after_word(self, word: Word) -> Result<Option<Said>, AllocError>
        ensures { IfOk result (λ next. next ≡ reading.after_word self word) }
    {
        match (self, word) {
            (Said::Begun(literals), Word::Literal(lit)) => with_literal(literals, lit),
            (Said::Begun(literals), Word::End) => Ok(Some(Said::Whole(literals))),
            _ => Ok(None),
        }
    }
}

/// Whether a line is skipped.
fn is_skipped(line: &[u8]) -> bool
    ensures { result ≡ answers.is_skipped line.now }
{
    matches!(line, [] | [b'c', ..])
}

/// The state after a line of values.
fn after_values(literals: Literals, line: &[u8]) -> Result<Option<Said>, AllocError>
    ensures { IfOk result (λ next. next ≡ reading.after_line (Said.Begun literals) line.now) }
{
    let (first, rest) = next_part(line);
    if first == b"v".as_slice() {
        after_parts(literals, rest)
    } else {
        Ok(None)
    }
}

/// The state after the words of a line.
fn after_parts(literals: Literals, words: &[u8]) -> Result<Option<Said>, AllocError>
    ensures { IfOk result (λ next. next ≡ reading.after_parts (Said.Begun literals) (answers.pieces answers.is_blank words.now)) }
{
    let mut said = Said::Begun(literals);
    let mut rest = words;
    while !rest.is_empty() {
        let (part, behind) = next_part(rest);
        let Some(next) = said.after_part(part)? else {
            return Ok(None);
        };
        said = next;
        rest = behind;
    }
    Ok(Some(said))
}

/// The state after one more literal, unless its opposite is there.
fn with_literal(literals: Literals, lit: Lit) -> Result<Option<Said>, AllocError>
    ensures { IfOk result (λ next. next ≡ reading.after_word (Said.Begun literals) (Word.Literal lit)) }
{
    if literals.contains(lit.opposite()) {
        return Ok(None);
    }
    let mut literals = literals;
    literals.insert(lit)?;
    Ok(Some(Said::Begun(literals)))
}
