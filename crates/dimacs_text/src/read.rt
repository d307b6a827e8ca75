//! Reading the literals of an answer.
ghost use Rattle.std.specs.Prelude.{IfOk, IfErr};
ghost use Rattle.dimacs_text.specs.Answers.{IsAnswerWith};
ghost use Rattle.dimacs_text.specs.Faults.{IsFault};

use crate::pieces::next_line;
use crate::said::Said;
use crate::{AnswerFault, Literals};
use std::alloc::Global;

/// The literals that a solver's answer makes true, or the first line that breaks the form.
///
/// A text has one reading (`texts_have_one_reading`), so only lack of memory leaves the result
/// open. Only the form is read; `first_false` checks the clauses. The time is linear in the text.
pub fn read_answer(alloc: Global, text: &[u8]) -> Result<Literals, AnswerFault>
    ensures found { IfOk result (λ literals. IsAnswerWith text.now literals) }
    ensures refused { IfErr result (λ fault. IsFault text.now fault) }
{
    let mut said = Said::Nothing;
    let mut rest = text;
    let mut number = 1;
    while !rest.is_empty() {
        let (line, behind) = next_line(rest);
        let Some(next) = said.after_line(alloc, line)? else {
            return Err(AnswerFault::Form(number));
        };
        said = next;
        rest = behind;
        number += 1;
    }
    match said {
        Said::Whole(literals) => Ok(literals),
        _ => Err(AnswerFault::Form(number)),
    }
}
