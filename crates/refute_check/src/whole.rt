//! The verdict on a whole derivation, and what it means.
ghost use Rattle.std.specs.Prelude.{◌≡◌, ◌≢◌, Err, Ok};
ghost use Rattle.cnf_core.specs.Clauses.{IsUnsatisfiable};
ghost use Rattle.refute_check.specs.Laws.{ClosedMeansUnsatisfiable, ReadsAgree, TextIsRead, TextHasOneValue, ReadIsText, BrokenIsNoText};
ghost use Rattle.refute_check.specs.Refutations.{check};

use crate::{CheckFault, Checked, Checker, Derivation};
use cnf_core::Cnf;
use std::alloc::Global;

/// If a derivation is closed, the formula's clauses are unsatisfiable.
pub fn closed_means_unsatisfiable()
    ensures { ClosedMeansUnsatisfiable }
{}

/// Reading is deterministic.
pub fn reads_agree()
    ensures { ReadsAgree }
{}

/// The text of a header and lines is read as these, and no line breaks the form.
pub fn text_is_read()
    ensures { TextIsRead }
{}

/// A text belongs to only one header and derivation.
pub fn text_has_one_value()
    ensures { TextHasOneValue }
{}

/// Bytes in which no line breaks the form are the text of what was read from them.
pub fn read_is_text()
    ensures { ReadIsText }
{}

/// Bytes in which a line breaks the form aren't the text of any refutation.
pub fn broken_is_no_text()
    ensures { BrokenIsNoText }
{}

/// The verdict on a derivation: the first fault, or else whether an empty clause was added.
pub fn check(alloc: Global, cnf: &Cnf, derivation: &Derivation) -> Result<Checked, CheckFault>
    ensures verdict { result ≢ Err CheckFault.Memory → result ≡ check cnf.now derivation.now }
    ensures closed { result ≡ Ok Checked.Closed → IsUnsatisfiable cnf.now.clauses }
{
    let Ok(mut checker) = Checker::new(alloc, cnf) else {
        return Err(CheckFault::Memory);
    };
    for line in derivation.lines() {
        checker.add(line)?;
    }
    checker.verdict()
}
