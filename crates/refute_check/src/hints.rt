//! What the hints of a line prove, and which clauses a line deletes.
ghost use Rattle.std.specs.Prelude.{◌≡◌, IfOk, IsTrue, if◌then◌else◌, map, neg_ℤ, [], None, Some};
ghost use Rattle.refute_check.specs.Refutations.{hints_fault, can_delete, without_clauses};
ghost use Rattle.refute_check.specs.helpers.Checkers.{AreWithin};
ghost use Rattle.cnf_core.specs.Clauses.{is_within};

use crate::{CheckFault, Given, Kept, Left};
use cnf_core::Lit;
use std::alloc::AllocError;

/// The first fault of the hints of line `line`, taken in turn, from the given literals on.
pub fn hints_fault(
    line: u32,
    kept: &Kept,
    given: &mut Given,
    hints: &[u32],
) -> Result<Option<CheckFault>, AllocError>
    requires { AreWithin given.old.vars kept.now }
    ensures vars { given.new.vars ≡ given.old.vars }
    ensures fault { IfOk result (λ fault. fault ≡ hints_fault line kept.now given.old.literals hints.now) }
{
    for (place, hint) in hints.iter().enumerate() {
        let Some(clause) = kept.get(*hint) else {
            return Ok(Some(CheckFault::NoClause(line)));
        };
        match given.left(clause.literals()) {
            Left::Nothing => return Ok(conflict(line, place + 1 == hints.len())),
            Left::One(lit) => given.assume(lit)?,
            Left::More => return Ok(Some(CheckFault::Hint(line))),
        }
    }
    Ok(Some(CheckFault::NoConflict(line)))
}

/// The first fault of a line's hints if its clause is false. No literal is given before or after.
pub fn clause_fault(
    line: u32,
    kept: &Kept,
    given: &mut Given,
    clause: &[Lit],
    hints: &[u32],
) -> Result<Option<CheckFault>, AllocError>
    requires none { given.old.literals ≡ [] }
    requires clause { IsTrue (is_within given.old.vars clause.now) }
    requires kept { AreWithin given.old.vars kept.now }
    ensures vars { given.new.vars ≡ given.old.vars }
    ensures none { given.new.literals ≡ [] }
    ensures fault { IfOk result (λ fault. fault ≡ hints_fault line kept.now (map neg_ℤ clause.now) hints.now) }
{
    let fault = match given.assume_opposites(clause) {
        Ok(()) => hints_fault(line, kept, given, hints),
        Err(refused) => Err(refused),
    };
    given.clear();
    fault
}

/// The fault of a conflict, which only the last hint may have.
fn conflict(line: u32, is_last: bool) -> Option<CheckFault>
    ensures { result ≡ (if is_last then None else Some (CheckFault.Hint line)) }
{
    if is_last {
        None
    } else {
        Some(CheckFault::Hint(line))
    }
}

/// Deletes clauses one after the other until one isn't kept, and tells whether all were.
pub fn delete(kept: &mut Kept, numbers: &[u32]) -> bool
    ensures all { result ≡ can_delete kept.old numbers.now }
    ensures gone { IsTrue result → kept.new ≡ without_clauses kept.old numbers.now }
{
    for number in numbers {
        if !kept.remove(*number) {
            return false;
        }
    }
    true
}
