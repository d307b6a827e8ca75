//! Which clauses of a formula a derivation uses.

ghost use Rattle.std.specs.Prelude.{◌≡◌, ◌<◌, ◌≤◌, length, map, IfOk};
ghost use Rattle.std.specs.List.{All};
ghost use Rattle.refute_check.specs.Refutations.{IsClosed};
ghost use Rattle.why_impossible.specs.refute_core.Laws.{ReachedAreUnsatisfiable};
ghost use Rattle.why_impossible.specs.refute_core.Reached.{AreReached, hints_used};
ghost use Rattle.why_impossible.specs.refute_core.helpers.Marks.{AreMarked};

use cnf_core::Cnf;
use refute_check::{Derivation, Line, Numbers};
use std::alloc::{AllocError, Global};

/// The clauses of a formula that a closed derivation reaches are unsatisfiable.
pub fn reached_are_unsatisfiable()
    ensures { ReachedAreUnsatisfiable }
{}

/// Whether a closed derivation reaches each clause of a formula, in order. Takes one pass,
/// backwards from the first empty clause.
pub fn reached(alloc: Global, cnf: &Cnf, derivation: &Derivation) -> Result<Vec<bool>, AllocError>
    requires { IsClosed cnf.now derivation.now }
    ensures { IfOk result (λ marks. AreReached cnf.now derivation.now marks.items) }
{
    let hints = hints_used(alloc, derivation.lines())?;
    let size = cnf.len();
    let mut marks = vec![in alloc; false; size + hints.len()]?;
    marks[size + hints.len() - 1] = true;
    for place in (0..hints.len()).rev() {
        if marks[size + place] {
            mark(&mut marks, hints[place].as_slice());
        }
    }
    marks.truncate(size);
    Ok(marks)
}

/// The hints of the added clauses, in order, up to the first empty clause.
fn hints_used(alloc: Global, lines: &[Line]) -> Result<Vec<&Numbers>, AllocError>
    ensures { IfOk result (λ hints. map (λ h. h.now) hints.items ≡ hints_used lines.now) }
{
    let mut hints = Vec::new(alloc);
    for line in lines {
        if let Line::Add(clause, numbers) = line {
            hints.push(numbers)?;
            if clause.literals().is_empty() {
                break;
            }
        }
    }
    Ok(hints)
}

/// Marks the clauses with these numbers, which count from 1.
fn mark(marks: &mut [bool], numbers: &[u32])
    requires { All (λ n. (0 < n) × (n ≤ length marks.old)) numbers.now }
    ensures { AreMarked marks.old numbers.now marks.new }
{
    for number in numbers {
        marks[*number as usize - 1] = true;
    }
}
