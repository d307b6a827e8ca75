//! The groups of conjuncts whose clauses a derivation reaches.
ghost use Rattle.std.specs.Prelude.{◌≡◌, ◌≤◌, length, IfOk, OnOk};
ghost use Rattle.refute_check.specs.Refutations.{IsClosed};
ghost use Rattle.why_impossible.specs.reached_groups.Groups.{AreReachedGroups};
ghost use Rattle.why_impossible.specs.reached_groups.helpers.Marked.{marked_from};

use crate::reached_groups::order::put_in_order;
use crate::refute_core::reached;
use bit_blast::Blasted;
use order_formula::{Formula, Group};
use refute_check::Derivation;
use std::alloc::{AllocError, Global};

/// The groups of a formula's conjuncts whose clauses a closed derivation reaches, each once, in
/// order: thread orders, children, loads, mutexes, conditions, tests, stuck threads; within a kind
/// by thread or number, and then by line.
///
/// No world makes all their conjuncts true: [`groups_bind`](crate::reached_groups::laws::groups_bind).
pub fn reached_groups(
    alloc: Global,
    formula: &Formula,
    blasted: &Blasted,
    derivation: &Derivation,
) -> Result<Vec<Group>, AllocError>
    requires closed { IsClosed blasted.now.clauses derivation.now }
    requires conjuncts { blasted.now.conjuncts ≡ length formula.now }
    ensures { IfOk result (λ groups. AreReachedGroups formula.now blasted.now derivation.now groups.items) }
{
    let marks = reached(alloc, blasted.clauses(), derivation)?;
    let mut groups = marked_groups(alloc, formula, blasted, marks.as_slice())?;
    put_in_order(&mut groups);
    Ok(groups)
}

/// The group of each conjunct whose clause is marked, in the order of the conjuncts.
fn marked_groups(
    alloc: Global,
    formula: &Formula,
    blasted: &Blasted,
    marks: &[bool],
) -> Result<Vec<Group>, AllocError>
    requires conjuncts { blasted.now.conjuncts ≡ length formula.now }
    requires marks { length marks.now ≡ length blasted.now.clauses.clauses }
    ensures marked { IfOk result (λ groups. groups.items ≡ marked_from blasted.now marks.now 0 formula.now) }
    ensures fit { OnOk result (length formula.now ≤ length blasted.now.clauses.clauses) }
{
    let mut groups = Vec::new(alloc);
    let conjuncts = formula.conjuncts();
    for number in 0..conjuncts.len() {
        if marks[blasted.root(number)] {
            groups.push(conjuncts[number].group)?;
        }
    }
    Ok(groups)
}
