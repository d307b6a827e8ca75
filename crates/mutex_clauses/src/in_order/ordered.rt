//! The literal that all is in order in the regions of a mutex.
ghost use Rattle.std.specs.Prelude.{◌≡◌, ℕ, ◌≤◌, ◌*◌, length, IfOk, OnOk};
ghost use Rattle.std.specs.List.{All};
ghost use Rattle.sym_exec.specs.Executed.{Symbolic};
ghost use Rattle.cnf_core.specs.Clauses.{var_of};
ghost use Rattle.order_events.specs.lawful_order.Events.{all_events};
ghost use Rattle.bit_gates.specs.Folded.{HasRoom, IsLarger, kept};
ghost use Rattle.bit_words.specs.Words.{AreWithin};
ghost use Rattle.bit_order.specs.Comparators.{before_literal};
ghost use Rattle.bit_blast.specs.Drafts.{Draft};
ghost use Rattle.mutex_states.specs.InOrder.{in_order_made};
ghost use Rattle.mutex_clauses.specs.in_order.Given.{HasLists, HasParts, size_of};
ghost use Rattle.mutex_clauses.specs.in_order.helpers.Listed as listed;

use crate::in_order::literals::{literals_of, used_of};
use crate::literals::Literals;
use bit_gates::Circuit;
use bit_ops::Word;
use bit_terms::{constant_word, word_at};
use bit_words::compare;
use cnf_core::Lit;
use mutex_regions::Variable;
use order_events::Placed;
use path_walk::Region;
use std::alloc::{AllocError, Global};
use sym_exec::{Access, Cell};

/// The literal that all is in order in the regions of a mutex.
pub fn in_order(
    alloc: Global,
    circuit: &mut Circuit,
    draft: &Literals<'_>,
    mutex: u32,
    regions: &[Placed<Region>],
    variables: &[Variable],
    accesses: &[Placed<Access>],
) -> Result<Lit, AllocError>
    requires events { draft.now.events.now ≡ all_events draft.now.paths.now }
    requires before { (first second : ℕ) → var_of (before_literal draft.now.layout.now first second) ≤ circuit.old.vars }
    requires words { All (AreWithin circuit.old.vars) draft.now.words.now }
    requires roots { AreWithin circuit.old.vars draft.now.roots.now }
    requires room { HasRoom (size_of draft.now.conjuncts.now mutex regions.now variables.now accesses.now) circuit.old }
    ensures literal { IfOk result (λ l. (symbolic : Symbolic) (d : Draft)
        → HasLists draft.now.paths.now symbolic mutex regions.now variables.now accesses.now
        → HasParts d draft.now.layout.now draft.now.words.now draft.now.roots.now
        → l ≡ (in_order_made draft.now.paths.now symbolic draft.now.conjuncts.now d mutex circuit.old).literal) }
    ensures formula { OnOk result ((symbolic : Symbolic) (d : Draft)
        → HasLists draft.now.paths.now symbolic mutex regions.now variables.now accesses.now
        → HasParts d draft.now.layout.now draft.now.words.now draft.now.roots.now
        → circuit.new ≡ (in_order_made draft.now.paths.now symbolic draft.now.conjuncts.now d mutex circuit.old).formula) }
    ensures within { IfOk result (λ l. var_of l ≤ circuit.new.vars) }
    ensures larger { OnOk result (IsLarger (size_of draft.now.conjuncts.now mutex regions.now variables.now accesses.now)
        circuit.old circuit.new) }
{
    let literals = literals_of(alloc, draft, mutex, regions, variables, accesses)?;
    let used = used_of(alloc, regions, variables, accesses)?;
    let first = circuit.constant(true);
    let all = and_all(circuit, first, literals.as_slice())?;
    and_ranges(circuit, draft.words, all, used.as_slice())
}

/// All of a literal and some others.
fn and_all(circuit: &mut Circuit, first: Lit, literals: &[Lit]) -> Result<Lit, AllocError>
    requires first { var_of first ≤ circuit.old.vars }
    requires literals { AreWithin circuit.old.vars literals.now }
    requires room { HasRoom (3 * length literals.now) circuit.old }
    ensures literal { IfOk result (λ l. l ≡ (listed.all_of circuit.old first literals.now).literal) }
    ensures formula { OnOk result (circuit.new ≡ (listed.all_of circuit.old first literals.now).formula) }
    ensures within { IfOk result (λ l. var_of l ≤ circuit.new.vars) }
    ensures larger { OnOk result (IsLarger (3 * length literals.now) circuit.old circuit.new) }
{
    let mut all = first;
    for literal in literals {
        all = circuit.and(all, *literal)?;
    }
    Ok(all)
}

/// A literal, and that the indexes of accesses are in range.
fn and_ranges(
    circuit: &mut Circuit,
    words: &[Word],
    first: Lit,
    accesses: &[Placed<Access>],
) -> Result<Lit, AllocError>
    requires first { var_of first ≤ circuit.old.vars }
    requires words { All (AreWithin circuit.old.vars) words.now }
    requires room { HasRoom (387 * length accesses.now) circuit.old }
    ensures literal { IfOk result (λ l. l ≡ (listed.with_ranges words.now (kept circuit.old first) accesses.now).literal) }
    ensures formula { OnOk result (circuit.new ≡ (listed.with_ranges words.now (kept circuit.old first) accesses.now).formula) }
    ensures within { IfOk result (λ l. var_of l ≤ circuit.new.vars) }
    ensures larger { OnOk result (IsLarger (387 * length accesses.now) circuit.old circuit.new) }
{
    let mut all = first;
    for access in accesses {
        all = and_in_range(circuit, words, all, access.it.cell)?;
    }
    Ok(all)
}

/// A literal, and that the index of a cell is in range.
fn and_in_range(
    circuit: &mut Circuit,
    words: &[Word],
    all: Lit,
    cell: Cell,
) -> Result<Lit, AllocError>
    requires all { var_of all ≤ circuit.old.vars }
    requires words { All (AreWithin circuit.old.vars) words.now }
    requires room { HasRoom 387 circuit.old }
    ensures literal { IfOk result (λ l. l ≡ (listed.with_range words.now (kept circuit.old all) cell).literal) }
    ensures formula { OnOk result (circuit.new ≡ (listed.with_range words.now (kept circuit.old all) cell).formula) }
    ensures within { IfOk result (λ l. var_of l ≤ circuit.new.vars) }
    ensures larger { OnOk result (IsLarger 387 circuit.old circuit.new) }
{
    match cell {
        Cell::Fixed(_) => Ok(all),
        Cell::Element { length, index, .. } => {
            let word = word_at(words, index.place());
            let low = circuit.constant(false);
            let below = compare(circuit, low, &word, &constant_word(length.cast_signed()))?;
            circuit.and(all, below)
        }
    }
}
