//! The circuits of conjuncts that have cases.
ghost use Rattle.std.specs.Prelude.{◌≡◌, ◌≤◌, length, sum_by, IfOk, OnOk};
ghost use Rattle.std.specs.List.{All};
ghost use Rattle.cnf_core.specs.Clauses.{var_of};
ghost use Rattle.bit_gates.specs.Folded.{HasRoom, IsLarger};
ghost use Rattle.order_formula.specs.Formulas.{AtomIsOf, LiteralIsOf};
ghost use Rattle.bit_blast.specs.Cases.{atom_made, literal_made, case_made, cases_made};
ghost use Rattle.bit_blast.specs.Layered.{parts_of};
ghost use Rattle.bit_blast.specs.Sizes.{atom_size, literal_size, case_size};
ghost use Rattle.bit_blast.specs.helpers.Within.{ArePartsWithin};

use bit_gates::Circuit;
use bit_ops::Word;
use bit_order::Layout;
use bit_terms::nonzero;
use cnf_core::Lit;
use order_formula::{Atom, Case, Literal};
use std::alloc::AllocError;

/// The disjunction of the cases.
pub(crate) fn some_case(
    circuit: &mut Circuit,
    layout: &Layout,
    words: &[Word],
    cases: &[Case],
) -> Result<Lit, AllocError>
    requires parts { ArePartsWithin circuit.old.vars (parts_of layout.now words.now) }
    requires terms { All (All (LiteralIsOf (length words.now))) cases.now }
    requires room { HasRoom (sum_by case_size cases.now) circuit.old }
    ensures literal { IfOk result (λ l. l ≡ (cases_made (parts_of layout.now words.now) circuit.old cases.now).literal) }
    ensures formula { OnOk result (circuit.new ≡ (cases_made (parts_of layout.now words.now) circuit.old cases.now).formula) }
    ensures within { IfOk result (λ l. var_of l ≤ circuit.new.vars) }
    ensures larger { OnOk result (IsLarger (sum_by case_size cases.now) circuit.old circuit.new) }
{
    let mut some = circuit.constant(false);
    for case in cases {
        let here = whole_case(circuit, layout, words, case.literals())?;
        some = circuit.or(some, here)?;
    }
    Ok(some)
}

/// The conjunction of the literals of a case.
fn whole_case(
    circuit: &mut Circuit,
    layout: &Layout,
    words: &[Word],
    literals: &[Literal],
) -> Result<Lit, AllocError>
    requires parts { ArePartsWithin circuit.old.vars (parts_of layout.now words.now) }
    requires terms { All (LiteralIsOf (length words.now)) literals.now }
    requires room { HasRoom (sum_by literal_size literals.now) circuit.old }
    ensures literal { IfOk result (λ l. l ≡ (case_made (parts_of layout.now words.now) circuit.old literals.now).literal) }
    ensures formula { OnOk result (circuit.new ≡ (case_made (parts_of layout.now words.now) circuit.old literals.now).formula) }
    ensures within { IfOk result (λ l. var_of l ≤ circuit.new.vars) }
    ensures larger { OnOk result (IsLarger (sum_by literal_size literals.now) circuit.old circuit.new) }
{
    let mut all = circuit.constant(true);
    for literal in literals {
        let here = literal_of(circuit, layout, words, *literal)?;
        all = circuit.and(all, here)?;
    }
    Ok(all)
}

fn literal_of(
    circuit: &mut Circuit,
    layout: &Layout,
    words: &[Word],
    literal: Literal,
) -> Result<Lit, AllocError>
    requires parts { ArePartsWithin circuit.old.vars (parts_of layout.now words.now) }
    requires terms { LiteralIsOf (length words.now) literal }
    requires room { HasRoom (atom_size literal.atom) circuit.old }
    ensures literal { IfOk result (λ l. l ≡ (literal_made (parts_of layout.now words.now) circuit.old literal).literal) }
    ensures formula { OnOk result (circuit.new ≡ (literal_made (parts_of layout.now words.now) circuit.old literal).formula) }
    ensures within { IfOk result (λ l. var_of l ≤ circuit.new.vars) }
    ensures larger { OnOk result (IsLarger (atom_size literal.atom) circuit.old circuit.new) }
{
    let here = atom(circuit, layout, words, literal.atom)?;
    Ok(if literal.wanted {
        here
    } else {
        here.opposite()
    })
}

fn atom(
    circuit: &mut Circuit,
    layout: &Layout,
    words: &[Word],
    atom: Atom,
) -> Result<Lit, AllocError>
    requires parts { ArePartsWithin circuit.old.vars (parts_of layout.now words.now) }
    requires terms { AtomIsOf (length words.now) atom }
    requires room { HasRoom (atom_size atom) circuit.old }
    ensures literal { IfOk result (λ l. l ≡ (atom_made (parts_of layout.now words.now) circuit.old atom).literal) }
    ensures formula { OnOk result (circuit.new ≡ (atom_made (parts_of layout.now words.now) circuit.old atom).formula) }
    ensures within { IfOk result (λ l. var_of l ≤ circuit.new.vars) }
    ensures larger { OnOk result (IsLarger (atom_size atom) circuit.old circuit.new) }
{
    match atom {
        Atom::Before { first, second } => Ok(layout.before(first, second)),
        Atom::Ends { sleep, by } => Ok(layout.ends(sleep, by)),
        Atom::Test(term) => nonzero(circuit, &words[term.place()]),
    }
}
