//! The roots: the literals of all conjuncts, and the clauses that assert them.
ghost use Rattle.std.specs.Prelude.{◌≡◌, ◌<◌, ◌≤◌, ◌+◌, ◌++◌, [], ◌∷◌, map, length, IfOk, OnOk};
ghost use Rattle.cnf_core.specs.Clauses.{var_of};
ghost use Rattle.cnf_core.specs.declared.cnf.TheConstants.{LIMIT};
ghost use Rattle.bit_gates.specs.Folded.{HasRoom, IsLarger};
ghost use Rattle.bit_ops.specs.bit_words.Words.{AreWithin};
ghost use Rattle.order_formula.specs.Formulas.{BodyIsOf, IsOf};
ghost use Rattle.bit_blast.specs.Layered.{parts_of};
ghost use Rattle.bit_blast.specs.Roots.{body_made, roots};
ghost use Rattle.bit_blast.specs.Sizes.{body_size, bodies_size};
ghost use Rattle.bit_blast.specs.helpers.Within.{ArePartsWithin};

use crate::cases::some_case;
use crate::reads::read_literal;
use bit_gates::Circuit;
use bit_ops::Word;
use bit_order::Layout;
use cnf_core::Lit;
use order_formula::{Body, Formula};
use std::alloc::{AllocError, Global};

/// The literals of all conjuncts, in order.
pub(crate) fn roots(
    alloc: Global,
    circuit: &mut Circuit,
    layout: &Layout,
    words: &[Word],
    formula: &Formula,
) -> Result<Vec<Lit>, AllocError>
    requires parts { ArePartsWithin circuit.old.vars (parts_of layout.now words.now) }
    requires terms { IsOf (length words.now) formula.now }
    requires room { HasRoom (bodies_size formula.now) circuit.old }
    ensures literals { IfOk result (λ v. v.items ≡ (roots (parts_of layout.now words.now) circuit.old formula.now).word) }
    ensures formula { OnOk result (circuit.new ≡ (roots (parts_of layout.now words.now) circuit.old formula.now).state) }
    ensures count { IfOk result (λ v. length v.items ≡ length formula.now) }
    ensures within { IfOk result (λ v. AreWithin circuit.new.vars v.items) }
    ensures larger { OnOk result (IsLarger (bodies_size formula.now) circuit.old circuit.new) }
{
    let mut roots = Vec::new(alloc);
    for conjunct in formula.conjuncts() {
        let root = body_literal(alloc, circuit, layout, words, &conjunct.body)?;
        roots.push(root)?;
    }
    Ok(roots)
}

fn body_literal(
    alloc: Global,
    circuit: &mut Circuit,
    layout: &Layout,
    words: &[Word],
    body: &Body,
) -> Result<Lit, AllocError>
    requires parts { ArePartsWithin circuit.old.vars (parts_of layout.now words.now) }
    requires terms { BodyIsOf (length words.now) body.now }
    requires room { HasRoom (body_size body.now) circuit.old }
    ensures literal { IfOk result (λ l. l ≡ (body_made (parts_of layout.now words.now) circuit.old body.now).literal) }
    ensures formula { OnOk result (circuit.new ≡ (body_made (parts_of layout.now words.now) circuit.old body.now).formula) }
    ensures within { IfOk result (λ l. var_of l ≤ circuit.new.vars) }
    ensures larger { OnOk result (IsLarger (body_size body.now) circuit.old circuit.new) }
{
    match body {
        Body::Any(cases) => some_case(circuit, layout, words, cases.as_slice()),
        Body::Read(read) => read_literal(alloc, circuit, layout, words, read),
    }
}

/// Adds a clause for each literal that asserts it.
pub(crate) fn add_units(circuit: &mut Circuit, literals: &[Lit]) -> Result<(), AllocError>
    requires literals { AreWithin circuit.old.vars literals.now }
    requires room { length circuit.old.clauses + length literals.now < LIMIT }
    ensures vars { OnOk result (circuit.new.vars ≡ circuit.old.vars) }
    ensures clauses { OnOk result (circuit.new.clauses ≡ circuit.old.clauses ++ map (λ l. l ∷ []) literals.now) }
{
    for literal in literals {
        add_unit(circuit, *literal)?;
    }
    Ok(())
}

fn add_unit(circuit: &mut Circuit, literal: Lit) -> Result<(), AllocError>
    requires literal { var_of literal ≤ circuit.old.vars }
    requires room { length circuit.old.clauses + 1 < LIMIT }
    ensures vars { OnOk result (circuit.new.vars ≡ circuit.old.vars) }
    ensures clauses { OnOk result (circuit.new.clauses ≡ circuit.old.clauses ++ (literal ∷ []) ∷ []) }
{
    let _positive = literal.var();
    circuit.push(&[literal])
}
