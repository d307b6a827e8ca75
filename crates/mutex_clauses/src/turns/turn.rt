//! The clauses of one rank.
ghost use Rattle.std.specs.Prelude.{◌≡◌, ℕ, ◌<◌, ◌≤◌, ◌+◌, [], ◌∷◌, true, length, IfOk, OnOk};
ghost use Rattle.std.specs.List.{All};
ghost use Rattle.cnf_core.specs.Clauses.{var_of};
ghost use Rattle.cnf_core.specs.declared.cnf.TheConstants.{LIMIT};
ghost use Rattle.bit_gates.specs.Folded.{constant};
ghost use Rattle.bit_words.specs.Words.{AreWithin};
ghost use Rattle.bit_blast.specs.Reads.{with_clauses};
ghost use Rattle.mutex_clauses.specs.turns.Terms.{shape_clauses};
ghost use Rattle.mutex_clauses.specs.turns.Turns.{all_regions, all_shaped, among, each_clauses, is_open, leaves, literal_at, open_clauses, rank_clauses, region_clauses, rule_clauses, shaped_clauses, some_clause};
ghost use Rattle.mutex_clauses.specs.turns.helpers.Within.{IsTurnWithin, plain};

use crate::shapes::{Shape, Termed, TermedSteps};
use crate::turns::terms::{Both, literal_at};
use bit_gates::{Circuit, constant};
use bit_ops::Word;
use bit_order::add_clause;
use cnf_core::Lit;
use std::alloc::{AllocError, Global};

/// The literals and words around one rank, of what is given, of the regions, and of the rank's own.
#[derive(Clone, Copy)]
pub(crate) struct Turn<'given, 'regions, 'own> {
    /// The literal that all is in order.
    pub(crate) ordered: Lit,
    /// The word of each load.
    pub(crate) loads: &'given [Word],
    /// The literal of each conjunct.
    pub(crate) roots: &'given [Lit],
    /// The literals that each region has the rank.
    pub(crate) ranked: &'regions [Lit],
    /// The literals that the region of the rank has each shape.
    pub(crate) shaped: &'own [Lit],
    /// The words of the terms over the state before.
    pub(crate) words: &'own [Word],
    /// The state after.
    pub(crate) after: &'own [Word],
}

impl Turn<'_, '_, '_> {
    /// Adds all clauses of the rank.
    pub(crate) fn add_clauses(
        &self,
        alloc: Global,
        circuit: &mut Circuit,
        steps: &TermedSteps,
    ) -> Result<(), AllocError>
        requires within { IsTurnWithin circuit.old.vars self.now }
        requires room { length circuit.old.clauses
            + length (rank_clauses self.now.loads.now self.now.roots.now (plain self.now) steps.now) < LIMIT }
        ensures formula { OnOk result (circuit.new ≡ with_clauses circuit.old
            (rank_clauses self.now.loads.now self.now.roots.now (plain self.now) steps.now)) }
        ensures vars { OnOk result (circuit.new.vars ≡ circuit.old.vars) }
    {
        let regions = steps.steps.as_slice();
        let shapes = steps.shapes.as_slice();
        self.add_shapes(alloc, circuit, regions, shapes)?;
        self.add_some(alloc, circuit, regions)?;
        self.add_regions(alloc, circuit, regions)
    }

    /// Adds the clauses of all shapes.
    fn add_shapes(
        &self,
        alloc: Global,
        circuit: &mut Circuit,
        steps: &[Termed],
        shapes: &[Shape],
    ) -> Result<(), AllocError>
        requires within { IsTurnWithin circuit.old.vars self.now }
        requires room { length circuit.old.clauses
            + length (all_shaped self.now.loads.now self.now.roots.now (plain self.now) steps.now shapes.now) < LIMIT }
        ensures formula { OnOk result (circuit.new ≡ with_clauses circuit.old
            (all_shaped self.now.loads.now self.now.roots.now (plain self.now) steps.now shapes.now)) }
        ensures vars { OnOk result (circuit.new.vars ≡ circuit.old.vars) }
    {
        for (number, shape) in shapes.iter().enumerate() {
            self.add_shaped(alloc, circuit, steps, number, shape)?;
        }
        Ok(())
    }

    /// Adds the clauses of a shape: its literal's rule, and what regions of the shape leave.
    fn add_shaped(
        &self,
        alloc: Global,
        circuit: &mut Circuit,
        steps: &[Termed],
        number: usize,
        shape: &Shape,
    ) -> Result<(), AllocError>
        requires within { IsTurnWithin circuit.old.vars self.now }
        requires room { length circuit.old.clauses
            + length (shaped_clauses self.now.loads.now self.now.roots.now (plain self.now) steps.now number shape.now) < LIMIT }
        ensures formula { OnOk result (circuit.new ≡ with_clauses circuit.old
            (shaped_clauses self.now.loads.now self.now.roots.now (plain self.now) steps.now number shape.now)) }
        ensures vars { OnOk result (circuit.new.vars ≡ circuit.old.vars) }
    {
        let _one = circuit.vars();
        let shaped = literal_at(self.shaped, number);
        let ranked = leaving(alloc, self.ranked, steps, shape)?;
        add_rule(alloc, circuit, self.ordered, shaped, ranked.as_slice())?;
        let both = Both {
            first: shaped,
            second: constant(true),
            terms: self.words,
        };
        both.add_shape(alloc, circuit, self.after, shape.terms.as_slice())
    }

    /// Adds the clause: if all is in order, the region of the rank has one of the shapes, or none.
    fn add_some(
        &self,
        alloc: Global,
        circuit: &mut Circuit,
        steps: &[Termed],
    ) -> Result<(), AllocError>
        requires within { IsTurnWithin circuit.old.vars self.now }
        requires room { length circuit.old.clauses + 1 < LIMIT }
        ensures formula { OnOk result (circuit.new ≡ with_clauses circuit.old
            (some_clause self.now.loads.now self.now.roots.now (plain self.now) steps.now ∷ [])) }
        ensures vars { OnOk result (circuit.new.vars ≡ circuit.old.vars) }
    {
        let _one = circuit.vars();
        let open = opens(alloc, self.ranked, steps)?;
        let mut others = Vec::new(alloc);
        others.extend_from_slice(self.shaped)?;
        others.extend_from_slice(open.as_slice())?;
        add_any(alloc, circuit, self.ordered.opposite(), others.as_slice())
    }

    /// Adds the clauses of all regions.
    fn add_regions(
        &self,
        alloc: Global,
        circuit: &mut Circuit,
        steps: &[Termed],
    ) -> Result<(), AllocError>
        requires within { IsTurnWithin circuit.old.vars self.now }
        requires room { length circuit.old.clauses
            + length (all_regions self.now.loads.now self.now.roots.now (plain self.now) steps.now) < LIMIT }
        ensures formula { OnOk result (circuit.new ≡ with_clauses circuit.old
            (all_regions self.now.loads.now self.now.roots.now (plain self.now) steps.now)) }
        ensures vars { OnOk result (circuit.new.vars ≡ circuit.old.vars) }
    {
        for (region, step) in steps.iter().enumerate() {
            self.add_region(alloc, circuit, region, step)?;
        }
        Ok(())
    }

    /// Adds the clauses of a region: what it leaves if it has no shape, its loads, and its tests.
    fn add_region(
        &self,
        alloc: Global,
        circuit: &mut Circuit,
        region: usize,
        step: &Termed,
    ) -> Result<(), AllocError>
        requires within { IsTurnWithin circuit.old.vars self.now }
        requires room { length circuit.old.clauses
            + length (region_clauses self.now.loads.now self.now.roots.now (plain self.now) region step.now) < LIMIT }
        ensures formula { OnOk result (circuit.new ≡ with_clauses circuit.old
            (region_clauses self.now.loads.now self.now.roots.now (plain self.now) region step.now)) }
        ensures vars { OnOk result (circuit.new.vars ≡ circuit.old.vars) }
    {
        let _one = circuit.vars();
        let both = Both {
            first: self.ordered,
            second: literal_at(self.ranked, region),
            terms: self.words,
        };
        add_open(alloc, circuit, &both, self.after, step)?;
        both.add_loads(alloc, circuit, self.loads, step.loads.as_slice())?;
        both.add_tests(alloc, circuit, self.roots, step.tests.as_slice())
    }
}

/// Adds clauses: a region without a shape leaves the terms that it has in the cells.
fn add_open(
    alloc: Global,
    circuit: &mut Circuit,
    both: &Both<'_>,
    after: &[Word],
    step: &Termed,
) -> Result<(), AllocError>
    requires first { var_of both.now.first ≤ circuit.old.vars }
    requires second { var_of both.now.second ≤ circuit.old.vars }
    requires terms { All (AreWithin circuit.old.vars) both.now.terms.now }
    requires after { All (AreWithin circuit.old.vars) after.now }
    requires room { length circuit.old.clauses
        + length (open_clauses both.now.first both.now.second both.now.terms.now after.now step.now) < LIMIT }
    ensures formula { OnOk result (circuit.new ≡ with_clauses circuit.old
        (open_clauses both.now.first both.now.second both.now.terms.now after.now step.now)) }
    ensures vars { OnOk result (circuit.new.vars ≡ circuit.old.vars) }
{
    if step.is_closed {
        return Ok(());
    }
    both.add_cells(alloc, circuit, after, step.cells.as_slice())
}

/// Adds clauses: the literal of a shape is true exactly if all is in order and one of the regions of
/// the shape has the rank.
fn add_rule(
    alloc: Global,
    circuit: &mut Circuit,
    ordered: Lit,
    shaped: Lit,
    ranked: &[Lit],
) -> Result<(), AllocError>
    requires ordered { var_of ordered ≤ circuit.old.vars }
    requires shaped { var_of shaped ≤ circuit.old.vars }
    requires ranked { AreWithin circuit.old.vars ranked.now }
    requires room { length circuit.old.clauses + length ranked.now + 2 < LIMIT }
    ensures formula { OnOk result (circuit.new ≡ with_clauses circuit.old (rule_clauses ordered shaped ranked.now)) }
    ensures vars { OnOk result (circuit.new.vars ≡ circuit.old.vars) }
{
    let no = shaped.opposite();
    add_clause(alloc, circuit, &[no, ordered])?;
    add_any(alloc, circuit, no, ranked)?;
    add_each(alloc, circuit, ordered, shaped, ranked)
}

/// Adds the clause: a literal is true, or one of some others is.
fn add_any(
    alloc: Global,
    circuit: &mut Circuit,
    literal: Lit,
    others: &[Lit],
) -> Result<(), AllocError>
    requires literal { var_of literal ≤ circuit.old.vars }
    requires others { AreWithin circuit.old.vars others.now }
    requires room { length circuit.old.clauses + 1 < LIMIT }
    ensures formula { OnOk result (circuit.new ≡ with_clauses circuit.old ((literal ∷ others.now) ∷ [])) }
    ensures vars { OnOk result (circuit.new.vars ≡ circuit.old.vars) }
    ensures few { OnOk result (length circuit.new.clauses ≤ length circuit.old.clauses + 1) }
{
    let mut clause = Vec::new(alloc);
    clause.push(literal)?;
    clause.extend_from_slice(others)?;
    add_clause(alloc, circuit, clause.as_slice())
}

/// Adds clauses: if all is in order, and one of some literals is true, so is that of a shape.
fn add_each(
    alloc: Global,
    circuit: &mut Circuit,
    ordered: Lit,
    shaped: Lit,
    ranked: &[Lit],
) -> Result<(), AllocError>
    requires ordered { var_of ordered ≤ circuit.old.vars }
    requires shaped { var_of shaped ≤ circuit.old.vars }
    requires ranked { AreWithin circuit.old.vars ranked.now }
    requires room { length circuit.old.clauses + length ranked.now < LIMIT }
    ensures formula { OnOk result (circuit.new ≡ with_clauses circuit.old (each_clauses ordered shaped ranked.now)) }
    ensures vars { OnOk result (circuit.new.vars ≡ circuit.old.vars) }
{
    for literal in ranked {
        add_clause(
            alloc,
            circuit,
            &[ordered.opposite(), literal.opposite(), shaped],
        )?;
    }
    Ok(())
}

/// The literals of the rank of the regions that have a shape.
fn leaving(
    alloc: Global,
    ranked: &[Lit],
    steps: &[Termed],
    shape: &Shape,
) -> Result<Vec<Lit>, AllocError>
    ensures { IfOk result (λ v. v.items ≡ among ranked.now (leaves shape.now) steps.now) }
{
    let mut literals = Vec::new(alloc);
    for (region, step) in steps.iter().enumerate() {
        if step.has_shape(shape) {
            literals.push(literal_at(ranked, region))?;
        }
    }
    Ok(literals)
}

/// The literals of the rank of the regions that have no shape.
fn opens(alloc: Global, ranked: &[Lit], steps: &[Termed]) -> Result<Vec<Lit>, AllocError>
    ensures { IfOk result (λ v. v.items ≡ among ranked.now is_open steps.now) }
{
    let mut literals = Vec::new(alloc);
    for (region, step) in steps.iter().enumerate() {
        if !step.is_closed {
            literals.push(literal_at(ranked, region))?;
        }
    }
    Ok(literals)
}
