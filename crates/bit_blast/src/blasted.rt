//! A formula as clauses, and what answers about them mean.
ghost use Rattle.std.specs.Prelude.{◌≡◌, ◌<◌, ◌≤◌, ◌+◌, length, IfOk};
ghost use Rattle.std.specs.List.{All};
ghost use Rattle.cnf_core.specs.Clauses.{value_in};
ghost use Rattle.cnf_core.specs.declared.cnf.TheConstants.{LIMIT};
ghost use Rattle.order_formula.specs.Formulas.{IsOf};
ghost use Rattle.order_formula.specs.Orders.{ConjunctIsIn, IsOrder};
ghost use Rattle.bit_order.specs.Layouts.{base};
ghost use Rattle.bit_order.specs.Readings.{world_of};
ghost use Rattle.bit_blast.specs.Blasted.{blast, impossible, root_of};
ghost use Rattle.bit_blast.specs.Drafts.{DraftIsWithin, asserted};
ghost use Rattle.bit_blast.specs.Sizes.{IsUpTo, whole_size};

use crate::drafts::Draft;
use crate::roots::add_units;
use bit_order::Layout;
use cnf_core::{Assignment, Cnf};
use order_formula::{Formula, Order, World};
use std::alloc::{AllocError, Global};
use std::marker::Model;
use sym_terms::Terms;

/// The clauses of a formula over an order of events. Each model has a world in which the formula is
/// true, and each such world has a model.
///
/// Contracts see the layout, the clauses and the number of the formula's conjuncts.
#[derive(Debug, Drop)]
pub struct Blasted {
    layout: Layout,
    clauses: Cnf,
    conjuncts: usize,
}

impl Model for Blasted {
    ghost use Rattle.bit_blast.specs.Blasted.{Blasted as PlainBlasted};

    ghost Value = { PlainBlasted };

    ghost use Rattle.bit_blast.specs.helpers.Held.{blasted_of, IsHeld};

    ghost view = { blasted_of };

    ghost invariant = { IsHeld };
}

/// The clauses of a formula over terms, `loads` loads and an order that asks about all it uses.
///
/// Fails only if there is no memory. A law of `formula_sizes` says that logs within the limits fit.
pub fn blast(
    alloc: Global,
    terms: &Terms,
    formula: &Formula,
    order: Order,
    loads: u32,
) -> Result<Blasted, AllocError>
    requires terms { IsOf (length terms.now) formula.now }
    requires events { order.events ≤ 256 }
    requires within { All (ConjunctIsIn order) formula.now }
    requires room { whole_size (record { order = order; loads = loads }) terms.now formula.now < LIMIT }
    ensures blasted { IfOk result (λ blasted. blasted ≡ blast terms.now formula.now order loads) }
    ensures lawful { IfOk result (λ blasted. IsOrder blasted.layout.order) }
    ensures variables { IfOk result (λ blasted. 0 < blasted.clauses.vars) }
    ensures size { IfOk result (λ blasted. IsUpTo (whole_size (record { order = order; loads = loads }) terms.now formula.now) blasted.clauses) }
{
    Draft::new(alloc, terms, formula, order, loads)?.asserted()
}

impl Draft {
    /// Asserts the conjuncts: the last clauses, in order.
    pub fn asserted(self) -> Result<Blasted, AllocError>
        requires within { DraftIsWithin self }
        requires room { length self.clauses.clauses + length self.roots < LIMIT }
        ensures { IfOk result (λ blasted. blasted ≡ asserted self) }
    {
        let mut circuit = self.circuit;
        add_units(&mut circuit, self.roots.as_slice())?;
        Ok(Blasted {
            layout: self.layout,
            clauses: circuit.into_clauses(),
            conjuncts: self.roots.len(),
        })
    }
}

impl Blasted {
    /// The clauses of an impossible formula: only the empty clause, over no variables.
    pub fn impossible(alloc: Global) -> Result<Blasted, AllocError>
        ensures { IfOk result (λ blasted. blasted ≡ impossible) }
    {
        let (layout, _) = Layout::clauses(alloc, Order::empty(alloc, 0, 0), 0)?;
        let mut clauses = Cnf::new(alloc, 0);
        clauses.push(&[])?;
        Ok(Blasted {
            layout,
            clauses,
            conjuncts: 0,
        })
    }

    /// The layout.
    pub(crate) fn layout(&self) -> &Layout
        ensures { result.now ≡ self.now.layout }
    {
        &self.layout
    }

    /// The clauses.
    pub fn clauses(&self) -> &Cnf
        ensures { result.now ≡ self.now.clauses }
    {
        &self.clauses
    }

    /// The clauses, without an allocation.
    pub fn into_clauses(self) -> Cnf
        ensures { result ≡ self.clauses }
    {
        self.clauses
    }

    /// The layout and the clauses, without an allocation, so that a caller can add more clauses.
    pub fn into_parts(self) -> (Layout, Cnf)
        ensures layout { result.0 ≡ self.layout }
        ensures clauses { result.1 ≡ self.clauses }
        ensures few { self.layout.order.events ≤ 256 }
        ensures variables { 0 < self.clauses.vars → (base self.layout).vars ≤ self.clauses.vars }
    {
        (self.layout, self.clauses)
    }

    /// The index, from 0, of the clause that asserts a conjunct.
    pub fn root(&self, conjunct: usize) -> usize
        requires { conjunct < self.now.conjuncts }
        ensures root { result ≡ root_of self.now conjunct }
        ensures there { result < length self.now.clauses.clauses }
    {
        self.clauses.len() - self.conjuncts + conjunct
    }

    /// The world of an assignment. An impossible formula has no variables.
    pub fn world(&self, alloc: Global, assignment: &Assignment) -> Result<World, AllocError>
        requires variables { 0 < self.now.clauses.vars }
        requires values { self.now.clauses.vars ≤ length assignment.now }
        ensures { IfOk result (λ world. world ≡ world_of self.now.layout (value_in assignment.now)) }
    {
        self.layout.read_world(alloc, assignment)
    }
}
