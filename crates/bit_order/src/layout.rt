//! How an order is laid out in variables.
ghost use Rattle.std.specs.Prelude.{◌≡◌, ◌<◌, ◌≤◌, ◌+◌, ◌-◌, ◌*◌, ◌++◌, length, IfOk, OnOk, IfSome};
ghost use Rattle.std.specs.List.{flat_map, range_with_len};
ghost use Rattle.cnf_core.specs.Clauses.{var_of};
ghost use Rattle.cnf_core.specs.declared.cnf.TheConstants.{LIMIT};
ghost use Rattle.bit_words.specs.Words.{AreWithin};
ghost use Rattle.order_formula.specs.Orders.{IsOrder};
ghost use Rattle.bit_order.specs.Layouts.{base};
ghost use Rattle.bit_order.specs.Comparators.{clauses_of_three, where_asked, size_of};
ghost use Rattle.bit_order.specs.helpers.Asked.{asked_size};

use crate::add_clause;
use crate::choices::exclude;
use crate::pairs::compare_pairs;
use crate::words::word_from;
use bit_gates::{Circuit, constant};
use cnf_core::Lit;
use order_formula::{Order, Pair};
use std::alloc::{AllocError, Global};
use std::marker::Model;

/// The variables of an order, its pairs and choices, and its loads. Contracts see order and loads.
#[derive(Debug, Drop)]
pub struct Layout {
    order: Order,
    loads: u32,
    comparators: Vec<Lit>,
}

impl Model for Layout {
    ghost use Rattle.bit_order.specs.Layouts.{Layout as PlainLayout};

    ghost Value = { PlainLayout };

    ghost use Rattle.bit_order.specs.helpers.Held.{layout_of, IsHeld};

    ghost view = { layout_of };

    ghost invariant = { IsHeld };
}

/// The formula before any gate: its variables, variable 1 is true, and the exclusions.
fn base(alloc: Global, order: &Order, loads: u32) -> Result<Circuit, AllocError>
    requires lawful { IsOrder order.now }
    requires small { asked_size (record { order = order.now; loads = loads }) < LIMIT }
    ensures formula { IfOk result (λ circuit. circuit ≡ base (record { order = order.now; loads = loads })) }
    ensures few { IfOk result (λ circuit. length circuit.clauses ≤ 1 + length order.now.choices * order.now.events) }
{
    let start = 2 + 8 * order.events() + 32 * loads;
    let choices = order.choices();
    let mut circuit = Circuit::new(alloc, start + choices.len() as u32 - 1)?;
    exclude(&mut circuit, start, order)?;
    Ok(circuit)
}

impl Layout {
    ghost use Rattle.bit_order.specs.Layouts.{load_start, load_word, choice_start, choice_literal, ends_literal};
    ghost use Rattle.bit_order.specs.Comparators.{comparators, comparator, before_literal, transitive, transitivity, ordered};

    /// The clauses of an order with its pairs and choices, and of `loads` loads; and its layout.
    pub fn clauses(alloc: Global, order: Order, loads: u32) -> Result<(Layout, Circuit), AllocError>
        requires { size_of (record { order = order; loads = loads }) < LIMIT }
        ensures layout { IfOk result (λ made. made.0 ≡ record { order = order; loads = loads }) }
        ensures formula { IfOk result (λ made. made.1 ≡ ordered (record { order = order; loads = loads })) }
        ensures lawful { IfOk result (λ made. IsOrder made.0.order) }
        ensures variables { IfOk result (λ made. made.1.vars ≤ size_of made.0) }
        ensures few { IfOk result (λ made. length made.1.clauses ≤ size_of made.0) }
    {
        let _asked = order.pairs();
        Layout::add_clauses(alloc, order, loads)
    }

    /// The same, for an order whose pairs and choices are within the limit.
    fn add_clauses(alloc: Global, order: Order, loads: u32) -> Result<(Layout, Circuit), AllocError>
        requires small { size_of (record { order = order; loads = loads }) < LIMIT }
        requires asked { asked_size (record { order = order; loads = loads }) ≤ size_of (record { order = order; loads = loads }) }
        ensures layout { IfOk result (λ made. made.0 ≡ record { order = order; loads = loads }) }
        ensures formula { IfOk result (λ made. made.1 ≡ ordered (record { order = order; loads = loads })) }
        ensures lawful { IfOk result (λ made. IsOrder made.0.order) }
        ensures variables { IfOk result (λ made. made.1.vars ≤ size_of made.0) }
        ensures few { IfOk result (λ made. length made.1.clauses ≤ size_of made.0) }
    {
        let pairs = order.pairs();
        let mut circuit = base(alloc, &order, loads)?;
        let comparators = compare_pairs(alloc, &mut circuit, pairs)?;
        let layout = Layout {
            order,
            loads,
            comparators,
        };
        layout.add_transitivity(alloc, &mut circuit)?;
        Ok((layout, circuit))
    }

    /// The order.
    pub fn order(&self) -> &Order
        ensures order { result.now ≡ self.now.order }
        ensures small { size_of self.now < LIMIT }
    {
        &self.order
    }

    /// The number of loads.
    pub fn loads(&self) -> u32
        ensures { result ≡ self.now.loads }
    {
        self.loads
    }

    /// The literal of "the first event comes before the second", if the order asks about the two.
    pub fn before(&self, first: u32, second: u32) -> Lit
        ensures { result ≡ before_literal self.now first second }
    {
        match self.comparator(first, second) {
            Some(lit) if first <= second => lit,
            Some(lit) => lit.opposite(),
            None => constant(false),
        }
    }

    /// The literal of "this event ends this sleep", or false if it isn't among the choices.
    pub fn ends(&self, sleep: u32, by: u32) -> Lit
        ensures { result ≡ ends_literal self.now sleep by }
    {
        match self.order.number_of_choice(sleep, by) {
            Some(number) => self.choice(number),
            None => constant(false),
        }
    }

    /// The bits of a load's value, the lowest first.
    pub fn load(&self, load: u32) -> [Lit; 32]
        requires { load < self.now.loads }
        ensures { result ≡ load_word self.now load }
    {
        word_from(self.load_start(load))
    }

    /// The first variable of a load's value.
    pub(crate) fn load_start(&self, load: u32) -> u32
        requires { load < self.now.loads }
        ensures start { result ≡ load_start self.now load }
        ensures small { result + 32 ≤ LIMIT }
    {
        2 + 8 * self.order.events() + 32 * load
    }

    /// The variable of the first choice.
    fn choice_start(&self) -> u32
        ensures start { result ≡ choice_start self.now }
        ensures small { result + length self.now.order.choices < LIMIT }
    {
        2 + 8 * self.order.events() + 32 * self.loads
    }

    /// The literal of "the choice at this index is made".
    pub(crate) fn choice(&self, number: usize) -> Lit
        requires { number < length self.now.order.choices }
        ensures { result ≡ choice_literal self.now number }
    {
        Lit::new(self.choice_start() + number as u32, false)
    }

    /// The literal of a pair, if the order asks about it.
    fn comparator(&self, first: u32, second: u32) -> Option<Lit>
        ensures { result ≡ comparator self.now first second }
    {
        let number = self.order.number_of_pair(first, second)?;
        Some(self.comparators[number])
    }

    /// Adds the clauses of transitivity.
    fn add_transitivity(&self, alloc: Global, circuit: &mut Circuit) -> Result<(), AllocError>
        requires literals { AreWithin circuit.old.vars (comparators self.now).word }
        requires room { length circuit.old.clauses + length self.now.order.pairs * (2 * self.now.order.events) < LIMIT }
        ensures vars { circuit.new.vars ≡ circuit.old.vars }
        ensures clauses { OnOk result (circuit.new.clauses ≡ circuit.old.clauses ++ transitivity self.now) }
        ensures few { length circuit.new.clauses ≤ length circuit.old.clauses + length self.now.order.pairs * (2 * self.now.order.events) }
    {
        for pair in self.order.pairs() {
            self.add_thirds(alloc, circuit, *pair)?;
        }
        Ok(())
    }

    /// Adds those for a pair and each event after both.
    fn add_thirds(&self, alloc: Global, circuit: &mut Circuit, pair: Pair) -> Result<(), AllocError>
        requires literals { AreWithin circuit.old.vars (comparators self.now).word }
        requires pair { pair.greater < self.now.order.events }
        requires room { length circuit.old.clauses + 2 * self.now.order.events < LIMIT }
        ensures vars { circuit.new.vars ≡ circuit.old.vars }
        ensures clauses { OnOk result (circuit.new.clauses ≡ circuit.old.clauses
            ++ flat_map (transitive self.now pair) (range_with_len (pair.greater + 1) (self.now.order.events - (pair.greater + 1)))) }
        ensures few { length circuit.new.clauses ≤ length circuit.old.clauses + 2 * self.now.order.events }
    {
        let _one = circuit.vars();
        let first = self.before(pair.lesser, pair.greater);
        for third in pair.greater + 1..self.order.events() {
            let second = self.comparator(pair.greater, third);
            let both = self.comparator(pair.lesser, third);
            add_where_asked(alloc, circuit, first, second, both)?;
        }
        Ok(())
    }
}

/// Adds the clauses of transitivity for three literals, if all three exist.
fn add_where_asked(
    alloc: Global,
    circuit: &mut Circuit,
    a: Lit,
    b: Option<Lit>,
    c: Option<Lit>,
) -> Result<(), AllocError>
    requires first { var_of a ≤ circuit.old.vars }
    requires second { IfSome b (λ l. var_of l ≤ circuit.old.vars) }
    requires third { IfSome c (λ l. var_of l ≤ circuit.old.vars) }
    requires room { length circuit.old.clauses + 2 < LIMIT }
    ensures vars { circuit.new.vars ≡ circuit.old.vars }
    ensures clauses { OnOk result (circuit.new.clauses ≡ circuit.old.clauses ++ where_asked a b c) }
    ensures few { length circuit.new.clauses ≤ length circuit.old.clauses + 2 }
{
    match (b, c) {
        (Some(b), Some(c)) => add_three(alloc, circuit, a, b, c),
        _ => Ok(()),
    }
}

/// Adds the clauses of transitivity for three literals: of the first event and the second, of the
/// second and the third, and of the first and the third.
fn add_three(alloc: Global, circuit: &mut Circuit, a: Lit, b: Lit, c: Lit) -> Result<(), AllocError>
    requires first { var_of a ≤ circuit.old.vars }
    requires second { var_of b ≤ circuit.old.vars }
    requires third { var_of c ≤ circuit.old.vars }
    requires room { length circuit.old.clauses + 2 < LIMIT }
    ensures vars { circuit.new.vars ≡ circuit.old.vars }
    ensures clauses { OnOk result (circuit.new.clauses ≡ circuit.old.clauses ++ clauses_of_three a b c) }
    ensures few { length circuit.new.clauses ≤ length circuit.old.clauses + 2 }
{
    add_clause(alloc, circuit, &[a.opposite(), b.opposite(), c])?;
    add_clause(alloc, circuit, &[a, b, c.opposite()])
}
