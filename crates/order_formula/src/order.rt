//! The questions that formulas ask about the order of events.
ghost use Rattle.std.specs.Prelude.{◌≡◌, ◌<◌, ◌≤◌, ◌^◌, ◌-◌, length, fold, position, OnOk, OnErr, IfOk};
ghost use Rattle.std.specs.List.{All};
ghost use Rattle.order_formula.specs.Orders.{AtomIsIn, ChoiceIsOf, ConjunctIsIn, Grows, IsOrder, LiteralIsIn, PairIsOf};
ghost use Rattle.order_formula.specs.Orders.{choice_number, pair_number, pair_of, same_choice, same_pair, order_without_questions};
ghost use Rattle.order_formula.specs.Orders.{with_atom, with_case, with_choice, with_conjunct, with_pair};

use crate::{Atom, Body, Case, Conjunct, Literal};
use indexmap::IndexSet;
use std::alloc::{AllocError, Global};
use std::marker::Model;

/// Two events, one of which comes before the other, with the lesser number first.
#[derive(Clone, Copy, Debug, PartialEq, Eq, Hash)]
pub struct Pair {
    /// The event with the lesser number.
    pub lesser: u32,
    /// The event with the greater number.
    pub greater: u32,
}

/// A sleep, and an event that may end it.
#[derive(Clone, Copy, Debug, PartialEq, Eq, Hash)]
pub struct Choice {
    /// The sleep.
    pub sleep: u32,
    /// The event.
    pub by: u32,
}

/// The questions about an order: for pairs of events, which comes first; for a sleep and an event,
/// whether the event ends the sleep. Each question is stored once, and keeps its number.
///
/// Each method fails only if out of memory.
#[derive(Debug, Drop)]
pub struct Order {
    events: u32,
    sleeps: u32,
    pairs: IndexSet<Pair>,
    choices: IndexSet<Choice>,
}

impl Model for Order {
    ghost use Rattle.order_formula.specs.Orders.{Order as PlainOrder, IsOrder};

    ghost Value = { PlainOrder };

    ghost view = { λ o. record { events = o.events; sleeps = o.sleeps; pairs = o.pairs.keys; choices = o.choices.keys } };

    ghost invariant = { λ o. IsOrder (record { events = o.events; sleeps = o.sleeps; pairs = o.pairs.keys; choices = o.choices.keys }) };
}

impl Order {
    /// The order of these numbers of events and sleeps, without questions.
    pub fn empty(alloc: Global, events: u32, sleeps: u32) -> Order
        ensures { result ≡ order_without_questions events sleeps }
    {
        Order {
            events,
            sleeps,
            pairs: IndexSet::new(alloc),
            choices: IndexSet::new(alloc),
        }
    }

    /// Asks which of two events comes first. Returns the question's number among the pairs; the
    /// order of the arguments doesn't matter.
    pub fn before(&mut self, first: u32, second: u32) -> Result<u32, AllocError>
        requires first { first < self.old.events }
        requires second { second < self.old.events }
        requires room { length self.old.pairs < 2 ^ 32 - 1 }
        ensures asked { OnOk result (self.new ≡ with_pair self.old (pair_of first second)) }
        ensures number { IfOk result (λ number. number ≡ pair_number self.old (pair_of first second)) }
        ensures refused { OnErr result (self.new ≡ self.old) }
    {
        Ok(self.ask_pair(Pair::of(first, second))? as u32)
    }

    /// Asks whether the event ends the sleep. Returns the question's number among the choices.
    pub fn ends(&mut self, sleep: u32, by: u32) -> Result<u32, AllocError>
        requires sleep { sleep < self.old.sleeps }
        requires by { by < self.old.events }
        requires room { length self.old.choices < 2 ^ 32 - 1 }
        ensures asked { OnOk result (self.new ≡ with_choice self.old (record { sleep = sleep; by = by })) }
        ensures number { IfOk result (λ number. number ≡ choice_number self.old (record { sleep = sleep; by = by })) }
        ensures refused { OnErr result (self.new ≡ self.old) }
    {
        Ok(self.ask_choice(Choice { sleep, by })? as u32)
    }

    /// Asks all questions of a conjunct.
    pub(crate) fn ask(&mut self, conjunct: &Conjunct) -> Result<(), AllocError>
        requires { ConjunctIsIn self.old conjunct.now }
        ensures asked { OnOk result (self.new ≡ with_conjunct self.old conjunct.now) }
        ensures grows { Grows self.old self.new }
    {
        match &conjunct.body {
            Body::Any(cases) => self.ask_cases(cases.as_slice()),
            Body::Read(_) => Ok(()),
        }
    }

    /// Asks all questions of some cases.
    fn ask_cases(&mut self, cases: &[Case]) -> Result<(), AllocError>
        requires { All (All (LiteralIsIn self.old)) cases.now }
        ensures asked { OnOk result (self.new ≡ fold with_case self.old cases.now) }
        ensures grows { Grows self.old self.new }
    {
        for case in cases {
            self.ask_literals(case.literals())?;
        }
        Ok(())
    }

    /// Asks all questions of some literals.
    fn ask_literals(&mut self, literals: &[Literal]) -> Result<(), AllocError>
        requires { All (LiteralIsIn self.old) literals.now }
        ensures asked { OnOk result (self.new ≡ with_case self.old literals.now) }
        ensures grows { Grows self.old self.new }
    {
        for literal in literals {
            self.ask_atom(literal.atom)?;
        }
        Ok(())
    }

    /// Asks the question of an atom, if it has one.
    fn ask_atom(&mut self, atom: Atom) -> Result<(), AllocError>
        requires { AtomIsIn self.old atom }
        ensures asked { OnOk result (self.new ≡ with_atom self.old atom) }
        ensures grows { Grows self.old self.new }
    {
        match atom {
            Atom::Before { first, second } => {
                self.ask_pair(Pair::of(first, second))?;
            }
            Atom::Ends { sleep, by } => {
                self.ask_choice(Choice { sleep, by })?;
            }
            Atom::Test(_) => {}
        }
        Ok(())
    }

    /// Asks the question of a pair, and returns its number.
    fn ask_pair(&mut self, pair: Pair) -> Result<usize, AllocError>
        requires { PairIsOf self.old.events pair }
        ensures asked { OnOk result (self.new ≡ with_pair self.old pair) }
        ensures number { IfOk result (λ number. number ≡ pair_number self.old pair) }
        ensures within { IfOk result (λ number. number ≤ length self.old.pairs) }
        ensures refused { OnErr result (self.new ≡ self.old) }
    {
        let (number, _) = self.pairs.insert_full(pair)?;
        Ok(number)
    }

    /// Asks the question of a choice, and returns its number.
    fn ask_choice(&mut self, choice: Choice) -> Result<usize, AllocError>
        requires { ChoiceIsOf self.old.sleeps self.old.events choice }
        ensures asked { OnOk result (self.new ≡ with_choice self.old choice) }
        ensures number { IfOk result (λ number. number ≡ choice_number self.old choice) }
        ensures within { IfOk result (λ number. number ≤ length self.old.choices) }
        ensures refused { OnErr result (self.new ≡ self.old) }
    {
        let (number, _) = self.choices.insert_full(choice)?;
        Ok(number)
    }

    /// The number of events.
    pub fn events(&self) -> u32
        ensures { result ≡ self.now.events }
    {
        self.events
    }

    /// The number of sleeps.
    pub fn sleeps(&self) -> u32
        ensures { result ≡ self.now.sleeps }
    {
        self.sleeps
    }

    /// All pairs that were asked; the index of a pair is its question's number.
    pub fn pairs(&self) -> &[Pair]
        ensures pairs { result.now ≡ self.now.pairs }
        ensures lawful { IsOrder self.now }
    {
        self.pairs.as_slice()
    }

    /// All choices that were asked; the index of a choice is its question's number.
    pub fn choices(&self) -> &[Choice]
        ensures { result.now ≡ self.now.choices }
    {
        self.choices.as_slice()
    }

    /// The number of the question which of two events comes first, if it was asked.
    pub fn number_of_pair(&self, first: u32, second: u32) -> Option<usize>
        ensures { result ≡ position (same_pair (pair_of first second)) self.now.pairs }
    {
        self.pairs.get_index_of(&Pair::of(first, second))
    }

    /// The number of the question whether the event ends the sleep, if it was asked.
    pub fn number_of_choice(&self, sleep: u32, by: u32) -> Option<usize>
        ensures { result ≡ position (same_choice (record { sleep = sleep; by = by })) self.now.choices }
    {
        self.choices.get_index_of(&Choice { sleep, by })
    }
}

impl Pair {
    /// The pair of two events, in either order.
    pub fn of(first: u32, second: u32) -> Pair
        ensures { result ≡ pair_of first second }
    {
        Pair {
            lesser: first.min(second),
            greater: first.max(second),
        }
    }
}
