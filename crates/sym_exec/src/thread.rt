//! The execution of one thread.
ghost use Rattle.std.specs.Prelude.{◌≡◌, ◌+◌, ◌<◌, ◌≤◌, ◌^◌, ◌-◌, ◌++◌, [], ℕ, List, length, replicate, OnOk, IfOk, IsTrue, option_map, None};
ghost use Rattle.std.specs.List.{list_all};
ghost use Rattle.int_ops.specs.Updates.{operands_of};
ghost use Rattle.tc_code.specs.Expr.{names_slots};
ghost use Rattle.tc_code.specs.Lawful.{IsLawful};
ghost use Rattle.tc_code.specs.Step.{ints_of};
ghost use Rattle.sym_terms.specs.declared.node.Node.{Node};
ghost use Rattle.sym_exec.specs.helpers.Threads.{cell_named, names_within, doing_of};
ghost use Rattle.sym_exec.specs.Thread.{AreOf, HasTerms};
ghost use Rattle.sym_exec.specs.Making.{Grows};
ghost use Rattle.sym_exec.specs.Thread as spec;
ghost use Rattle.sym_exec.specs.Making.{range_test as range_of};

use crate::making::{
    constant, expr_term, expr_terms, last_index, range_test, symbol, updated_term,
};
use crate::symbolic::{Access, Handed, Test};
use int_ops::Update;
use path_walk::Walk;
use std::alloc::{AllocError, Global};
use sym_terms::{Id, Terms};
use tc_code::{Cell, Code, Expr, Exprs, Instr};

/// A thread's execution so far.
#[derive(Drop)]
pub(crate) struct Thread {
    /// The term of each slot.
    pub(crate) slots: Vec<Id>,
    /// The number of loads so far, in the earlier threads and in this one.
    pub(crate) loads: u32,
    /// The number of steps so far, and of branches among them.
    pub(crate) steps: usize,
    pub(crate) branches: usize,
    pub(crate) tests: Vec<Test>,
    pub(crate) accesses: Vec<Access>,
    pub(crate) creates: Vec<Handed>,
}

impl Thread {
    /// Sets a slot to a term.
    fn set(&mut self, slot: u32, term: Id)
        requires { slot < length self.old.slots.items }
        ensures { (nodes : List Node) → doing_of self.new nodes ≡ spec.with_slot (doing_of self.old nodes) slot (record { term = term; nodes = nodes }) }
    {
        self.slots[slot as usize] = term;
    }

    /// Appends a test of a term.
    fn test(&mut self, line: u32, wanted: bool, term: Id) -> Result<(), AllocError>
        ensures { (nodes : List Node) → OnOk result (doing_of self.new nodes
            ≡ spec.with_test (doing_of self.old nodes) line wanted (record { term = term; nodes = nodes })) }
    {
        let step = self.steps;
        self.tests.push(Test {
            step,
            line,
            term,
            wanted,
        })?;
        Ok(())
    }

    /// Appends a store of a term to a cell.
    fn store(&mut self, cell: Cell<Id>, term: Id) -> Result<(), AllocError>
        ensures { (nodes : List Node) → OnOk result (doing_of self.new nodes ≡ spec.with_store (doing_of self.old nodes) cell (record { term = term; nodes = nodes })) }
    {
        let step = self.steps;
        self.accesses.push(Access {
            step,
            cell,
            takes: None,
            writes: Some(term),
        })?;
        Ok(())
    }

    /// Loads a symbol into a slot. The number of loads fits in 32 bits.
    fn load(
        &mut self,
        slot: u32,
        cell: Cell<Id>,
        symbol: Id,
        writes: Option<Id>,
    ) -> Result<(), AllocError>
        requires { slot < length self.old.slots.items }
        ensures { (nodes : List Node) → OnOk result (doing_of self.new nodes ≡ spec.with_load (doing_of self.old nodes) slot cell symbol writes) }
    {
        let step = self.steps;
        self.accesses.push(Access {
            step,
            cell,
            takes: Some(self.loads),
            writes,
        })?;
        self.loads = self.loads.checked_add(1).ok_or(AllocError)?;
        self.slots[slot as usize] = symbol;
        Ok(())
    }

    /// Loads a cell into a slot.
    fn read(&mut self, terms: &mut Terms, slot: u32, cell: Cell<Id>) -> Result<(), AllocError>
        requires { slot < length self.old.slots.items }
        ensures read { OnOk result (doing_of self.new terms.new ≡ spec.reading (doing_of self.old terms.old) slot cell) }
        ensures grown { Grows terms.old terms.new }
    {
        let symbol = symbol(terms, self.loads)?;
        self.load(slot, cell, symbol, None)
    }

    /// The term of an expression over the slots.
    fn term(&self, terms: &mut Terms, e: &Expr) -> Result<Id, AllocError>
        requires slots { AreOf terms.old self.now.slots.items }
        requires names { IsTrue (names_slots (length self.now.slots.items) e.now) }
        ensures term { IfOk result (λ term. record { term = term; nodes = terms.new } ≡ spec.term_in (doing_of self.now terms.old) e.now) }
        ensures within { IfOk result (λ term. term < length terms.new) }
        ensures grown { Grows terms.old terms.new }
    {
        expr_term(terms, &self.slots, e)
    }

    /// Appends a test of an expression.
    fn test_value(
        &mut self,
        terms: &mut Terms,
        line: u32,
        wanted: bool,
        e: &Expr,
    ) -> Result<(), AllocError>
        requires slots { AreOf terms.old self.old.slots.items }
        requires names { IsTrue (names_slots (length self.old.slots.items) e.now) }
        ensures tested { OnOk result (doing_of self.new terms.new
            ≡ spec.with_test (doing_of self.old terms.old) line wanted (spec.term_in (doing_of self.old terms.old) e.now)) }
        ensures grown { Grows terms.old terms.new }
    {
        let term = self.term(terms, e)?;
        self.test(line, wanted, term)
    }

    /// Appends the test that an expression is between 0 and `last`.
    fn test_range(
        &mut self,
        terms: &mut Terms,
        line: u32,
        wanted: bool,
        e: &Expr,
        last: i32,
    ) -> Result<(), AllocError>
        requires slots { AreOf terms.old self.old.slots.items }
        requires names { IsTrue (names_slots (length self.old.slots.items) e.now) }
        ensures tested { OnOk result (doing_of self.new terms.new
            ≡ spec.with_test (doing_of self.old terms.old) line wanted (range_of (spec.term_in (doing_of self.old terms.old) e.now) last)) }
        ensures grown { Grows terms.old terms.new }
    {
        let term = self.term(terms, e)?;
        let test = range_test(terms, term, last)?;
        self.test(line, wanted, test)
    }

    /// Sets a slot to the term of an expression.
    fn set_value(&mut self, terms: &mut Terms, slot: u32, e: &Expr) -> Result<(), AllocError>
        requires slot { slot < length self.old.slots.items }
        requires slots { AreOf terms.old self.old.slots.items }
        requires names { IsTrue (names_slots (length self.old.slots.items) e.now) }
        ensures set { OnOk result (doing_of self.new terms.new
            ≡ spec.with_slot (doing_of self.old terms.old) slot (spec.term_in (doing_of self.old terms.old) e.now)) }
        ensures grown { Grows terms.old terms.new }
    {
        let term = self.term(terms, e)?;
        self.set(slot, term);
        Ok(())
    }

    /// Appends a store of an expression to a cell.
    fn store_value(&mut self, terms: &mut Terms, cell: Cell<Id>, e: &Expr) -> Result<(), AllocError>
        requires slots { AreOf terms.old self.old.slots.items }
        requires names { IsTrue (names_slots (length self.old.slots.items) e.now) }
        ensures stored { OnOk result (doing_of self.new terms.new
            ≡ spec.with_store (doing_of self.old terms.old) cell (spec.term_in (doing_of self.old terms.old) e.now)) }
        ensures grown { Grows terms.old terms.new }
    {
        let term = self.term(terms, e)?;
        self.store(cell, term)
    }

    /// The cell that an instruction accesses.
    fn cell_of(&self, terms: &mut Terms, cell: &Cell<Expr>) -> Result<Cell<Id>, AllocError>
        requires slots { AreOf terms.old self.now.slots.items }
        requires names { IsTrue (cell_named (length self.now.slots.items) cell.now) }
        ensures cell { IfOk result (λ reached. reached ≡ (spec.cell_of (doing_of self.now terms.old) cell.now).cell) }
        ensures nodes { OnOk result (terms.new ≡ (spec.cell_of (doing_of self.now terms.old) cell.now).nodes) }
        ensures grown { Grows terms.old terms.new }
    {
        match cell {
            Cell::Fixed(cell) => Ok(Cell::Fixed(*cell)),
            Cell::Element {
                first,
                length,
                index,
            } => {
                let index = self.term(terms, index)?;
                Ok(Cell::Element {
                    first: *first,
                    length: *length,
                    index,
                })
            }
        }
    }

    /// The terms of an update's operands.
    fn update_terms(
        &self,
        terms: &mut Terms,
        update: &Update<Expr>,
    ) -> Result<Update<Id>, AllocError>
        requires slots { AreOf terms.old self.now.slots.items }
        requires names { IsTrue (list_all (names_slots (length self.now.slots.items)) (operands_of update.now)) }
        ensures update { IfOk result (λ made. record { update = made; nodes = terms.new } ≡ spec.update_terms (doing_of self.now terms.old) update.now) }
        ensures within { IfOk result (λ made. AreOf terms.new (operands_of made)) }
        ensures grown { Grows terms.old terms.new }
    {
        match update {
            Update::Swap(e) => Ok(Update::Swap(self.term(terms, e)?)),
            Update::Cas(expected, new) => {
                let expected = self.term(terms, expected)?;
                let new = self.term(terms, new)?;
                Ok(Update::Cas(expected, new))
            }
            Update::Add(e) => Ok(Update::Add(self.term(terms, e)?)),
        }
    }

    /// Updates a cell: loads it into a slot, and stores the updated term to it.
    fn update(
        &mut self,
        terms: &mut Terms,
        slot: u32,
        cell: Cell<Id>,
        update: &Update<Expr>,
    ) -> Result<(), AllocError>
        requires slot { slot < length self.old.slots.items }
        requires slots { AreOf terms.old self.old.slots.items }
        requires names { IsTrue (list_all (names_slots (length self.old.slots.items)) (operands_of update.now)) }
        ensures updated { OnOk result (doing_of self.new terms.new
            ≡ spec.with_update (doing_of self.old terms.old) slot cell update.now) }
        ensures grown { Grows terms.old terms.new }
    {
        let update = self.update_terms(terms, update)?;
        let symbol = symbol(terms, self.loads)?;
        let written = updated_term(terms, update, symbol)?;
        self.load(slot, cell, symbol, Some(written))
    }

    /// Appends a create that hands expressions to a child.
    fn hand(&mut self, alloc: Global, terms: &mut Terms, es: &Exprs) -> Result<(), AllocError>
        requires slots { AreOf terms.old self.old.slots.items }
        requires names { IsTrue (list_all (names_slots (length self.old.slots.items)) es.now) }
        ensures handed { OnOk result (doing_of self.new terms.new ≡ spec.with_handed_terms (doing_of self.old terms.old) es.now) }
        ensures grown { Grows terms.old terms.new }
    {
        let step = self.steps;
        let handed = expr_terms(alloc, terms, &self.slots, es.as_slice())?;
        self.creates.push(Handed {
            step,
            terms: handed,
        })?;
        Ok(())
    }

    /// Executes an instruction at a line. `wanted` is the wanted outcome of its test, if it has
    /// one.
    fn follow(
        &mut self,
        alloc: Global,
        terms: &mut Terms,
        line: u32,
        wanted: bool,
        instr: &Instr,
    ) -> Result<(), AllocError>
        requires slots { AreOf terms.old self.old.slots.items }
        requires names { IsTrue (names_within (length self.old.slots.items) instr.now) }
        requires room { self.old.branches + 1 < 2 ^ 64 }
        ensures done { OnOk result (doing_of self.new terms.new ≡ spec.after_instr line wanted (doing_of self.old terms.old) instr.now) }
        ensures grown { Grows terms.old terms.new }
    {
        match instr {
            Instr::Set { slot, value } => self.set_value(terms, *slot, value),
            Instr::Load { slot, cell } => {
                let cell = self.cell_of(terms, cell)?;
                self.read(terms, *slot, cell)
            }
            Instr::Store { cell, value } => {
                let cell = self.cell_of(terms, cell)?;
                self.store_value(terms, cell, value)
            }
            Instr::Inside { length, index } => {
                self.test_range(terms, line, wanted, index, last_index(*length))
            }
            Instr::Branch { condition, .. } => {
                self.branches += 1;
                self.test_value(terms, line, wanted, condition)
            }
            Instr::Create { arguments, .. } => self.hand(alloc, terms, arguments),
            Instr::Assert(e) => self.test_value(terms, line, wanted, e),
            Instr::Nonzero(e) => self.test_value(terms, line, wanted, e),
            Instr::InRange(e) => self.test_range(terms, line, wanted, e, 31),
            Instr::Modify { slot, cell, update } => {
                let cell = self.cell_of(terms, cell)?;
                self.update(terms, *slot, cell, update)
            }
            _ => Ok(()),
        }
    }

    /// The wanted outcome of an instruction's test: a branch's as the path has it; a site passes
    /// unless the thread fails in this step.
    fn wanted(&self, outcomes: &[bool], fails: Option<usize>, instr: &Instr) -> bool
        ensures { (nodes : List Node) → result ≡ spec.wanted_of outcomes.now fails (doing_of self.now nodes) instr.now }
    {
        match instr {
            Instr::Branch { .. } => outcomes.get(self.branches).copied().unwrap_or(true),
            _ => fails != Some(self.steps),
        }
    }

    /// Executes the instruction at a place, if there is one.
    fn step(
        &mut self,
        alloc: Global,
        terms: &mut Terms,
        code: &Code,
        walk: &Walk,
        fails: Option<usize>,
        place: usize,
    ) -> Result<(), AllocError>
        requires sound { HasTerms (doing_of self.old terms.old) }
        requires ints { ints_of code.now walk.now.function ≤ length self.old.slots.items }
        requires steps { self.old.steps + 1 < 2 ^ 64 }
        requires branches { self.old.branches + 1 < 2 ^ 64 }
        ensures done { OnOk result (doing_of self.new terms.new
            ≡ spec.after_step (spec.route_of code.now walk.now fails) (doing_of self.old terms.old) place) }
        ensures sound { OnOk result (HasTerms (doing_of self.new terms.new)) }
        ensures ints { OnOk result (length self.new.slots.items ≡ length self.old.slots.items) }
        ensures steps { OnOk result (self.new.steps ≤ self.old.steps + 1) }
        ensures branches { OnOk result (self.new.branches ≤ self.old.branches + 1) }
        ensures grown { Grows terms.old terms.new }
    {
        let Some(instr) = code.instr(walk.function(), place) else {
            return Ok(());
        };
        let Some(line) = code.line(walk.function(), place) else {
            unreachable!()
        };
        let wanted = self.wanted(walk.outcomes(), fails, instr);
        self.follow(alloc, terms, line, wanted, instr)?;
        self.steps += 1;
        Ok(())
    }

    /// Executes all steps of the thread's path.
    pub(crate) fn run(
        &mut self,
        alloc: Global,
        terms: &mut Terms,
        code: &Code,
        walk: &Walk,
        fails: Option<usize>,
    ) -> Result<(), AllocError>
        requires sound { HasTerms (doing_of self.old terms.old) }
        requires ints { ints_of code.now walk.now.function ≤ length self.old.slots.items }
        requires steps { self.old.steps ≡ 0 }
        requires branches { self.old.branches ≡ 0 }
        ensures done { OnOk result (doing_of self.new terms.new
            ≡ spec.after_all (spec.route_of code.now walk.now fails) (doing_of self.old terms.old) walk.now.places) }
        ensures grown { Grows terms.old terms.new }
    {
        for place in walk.places() {
            self.step(alloc, terms, code, walk, fails, *place)?;
        }
        Ok(())
    }

    /// A thread at the start of a function.
    pub(crate) fn start(
        alloc: Global,
        terms: &mut Terms,
        ints: u32,
        arguments: &[Id],
        loads: u32,
    ) -> Result<Thread, AllocError>
        ensures started { IfOk result (λ thread. doing_of thread terms.new ≡ spec.started ints arguments.now loads terms.old) }
        ensures grown { Grows terms.old terms.new }
    {
        let zero = constant(terms, 0)?;
        Ok(Thread {
            slots: padded(alloc, arguments, ints as usize, zero)?,
            loads,
            steps: 0,
            branches: 0,
            tests: Vec::new(alloc),
            accesses: Vec::new(alloc),
            creates: Vec::new(alloc),
        })
    }
}

/// The terms, padded with `other` up to `count`.
fn padded(alloc: Global, terms: &[Id], count: usize, other: Id) -> Result<Vec<Id>, AllocError>
    ensures { IfOk result (λ all. all.items ≡ terms.now ++ replicate (count - length terms.now) other) }
{
    let mut all = terms.to_vec(alloc)?;
    while all.len() < count {
        all.push(other)?;
    }
    Ok(all)
}

/// The number of int slots of a function.
pub(crate) fn ints_of(code: &Code, function: usize) -> u32
    ensures ints { result ≡ ints_of code.now function }
    ensures lawful { IsLawful code.now }
{
    match code.functions().get(function) {
        Some(f) => f.ints,
        None => 0,
    }
}
