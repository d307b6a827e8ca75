//! Terms of expressions over the cells of a state.
ghost use Rattle.std.specs.Prelude.{◌≡◌, ◌<◌, [], length, map, option_map, IfOk, IfSome, OnOk};
ghost use Rattle.std.specs.List.{All, filter_map, flat_map, range_with_len};
ghost use Rattle.std.specs.Option.{option_map_or};
ghost use Rattle.sym_terms.specs.declared.node.Node.TheVariants.{Symbol};
ghost use Rattle.sym_exec.specs.Making.{expr_term as term_of_expr};
ghost use Rattle.mutex_states.specs.Steps.{exprs_of};
ghost use Rattle.mutex_clauses.specs.shapes.Termed as spec;
ghost use Rattle.mutex_clauses.specs.shapes.helpers.Pooled.{AllOf, IsIn, IsNamed, term_in, with_term, with_terms};

use crate::shapes::{LoadTerm, Shape, Termed, TestTerm};
use crate::steps::{Step, Tested};
use mutex_regions::{Holding, Loaded};
use std::alloc::{AllocError, Global};
use std::marker::Model;
use sym_exec::expr_term;
use sym_terms::{Id, Terms};
use tc_code::Expr;

/// Terms of expressions over the cells of a state.
#[derive(Drop)]
pub(crate) struct Pool {
    /// The terms.
    pub(crate) terms: Terms,
    /// The term of each cell.
    slots: Vec<Id>,
}

impl Model for Pool {
    ghost use Rattle.mutex_clauses.specs.shapes.helpers.Pooled.{Pooled, pooled, IsOver};

    ghost Value = { Pooled };

    ghost view = { pooled };

    ghost invariant = { IsOver };
}

/// A symbol for each cell.
fn symbols(alloc: Global, terms: &mut Terms, cells: u32) -> Result<Vec<Id>, AllocError>
    requires { terms.old ≡ [] }
    ensures terms { OnOk result (terms.new ≡ map Symbol (range_with_len 0 cells)) }
    ensures slots { IfOk result (λ slots. slots.items ≡ range_with_len 0 cells) }
{
    let mut slots = Vec::new(alloc);
    for cell in 0..cells {
        slots.push(terms.symbol(cell)?)?;
    }
    Ok(slots)
}

impl Pool {
    /// A symbol for each cell.
    pub(crate) fn new(alloc: Global, cells: u32) -> Result<Pool, AllocError>
        ensures nodes { IfOk result (λ pool. pool.nodes ≡ map Symbol (range_with_len 0 cells)) }
        ensures slots { IfOk result (λ pool. pool.slots ≡ range_with_len 0 cells) }
    {
        let mut terms = Terms::new(alloc);
        let slots = symbols(alloc, &mut terms, cells)?;
        Ok(Pool { terms, slots })
    }

    /// The term of an expression. Adds what isn't there yet.
    fn term(&mut self, e: &Expr) -> Result<Id, AllocError>
        requires { IsNamed self.old e.now }
        ensures term { IfOk result (λ term. term ≡ term_in self.old e.now) }
        ensures nodes { OnOk result (self.new.nodes ≡ with_term self.old.slots self.old.nodes e.now) }
        ensures slots { self.new.slots ≡ self.old.slots }
    {
        expr_term(&mut self.terms, self.slots.as_slice(), e)
    }

    /// Adds the term of a value, if it has one.
    fn add(&mut self, value: &Option<Expr>) -> Result<(), AllocError>
        requires { IfSome value.now (IsNamed self.old) }
        ensures nodes { OnOk result (self.new.nodes ≡ option_map_or (with_term self.old.slots self.old.nodes) value.now self.old.nodes) }
        ensures slots { self.new.slots ≡ self.old.slots }
    {
        if let Some(e) = value {
            self.term(e)?;
        }
        Ok(())
    }

    /// Adds the terms of what the cells hold.
    fn add_cells(&mut self, cells: &[Holding]) -> Result<(), AllocError>
        requires { All (λ x. IfSome x.value (IsNamed self.old)) cells.now }
        ensures nodes { OnOk result (self.new.nodes ≡ with_terms self.old.slots self.old.nodes (filter_map (λ x. x.value) cells.now)) }
        ensures slots { self.new.slots ≡ self.old.slots }
    {
        for cell in cells {
            self.add(&cell.value)?;
        }
        Ok(())
    }

    /// Adds the terms of what the loads take.
    fn add_loads(&mut self, loads: &[Loaded]) -> Result<(), AllocError>
        requires { All (λ x. IfSome x.value (IsNamed self.old)) loads.now }
        ensures nodes { OnOk result (self.new.nodes ≡ with_terms self.old.slots self.old.nodes (filter_map (λ x. x.value) loads.now)) }
        ensures slots { self.new.slots ≡ self.old.slots }
    {
        for load in loads {
            self.add(&load.value)?;
        }
        Ok(())
    }

    /// Adds the terms of tests.
    fn add_tests(&mut self, tests: &[Tested]) -> Result<(), AllocError>
        requires { All (λ x. IsNamed self.old x.test) tests.now }
        ensures nodes { OnOk result (self.new.nodes ≡ with_terms self.old.slots self.old.nodes (map (λ x. x.test) tests.now)) }
        ensures slots { self.new.slots ≡ self.old.slots }
    {
        for tested in tests {
            self.term(&tested.test)?;
        }
        Ok(())
    }

    /// Adds the terms of a step.
    fn add_step(&mut self, step: &Step) -> Result<(), AllocError>
        requires { AllOf (IsNamed self.old) step.now }
        ensures nodes { OnOk result (self.new.nodes ≡ with_terms self.old.slots self.old.nodes (exprs_of step.now)) }
        ensures slots { self.new.slots ≡ self.old.slots }
    {
        self.add_cells(step.does.cells.as_slice())?;
        self.add_loads(step.does.loads.as_slice())?;
        self.add_tests(step.tests.as_slice())
    }

    /// Adds the terms of steps.
    pub(crate) fn add_steps(&mut self, steps: &[Step]) -> Result<(), AllocError>
        requires { All (AllOf (IsNamed self.old)) steps.now }
        ensures nodes { OnOk result (self.new.nodes ≡ with_terms self.old.slots self.old.nodes (flat_map exprs_of steps.now)) }
        ensures slots { self.new.slots ≡ self.old.slots }
    {
        for step in steps {
            self.add_step(step)?;
        }
        Ok(())
    }

    /// The term of an expression that is there.
    fn term_of(&mut self, e: &Expr) -> Result<Id, AllocError>
        requires { IsIn self.old e.now }
        ensures term { IfOk result (λ term. term ≡ term_in self.old e.now) }
        ensures same { OnOk result (self.new ≡ self.old) }
    {
        self.term(e)
    }

    /// The term of a value that is there, if it has one.
    fn value_of(&mut self, value: &Option<Expr>) -> Result<Option<Id>, AllocError>
        requires { IfSome value.now (IsIn self.old) }
        ensures term { IfOk result (λ term. term ≡ option_map (term_in self.old) value.now) }
        ensures same { OnOk result (self.new ≡ self.old) }
    {
        match value {
            Some(e) => Ok(Some(self.term_of(e)?)),
            None => Ok(None),
        }
    }

    /// The terms of what the cells hold.
    fn cells(&mut self, alloc: Global, cells: &[Holding]) -> Result<Vec<Option<Id>>, AllocError>
        requires { All (λ x. IfSome x.value (IsIn self.old)) cells.now }
        ensures terms { IfOk result (λ terms. terms.items ≡ map (λ x. option_map (term_in self.old) x.value) cells.now) }
        ensures same { OnOk result (self.new ≡ self.old) }
    {
        let mut terms = Vec::new(alloc);
        for cell in cells {
            terms.push(self.value_of(&cell.value)?)?;
        }
        Ok(terms)
    }

    /// The terms of what the loads take.
    fn loads(&mut self, alloc: Global, loads: &[Loaded]) -> Result<Vec<LoadTerm>, AllocError>
        requires { All (λ x. IfSome x.value (IsIn self.old)) loads.now }
        ensures terms { IfOk result (λ terms. terms.items ≡ map (spec.load_term (term_in self.old)) loads.now) }
        ensures same { OnOk result (self.new ≡ self.old) }
    {
        let mut terms = Vec::new(alloc);
        for loaded in loads {
            let term = self.value_of(&loaded.value)?;
            terms.push(LoadTerm {
                load: loaded.load,
                term,
            })?;
        }
        Ok(terms)
    }

    /// The terms of tests.
    fn tests(&mut self, alloc: Global, tests: &[Tested]) -> Result<Vec<TestTerm>, AllocError>
        requires { All (λ x. IsIn self.old x.test) tests.now }
        ensures terms { IfOk result (λ terms. terms.items ≡ map (spec.test_term (term_in self.old)) tests.now) }
        ensures same { OnOk result (self.new ≡ self.old) }
    {
        let mut terms = Vec::new(alloc);
        for tested in tests {
            let term = self.term_of(&tested.test)?;
            terms.push(TestTerm {
                conjunct: tested.conjunct,
                term,
                wanted: tested.wanted,
            })?;
        }
        Ok(terms)
    }

    /// A step with terms in place of its expressions.
    fn step(&mut self, alloc: Global, step: &Step) -> Result<Termed, AllocError>
        requires { AllOf (IsIn self.old) step.now }
        ensures termed { IfOk result (λ termed. termed ≡ spec.termed_by (term_in self.old) step.now) }
        ensures same { OnOk result (self.new ≡ self.old) }
    {
        let cells = self.cells(alloc, step.does.cells.as_slice())?;
        let shape = Shape::of(alloc, cells.as_slice())?;
        let loads = self.loads(alloc, step.does.loads.as_slice())?;
        let tests = self.tests(alloc, step.tests.as_slice())?;
        Ok(Termed {
            is_closed: step.does.is_closed(),
            shape,
            cells,
            loads,
            tests,
        })
    }

    /// Steps with terms in place of their expressions.
    pub(crate) fn steps(&mut self, alloc: Global, steps: &[Step]) -> Result<Vec<Termed>, AllocError>
        requires { All (AllOf (IsIn self.old)) steps.now }
        ensures termed { IfOk result (λ termed. termed.items ≡ map (spec.termed_by (term_in self.old)) steps.now) }
        ensures same { OnOk result (self.new ≡ self.old) }
    {
        let mut termed = Vec::new(alloc);
        for step in steps {
            termed.push(self.step(alloc, step)?)?;
        }
        Ok(termed)
    }
}
