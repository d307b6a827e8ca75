//! Steps with terms in place of their expressions.
ghost use Rattle.std.specs.Prelude.{◌≡◌, ◌&&◌, IfOk};
ghost use Rattle.std.specs.List.{filter_map};
ghost use Rattle.mutex_states.specs.Steps.{same_shape};

use std::alloc::{AllocError, Global};
use std::marker::Model;
use sym_terms::{Id, Terms};

/// The terms that a region leaves in the cells.
#[derive(Drop)]
pub struct Shape {
    /// The terms, in the order of the cells.
    pub terms: Vec<Id>,
}

impl Model for Shape {
    ghost use Rattle.std.specs.Prelude.{ℕ, List};

    ghost Value = { List ℕ };

    ghost view = { λ s. s.terms.items };
}

impl Shape {
    /// The terms of the cells that have one.
    pub(crate) fn of(alloc: Global, cells: &[Option<Id>]) -> Result<Shape, AllocError>
        ensures { IfOk result (λ shape. shape ≡ filter_map (λ term. term) cells.now) }
    {
        let mut terms = Vec::new(alloc);
        for cell in cells {
            if let Some(term) = cell {
                terms.push(*term)?;
            }
        }
        Ok(Shape { terms })
    }

    /// The same shape once more.
    pub(crate) fn copy(&self, alloc: Global) -> Result<Shape, AllocError>
        ensures { IfOk result (λ shape. shape ≡ self.now) }
    {
        Ok(Shape {
            terms: self.terms.as_slice().to_vec(alloc)?,
        })
    }

    /// Whether two shapes are the same.
    pub fn is_same(&self, other: &Shape) -> bool
        ensures { result ≡ same_shape self.now other.now }
    {
        self.terms == other.terms
    }
}

/// A load, and the term of the value that it takes, if it has one.
#[derive(Clone, Copy)]
pub struct LoadTerm {
    /// The number of the load.
    pub load: u32,
    /// The term.
    pub term: Option<Id>,
}

/// A test of a term.
#[derive(Clone, Copy)]
pub struct TestTerm {
    /// The number of the test's conjunct.
    pub conjunct: usize,
    /// The term.
    pub term: Id,
    /// Whether the term is nonzero if the conjunct holds.
    pub wanted: bool,
}

/// A step, with terms in place of its expressions.
#[derive(Drop)]
pub struct Termed {
    /// Whether what it leaves in the cells is a function of the state.
    pub is_closed: bool,
    /// The terms that it leaves in the cells, without gaps.
    pub shape: Shape,
    /// What it leaves in each cell, where that has a term.
    pub cells: Vec<Option<Id>>,
    /// What its loads take.
    pub loads: Vec<LoadTerm>,
    /// Its tests.
    pub tests: Vec<TestTerm>,
}

impl Model for Termed {
    ghost use Rattle.mutex_clauses.specs.shapes.Termed.{Termed as PlainTermed};

    ghost Value = { PlainTermed };

    ghost view = { λ s. record {
      is_closed = s.is_closed;
      shape = s.shape;
      cells = s.cells.items;
      loads = s.loads.items;
      tests = s.tests.items;
    } };
}

impl Termed {
    /// Whether the step leaves these functions of the state.
    pub fn has_shape(&self, shape: &Shape) -> bool
        ensures { result ≡ (self.now.is_closed && same_shape shape.now self.now.shape) }
    {
        self.is_closed && shape.is_same(&self.shape)
    }
}

/// Steps with terms, and all their terms and shapes.
#[derive(Drop)]
pub struct TermedSteps {
    /// The terms, over a symbol for each cell.
    pub terms: Terms,
    /// The steps.
    pub steps: Vec<Termed>,
    /// The shapes of those that leave functions of the state, each once.
    pub shapes: Vec<Shape>,
}

impl Model for TermedSteps {
    ghost use Rattle.mutex_clauses.specs.shapes.Termed.{TermedSteps as PlainSteps};

    ghost Value = { PlainSteps };

    ghost view = { λ s. record { terms = s.terms; steps = s.steps.items; shapes = s.shapes.items } };
}
