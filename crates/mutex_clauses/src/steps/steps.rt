//! Regions as steps.
ghost use Rattle.std.specs.Prelude.{◌≡◌, ◌≤◌, ℕ, List, length, map, IfOk};
ghost use Rattle.std.specs.List.{sum_by};
ghost use Rattle.tc_code.specs.Code.{Code};
ghost use Rattle.path_walk.specs.Paths.{Paths};
ghost use Rattle.order_formula.specs.declared.formula.Conjunct.{Conjunct};
ghost use Rattle.read_write.specs.Accesses.{all_accesses};
ghost use Rattle.mutex_regions.specs.Variables.{guarded};
ghost use Rattle.mutex_states.specs.States.{step_of};
ghost use Rattle.mutex_clauses.specs.steps.helpers.Over.{step_over, tests_of};

use crate::steps::tests::{Begun, first_test};
use mutex_regions::{Doing, Loaded, Variable, function_of};
use order_events::Placed;
use path_walk::Region;
use std::alloc::{AllocError, Global};
use std::marker::Model;
use sym_exec::{Access, Symbolic};
use sym_terms::Terms;
use tc_code::Expr;

/// A test of a region.
#[derive(Drop)]
pub struct Tested {
    /// The number of its conjunct in the formula.
    pub conjunct: usize,
    /// Its expression over the state before the region.
    pub test: Expr,
    /// Whether the expression is nonzero if the conjunct holds.
    pub wanted: bool,
}

impl Model for Tested {
    ghost use Rattle.mutex_states.specs.Steps.{Tested as PlainTested};
    ghost use Rattle.std.specs.Coded.{codes};
    ghost use Rattle.tc_code.specs.helpers.CodedExpr.{coded_expr};

    ghost Value = { PlainTested };

    ghost coded = { Prim.hlevel (codes, coded_expr) };

    ghost view = { λ t. record { conjunct = t.conjunct; test = t.test; wanted = t.wanted } };
}

/// What a region does, with its tests.
#[derive(Drop)]
pub struct Step {
    /// What it loads, and what it leaves in the cells.
    pub does: Doing,
    /// Its tests that depend on the state.
    pub tests: Vec<Tested>,
}

impl Model for Step {
    ghost use Rattle.mutex_states.specs.Steps.{Step as PlainStep};
    ghost use Rattle.std.specs.Coded.{codes};
    ghost use Rattle.tc_code.specs.helpers.CodedExpr.{coded_expr};

    ghost Value = { PlainStep };

    ghost coded = { Prim.hlevel (codes, coded_expr) };

    ghost view = { λ s. record { does = s.does; tests = s.tests.items } };
}

/// The steps of a mutex's regions, in the order of the regions. `variables` are the mutex's
/// variables, `accesses` all accesses, and `conjuncts` is the number of conjuncts of the formula.
pub fn steps_of(
    alloc: Global,
    symbolic: &Symbolic,
    terms: &Terms,
    conjuncts: usize,
    variables: &[Variable],
    accesses: &[Placed<Access>],
    regions: &[Placed<Region>],
) -> Result<Vec<Step>, AllocError>
    requires { sum_by (λ v. v.cells) variables.now ≤ 64 }
    ensures { IfOk result (λ steps. (code : Code) (paths : Paths) (formula : List Conjunct) (m : ℕ) → length formula ≡ conjuncts
        → variables.now ≡ guarded paths symbolic.now m → accesses.now ≡ all_accesses symbolic.now
        → steps.items ≡ map (step_of code paths symbolic.now terms.now formula m) regions.now) }
{
    let log = Log {
        symbolic,
        terms,
        conjuncts,
        variables,
        accesses,
    };
    log.steps(alloc, regions)
}

/// The parts of a log on which the steps of a mutex's regions depend.
#[derive(Clone, Copy)]
struct Log<'a> {
    /// The symbolic execution of all threads.
    symbolic: &'a Symbolic,
    /// The terms of the log.
    terms: &'a Terms,
    /// How many conjuncts the formula has.
    conjuncts: usize,
    /// The variables of the regions' mutex.
    variables: &'a [Variable],
    /// All accesses.
    accesses: &'a [Placed<Access>],
}

impl Log<'_> {
    /// The step of each region.
    fn steps(&self, alloc: Global, regions: &[Placed<Region>]) -> Result<Vec<Step>, AllocError>
        requires { sum_by (λ v. v.cells) self.now.variables.now ≤ 64 }
        ensures { IfOk result (λ steps. steps.items ≡ map
            (step_over self.now.symbolic.now self.now.terms.now self.now.conjuncts self.now.variables.now self.now.accesses.now)
            regions.now) }
    {
        let mut steps = Vec::new(alloc);
        for region in regions {
            steps.push(self.step(alloc, region)?)?;
        }
        Ok(steps)
    }

    /// The step of a region.
    fn step(&self, alloc: Global, region: &Placed<Region>) -> Result<Step, AllocError>
        requires { sum_by (λ v. v.cells) self.now.variables.now ≤ 64 }
        ensures { IfOk result (λ step. step ≡ step_over
            self.now.symbolic.now self.now.terms.now self.now.conjuncts self.now.variables.now self.now.accesses.now
            region.now) }
    {
        let does = function_of(alloc, self.terms, self.variables, self.accesses, region)?;
        let tests = self.tests(alloc, region, &does.loads)?;
        Ok(Step { does, tests })
    }

    /// The tests of a region with these loads.
    fn tests(
        &self,
        alloc: Global,
        region: &Placed<Region>,
        loads: &[Loaded],
    ) -> Result<Vec<Tested>, AllocError>
        ensures { IfOk result (λ tests. tests.items
            ≡ tests_of self.now.symbolic.now self.now.terms.now self.now.conjuncts region.now loads.now) }
    {
        let threads = self.symbolic.threads();
        let Some(course) = threads.get(region.thread) else {
            return Ok(Vec::new(alloc));
        };
        let begun = Begun {
            terms: self.terms,
            loads,
            first: first_test(self.conjuncts, threads, region.thread)?,
            begin: region.it.from,
        };
        begun.tests(alloc, course.tests())
    }
}
