//! The tests of a region.
ghost use Rattle.std.specs.Prelude.{◌≡◌, ◌<◌, ◌+◌, ◌++◌, length, take, IfOk, OnOk};
ghost use Rattle.std.specs.Option.{option_to_list};
ghost use Rattle.mutex_clauses.specs.steps.helpers.Over as spec;

use crate::steps::Tested;
use mutex_regions::{Loaded, term_over};
use std::alloc::{AllocError, Global};
use sym_exec::{Course, Test};
use sym_terms::Terms;
use tc_code::names_slots;

/// The greatest number of tests of a region.
const MOST_TESTS: usize = 16;

/// The sum of two counts. Fails if it wraps: no memory holds that many tests.
fn sum(a: usize, b: usize) -> Result<usize, AllocError>
    ensures { IfOk result (λ sum. sum ≡ a + b) }
{
    match a.checked_add(b) {
        Some(sum) => Ok(sum),
        None => Err(AllocError),
    }
}

/// The number of tests of some threads together.
fn count_tests(threads: &[Course]) -> Result<usize, AllocError>
    ensures { IfOk result (λ count. count ≡ spec.count_tests threads.now) }
{
    let mut count = 0;
    for course in threads {
        count = sum(count, course.tests().len())?;
    }
    Ok(count)
}

/// The number of the conjunct of a thread's first test: the conjuncts of all threads' tests are the
/// last of the formula.
pub(crate) fn first_test(
    conjuncts: usize,
    threads: &[Course],
    thread: usize,
) -> Result<usize, AllocError>
    requires { thread < length threads.now }
    ensures { IfOk result (λ first. first ≡ spec.first_test conjuncts threads.now thread) }
{
    let others = conjuncts.saturating_sub(count_tests(threads)?);
    let before = count_tests(&threads[..thread])?;
    sum(others, before)
}

/// Where a region begins in its thread, and its loads.
#[derive(Clone, Copy)]
pub(crate) struct Begun<'a> {
    /// The terms of the log.
    pub(crate) terms: &'a Terms,
    /// The region's loads.
    pub(crate) loads: &'a [Loaded],
    /// The number of the conjunct of the thread's first test.
    pub(crate) first: usize,
    /// The step at which the region begins.
    pub(crate) begin: usize,
}

impl Begun<'_> {
    /// The first tests after the begin that depend on the state.
    pub(crate) fn tests(&self, alloc: Global, tests: &[Test]) -> Result<Vec<Tested>, AllocError>
        ensures { IfOk result (λ kept. kept.items
            ≡ take 16 (spec.all_tested self.now.terms.now self.now.loads.now self.now.first self.now.begin tests.now)) }
    {
        let mut kept = Vec::new(alloc);
        for (number, test) in tests.iter().enumerate() {
            if kept.len() < MOST_TESTS {
                let tested = self.tested_after(alloc, number, test)?;
                push_some(&mut kept, tested)?;
            }
        }
        Ok(kept)
    }

    /// The test of this number in the thread, if it comes after the begin and depends on the state.
    fn tested_after(
        &self,
        alloc: Global,
        number: usize,
        test: &Test,
    ) -> Result<Option<Tested>, AllocError>
        ensures { IfOk result (λ tested. tested
            ≡ spec.tested_after self.now.terms.now self.now.loads.now self.now.first self.now.begin (number, test.now)) }
    {
        if self.begin < test.step {
            self.tested(alloc, number, test)
        } else {
            Ok(None)
        }
    }

    /// The test of this number in the thread, if it is an expression that depends on the state.
    fn tested(
        &self,
        alloc: Global,
        number: usize,
        test: &Test,
    ) -> Result<Option<Tested>, AllocError>
        ensures { IfOk result (λ tested. tested
            ≡ spec.tested self.now.terms.now self.now.loads.now self.now.first self.now.begin (number, test.now)) }
    {
        let conjunct = sum(self.first, number)?;
        let Some(expr) = term_over(alloc, self.terms, self.loads, test.term)? else {
            return Ok(None);
        };
        if names_slots(&expr, 0) {
            return Ok(None);
        }
        Ok(Some(Tested {
            conjunct,
            test: expr,
            wanted: test.wanted,
        }))
    }
}

/// Appends a test, if there is one.
fn push_some(kept: &mut Vec<Tested>, tested: Option<Tested>) -> Result<(), AllocError>
    ensures { OnOk result (kept.new.items ≡ kept.old.items ++ option_to_list tested) }
{
    if let Some(test) = tested {
        kept.push(test)?;
    }
    Ok(())
}
