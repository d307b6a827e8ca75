//! Conjuncts for the outcomes of branches and sites.
ghost use Rattle.std.specs.Prelude.{◌≡◌, ◌++◌, map, IfOk, OnOk};
ghost use Rattle.clap_system.specs.Tests.{test_conjunct, test_formula};

use order_events::one_of;
use order_formula::{Atom, Conjunct, Group, Literal};
use std::alloc::{AllocError, Global};
use sym_exec::{Symbolic, Test};

/// A conjunct for each test.
pub(crate) fn test_conjuncts(
    alloc: Global,
    symbolic: &Symbolic,
) -> Result<Vec<Conjunct>, AllocError>
    ensures { IfOk result (λ conjuncts. conjuncts.items ≡ test_formula symbolic.now) }
{
    let mut conjuncts = Vec::new(alloc);
    for (thread, course) in symbolic.threads().iter().enumerate() {
        push_tests(alloc, thread, course.tests(), &mut conjuncts)?;
    }
    Ok(conjuncts)
}

/// Appends a conjunct for each test of a thread.
fn push_tests(
    alloc: Global,
    thread: usize,
    tests: &[Test],
    conjuncts: &mut Vec<Conjunct>,
) -> Result<(), AllocError>
    ensures { OnOk result (conjuncts.new.items ≡ conjuncts.old.items ++ map (test_conjunct thread) tests.now) }
{
    for test in tests {
        conjuncts.push(conjunct(alloc, thread, *test)?)?;
    }
    Ok(())
}

/// The conjunct that a test of a thread has its wanted outcome.
fn conjunct(alloc: Global, thread: usize, test: Test) -> Result<Conjunct, AllocError>
    ensures { IfOk result (λ conjunct. conjunct ≡ test_conjunct thread test) }
{
    let literal = Literal {
        atom: Atom::Test(test.term),
        wanted: test.wanted,
    };
    let group = Group::Test {
        thread,
        line: test.line,
    };
    one_of(alloc, group, &[literal])
}
