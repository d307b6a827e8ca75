//! The execution of all threads.
ghost use Rattle.std.specs.Prelude.{◌≡◌, ◌<◌, [], length, OnOk, IfOk};
ghost use Rattle.tc_code.specs.Lawful.{IsLawful};
ghost use Rattle.sym_exec.specs.Executed as spec;
ghost use Rattle.sym_exec.specs.helpers.Threads.{HaveTerms};
ghost use Rattle.sym_exec.specs.Thread.{AreOf};
ghost use Rattle.sym_exec.specs.Making.{Grows};

use crate::symbolic::{Course, Symbolic};
use crate::thread::{Thread, ints_of};
use path_walk::{Paths, Walk};
use std::alloc::{AllocError, Global};
use sym_terms::{Id, Terms};
use tc_base::Failing;
use tc_code::Code;

/// Executes the paths of all threads, in their order, with a term in place of each value.
///
/// It checks nothing: paths of other code have terms too, which are meaningless. A slot starts as
/// 0, or, in a child, as the argument that the create on its parent's path hands to it. Fails if
/// out of memory, or if the number of loads exceeds 32 bits; existing terms then keep their
/// meaning.
pub fn execute(
    alloc: Global,
    code: &Code,
    paths: &Paths,
    terms: &mut Terms,
) -> Result<Symbolic, AllocError>
    ensures executed { IfOk result (λ symbolic. record { symbolic = symbolic; nodes = terms.new } ≡ spec.executed code.now paths.now terms.old) }
    ensures grown { Grows terms.old terms.new }
{
    let mut symbolic = Symbolic {
        threads: Vec::new(alloc),
        loads: 0,
    };
    for walk in paths.threads() {
        add_thread(&mut symbolic, alloc, code, paths, terms, walk)?;
    }
    Ok(symbolic)
}

/// Executes the path of the next thread.
fn add_thread(
    symbolic: &mut Symbolic,
    alloc: Global,
    code: &Code,
    paths: &Paths,
    terms: &mut Terms,
    walk: &Walk,
) -> Result<(), AllocError>
    requires { HaveTerms (record { symbolic = symbolic.old; nodes = terms.old }) }
    ensures added { OnOk result (record { symbolic = symbolic.new; nodes = terms.new }
        ≡ spec.with_thread code.now paths.now (record { symbolic = symbolic.old; nodes = terms.old }) walk.now) }
    ensures lawful { IsLawful code.now }
    ensures grown { Grows terms.old terms.new }
{
    let fails = fails_at(paths, symbolic.threads.len(), walk);
    let arguments = arguments_for(&symbolic.threads, walk.name().children());
    let ints = ints_of(code, walk.function());
    let mut thread = Thread::start(alloc, terms, ints, arguments, symbolic.loads)?;
    thread.run(alloc, terms, code, walk, fails)?;
    let Thread {
        loads,
        tests,
        accesses,
        creates,
        ..
    } = thread;
    symbolic.threads.push(Course {
        name: walk.name().clone()?,
        tests,
        accesses,
        creates,
    })?;
    symbolic.loads = loads;
    Ok(())
}

/// The step in which the thread `number` fails, if it does.
fn fails_at(paths: &Paths, number: usize, walk: &Walk) -> Option<usize>
    ensures { result ≡ spec.fails_at paths.now number walk.now }
{
    match paths.failing() {
        Failing::Thread(place) if place == number => Some(walk.places().len().saturating_sub(1)),
        _ => None,
    }
}

/// The terms of a thread's arguments, which its parent hands to it. Main has none.
fn arguments_for<'a>(courses: &'a [Course], name: &[u32]) -> &'a [Id]
    ensures { result.now ≡ spec.arguments_for courses.now name.now }
{
    match name.split_last() {
        Some((number, parent)) => handed_to(courses, parent, *number as usize),
        None => &[],
    }
}

/// The terms that the child `number` of `parent` takes as arguments.
fn handed_to<'a>(courses: &'a [Course], parent: &[u32], number: usize) -> &'a [Id]
    ensures { result.now ≡ spec.handed_to courses.now parent.now number }
{
    for course in courses {
        if course.name().children() == parent {
            return handed_by(course, number);
        }
    }
    &[]
}

/// The terms that a thread hands to its child `number`.
fn handed_by(course: &Course, number: usize) -> &[Id]
    ensures { result.now ≡ spec.handed_by number course.now }
{
    match course.creates().get(number.saturating_sub(1)) {
        Some(handed) => handed.terms(),
        None => &[],
    }
}
