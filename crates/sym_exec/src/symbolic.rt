//! The results of symbolic execution.
ghost use Rattle.std.specs.Prelude.{◌≡◌};

use std::marker::Model;
use sym_terms::Id;
use tc_base::ThreadName;

/// A test of a term: a branch or a site on a thread's path.
#[derive(Clone, Copy, Debug, PartialEq, Eq)]
pub struct Test {
    /// The number of the step in its thread, from 0.
    pub step: usize,
    /// The line of its instruction in the program's text, from 1.
    pub line: u32,
    /// The tested term. For an index, or the distance of a shift, it is 1 if that is in range, and
    /// 0 otherwise.
    pub term: Id,
    /// Whether the path wants the term to be nonzero: the outcome of a branch, and true for a site.
    /// It is false for a site only in the last test of the thread that failed.
    pub wanted: bool,
}

/// A cell of memory, whose index is a term.
pub type Cell = tc_code::Cell<Id>;

/// An event that loads, stores or does both, with its step, its cell and its values.
#[derive(Clone, Copy, Debug, PartialEq, Eq)]
pub struct Access {
    /// The number of the step in its thread, from 0.
    pub step: usize,
    /// The cell.
    pub cell: Cell,
    /// The number of the load, if it is one, and of the symbol for its value. Loads are counted
    /// from 0, thread by thread and then step by step.
    pub takes: Option<u32>,
    /// The term of the value that is stored, if one is.
    pub writes: Option<Id>,
}

/// The arguments that a create hands to its child.
#[derive(Debug, Drop)]
pub struct Handed {
    pub(crate) step: usize,
    pub(crate) terms: Vec<Id>,
}

impl Model for Handed {
    ghost use Rattle.sym_exec.specs.Thread.{Handed as PlainHanded};

    ghost Value = { PlainHanded };

    ghost view = { λ h. record { step = h.step; terms = h.terms.items } };
}

impl Handed {
    /// The number of the step in its thread, from 0.
    pub fn step(&self) -> usize
        ensures { result ≡ self.now.step }
    {
        self.step
    }

    /// The terms of the arguments.
    pub fn terms(&self) -> &[Id]
        ensures { result.now ≡ self.now.terms }
    {
        &self.terms
    }
}

/// The result of executing one thread's path.
#[derive(Debug, Drop)]
pub struct Course {
    pub(crate) name: ThreadName,
    pub(crate) tests: Vec<Test>,
    pub(crate) accesses: Vec<Access>,
    pub(crate) creates: Vec<Handed>,
}

impl Model for Course {
    ghost use Rattle.sym_exec.specs.Executed.{Course as PlainCourse};

    ghost Value = { PlainCourse };

    ghost view = { λ c. record { name = c.name; tests = c.tests.items; accesses = c.accesses.items; creates = c.creates.items } };
}

impl Course {
    /// The thread's name.
    pub fn name(&self) -> &ThreadName
        ensures { result.now ≡ self.now.name }
    {
        &self.name
    }

    /// Its tests, in the order of the steps: those of branches and of sites over expressions. A
    /// site about a mutex or a thread variable has no test, since the path alone decides it.
    pub fn tests(&self) -> &[Test]
        ensures { result.now ≡ self.now.tests }
    {
        &self.tests
    }

    /// Its loads, stores and exchanges, in the order of the steps.
    pub fn accesses(&self) -> &[Access]
        ensures { result.now ≡ self.now.accesses }
    {
        &self.accesses
    }

    /// The arguments that its creates hand to children, which are numbered from 1 in this order.
    pub fn creates(&self) -> &[Handed]
        ensures { result.now ≡ self.now.creates }
    {
        &self.creates
    }
}

/// The result of executing the paths of all threads.
#[derive(Debug, Drop)]
pub struct Symbolic {
    pub(crate) threads: Vec<Course>,
    pub(crate) loads: u32,
}

impl Model for Symbolic {
    ghost use Rattle.sym_exec.specs.Executed.{Symbolic as PlainSymbolic};

    ghost Value = { PlainSymbolic };

    ghost view = { λ s. record { threads = s.threads.items; loads = s.loads } };
}

impl Symbolic {
    /// The result for each thread, in the order of the paths.
    pub fn threads(&self) -> &[Course]
        ensures { result.now ≡ self.now.threads }
    {
        &self.threads
    }

    /// The number of loads of all threads together. Symbols are numbered below it.
    pub fn loads(&self) -> u32
        ensures { result ≡ self.now.loads }
    {
        self.loads
    }
}
