//! Names of threads.
ghost use Rattle.std.specs.Prelude.{◌≡◌, ◌≤◌, ℕ, ◌+◌, List, [], ◌∷◌, ◌++◌, IfOk, bytes_eq, nat_eq, Some};
ghost use Rattle.std.specs.Ordering.{nat_cmp, as_partial_cmp};
ghost use Rattle.std.specs.Cmp.Lexicographic.{slice_cmp, pointwise};
ghost use Rattle.std.specs.Cmp.Rules.{comparing};
ghost use Rattle.std.proofs.Common.{rules};
ghost use Rattle.tc_base.specs.Names.{child, name_text};

use smallvec::SmallVec;
use std::alloc::{AllocError, Global};
use std::cmp::Ordering;
use std::fmt;
use std::marker::Model;

/// The name of a thread: the numbers of the creates, from 1, that lead from main to it.
///
/// Main has no numbers, and its first child the number 1. A thread has the same name in every
/// schedule. Names are ordered lexicographically, a prefix first.
#[derive(Debug, Drop)]
pub struct ThreadName {
    children: SmallVec<u32, 8>,
}

impl Model for ThreadName {
    ghost use Rattle.std.specs.Prelude.{List, ℕ};

    ghost Value = { List ℕ };

    ghost view = { λ n. n.children.items };
}

impl ThreadName {
    /// Main's name.
    pub fn main(alloc: Global) -> Self
        ensures { result ≡ [] }
    {
        ThreadName {
            children: SmallVec::new(alloc),
        }
    }

    /// The name of this thread's child of that number, from 1.
    pub fn child(&self, number: u32) -> Result<ThreadName, AllocError>
        requires { 1 ≤ number }
        ensures { IfOk result (λ name. name ≡ child self.now number) }
    {
        let mut name = self.clone()?;
        name.children.push(number)?;
        Ok(name)
    }

    /// Whether this is the name of the parent's child of that number.
    pub fn is_child_of(&self, parent: &ThreadName, number: u32) -> bool
        ensures { result ≡ bytes_eq self.now (child parent.now number) }
    {
        match self.children().split_last() {
            Some((last, front)) => *last == number && front == parent.children(),
            None => false,
        }
    }

    /// The numbers of the creates, from main on.
    pub fn children(&self) -> &[u32]
        ensures { result.now ≡ self.now }
    {
        self.children.as_slice()
    }
}

impl Clone for ThreadName {
    ghost use Rattle.std.specs.Prelude.{◌≡◌};

    ghost is_clone = { λ n m. m ≡ n };

    fn clone(&self) -> Result<Self, AllocError> {
        let children = SmallVec::from_slice(*self.children.allocator(), self.children.as_slice())?;
        Ok(ThreadName { children })
    }
}

/// `0` for main, then `.k` for each create.
impl fmt::Display for ThreadName {
    ghost use Rattle.std.specs.Prelude.{Some};
    ghost use Rattle.tc_base.specs.Names.{name_text};

    ghost output = { λ n. Some (name_text n) };

    fn fmt<W: fmt::Write>(&self, f: &mut fmt::Formatter<W>) -> fmt::Result {
        write!(f, "0")?;
        for child in self.children() {
            write!(f, ".{child}")?;
        }
        Ok(())
    }
}

impl PartialEq for ThreadName {
    ghost eq = { pointwise nat_eq };

    ghost laws = { Prim.search (comparing, rules) };

    fn eq(&self, other: &Self) -> bool {
        self.children() == other.children()
    }
}

impl Eq for ThreadName {
    ghost laws = { Prim.search (comparing, rules) };
}

impl PartialOrd for ThreadName {
    ghost partial_cmp = { as_partial_cmp (slice_cmp nat_cmp) };

    ghost laws = { Prim.search (comparing, rules) };

    fn partial_cmp(&self, other: &Self) -> Option<Ordering> {
        Some(self.cmp(other))
    }
}

impl Ord for ThreadName {
    ghost cmp = { slice_cmp nat_cmp };

    ghost total = { Prim.search (comparing, rules) };

    ghost matches_partial_cmp = { Prim.search (comparing, rules) };

    ghost matches_eq = { Prim.search (comparing, rules) };

    fn cmp(&self, other: &Self) -> Ordering {
        self.children().cmp(other.children())
    }
}
