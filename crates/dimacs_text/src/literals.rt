//! The literals of an answer, and the assignment that they give.
ghost use Rattle.std.specs.Prelude.{◌≡◌, neg_ℤ, [], IfOk, OnOk};
ghost use Rattle.std.specs.List.{list_any};
ghost use Rattle.std.specs.Ordering.{int_eq};
ghost use Rattle.indexmap.specs.IndexSet.{insert_key};
ghost use Rattle.dimacs_text.specs.Values.{assigned, is_made_true};

use cnf_core::{Assignment, Lit};
use indexmap::IndexSet;
use std::alloc::{AllocError, Global};
use std::marker::Model;

/// The literals that a solver makes true, each once, by first occurrence. Contracts see a list.
///
/// Numbers have 64 bits, so that each variable that a `u32` counts has one.
#[derive(Debug, Drop)]
pub struct Literals {
    numbers: IndexSet<i64>,
}

impl Model for Literals {
    ghost use Rattle.std.specs.Prelude.{ℤ, List};

    ghost Value = { List ℤ };

    ghost view = { λ l. l.numbers.keys };
}

impl Literals {
    /// An empty list.
    pub fn new(alloc: Global) -> Literals
        ensures { result ≡ [] }
    {
        Literals {
            numbers: IndexSet::new(alloc),
        }
    }

    /// Whether a literal is in the list.
    pub fn contains(&self, lit: Lit) -> bool
        ensures { result ≡ list_any (int_eq lit) self.now }
    {
        self.numbers.contains(&i64::from(lit.number()))
    }

    /// Whether the literals make a variable true.
    pub fn make_true(&self, var: u32) -> bool
        ensures { result ≡ is_made_true self.now var }
    {
        self.numbers.contains(&i64::from(var))
    }

    /// Adds a literal, unless it is there already.
    pub fn insert(&mut self, lit: Lit) -> Result<(), AllocError>
        ensures { OnOk result (self.new ≡ insert_key int_eq self.old lit) }
    {
        self.numbers.insert(i64::from(lit.number()))?;
        Ok(())
    }
}

/// The values of the variables 1 to `vars`: a variable is true if its positive literal is in the
/// list. Literals of greater variables are ignored.
pub fn assignment(alloc: Global, literals: &Literals, vars: u32) -> Result<Assignment, AllocError>
    ensures { IfOk result (λ assignment. assignment ≡ assigned vars literals.now) }
{
    let mut values = Vec::with_capacity(alloc, vars as usize)?;
    for place in 0..vars {
        values.push(literals.make_true(place + 1))?;
    }
    Ok(Assignment::new(values))
}
