//! Clauses.
ghost use Rattle.std.specs.Prelude.{◌≡◌, ℤ, List, IsTrue, ◌↔◌};
ghost use Rattle.cnf_core.specs.Clauses.{is_clause, is_within};

use crate::Lit;
use std::alloc::Global;
use std::marker::Model;

/// A disjunction of literals that rise strictly by variable. Contracts see them as a list.
#[derive(Debug, Drop)]
pub struct Clause {
    literals: Vec<Lit>,
}

impl Model for Clause {
    ghost use Rattle.std.specs.Prelude.{ℤ, List, IsTrue};
    ghost use Rattle.cnf_core.specs.Clauses.{is_clause};

    ghost Value = { List ℤ };

    ghost view = { λ c. c.literals.items };

    ghost invariant = { λ c. IsTrue (is_clause c.literals.items) };
}

/// Whether literals rise strictly by variable.
pub fn is_clause(literals: &[Lit]) -> bool
    ensures { result ≡ is_clause literals.now }
{
    let mut low = 0;
    for lit in literals {
        if lit.var() <= low {
            return false;
        }
        low = lit.var();
    }
    true
}

/// Whether each literal's variable is at most `vars`.
pub fn is_within(vars: u32, literals: &[Lit]) -> bool
    ensures { result ≡ is_within vars literals.now }
{
    for lit in literals {
        if lit.var() > vars {
            return false;
        }
    }
    true
}

impl Clause {
    /// The clause of these literals.
    pub fn new(literals: Vec<Lit>) -> Clause
        requires { IsTrue (is_clause literals.items) }
        ensures { result ≡ literals.items }
    {
        Clause { literals }
    }

    /// Its literals.
    pub fn literals(&self) -> &[Lit]
        ensures literals { result.now ≡ self.now }
        ensures rises { IsTrue (is_clause self.now) }
    {
        self.literals.as_slice()
    }
}
