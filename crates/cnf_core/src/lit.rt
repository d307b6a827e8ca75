//! Literals.
ghost use Rattle.std.specs.Prelude.{◌≡◌, ◌≢◌, ◌≤◌, ◌<◌, ◌^◌, ℤ, pos, negsuc, neg_ℤ, IsTrue, ◌↔◌, ◌<ℤ◌, SomeIff};
ghost use Rattle.cnf_core.specs.Clauses.{var_of};

use std::marker::Model;

/// A variable or its negation: a number from 1 to 2,147,483,647, negative if it is negated.
///
/// These are the numbers of DIMACS. Contracts see a literal as that integer.
#[derive(Clone, Copy, Debug, PartialEq, Eq)]
pub struct Lit {
    number: i32,
}

impl Model for Lit {
    ghost use Rattle.std.specs.Prelude.{ℤ, ◌<◌, ◌^◌};
    ghost use Rattle.cnf_core.specs.Clauses.{var_of};

    ghost Value = { ℤ };

    ghost view = { λ l. l.number };

    ghost invariant = { λ l. (0 < var_of l.number) × (var_of l.number < 2 ^ 31) };

    ghost inverse = { λ z. record { number = z } };
}

impl Lit {
    /// The literal of a variable.
    pub fn new(var: u32, negative: bool) -> Lit
        requires positive { 0 < var }
        requires small { var < 2 ^ 31 }
        ensures var { var_of result ≡ var }
        ensures negative { IsTrue negative ↔ (result <ℤ pos 0) }
    {
        let number = var as i32;
        Lit {
            number: if negative { -number } else { number },
        }
    }

    /// Its variable.
    pub fn var(self) -> u32
        ensures var { result ≡ var_of self }
        ensures positive { 0 < result }
        ensures small { result < 2 ^ 31 }
    {
        self.number.unsigned_abs()
    }

    /// Whether it is negated.
    pub fn negative(self) -> bool
        ensures { IsTrue result ↔ (self <ℤ pos 0) }
    {
        self.number < 0
    }

    /// The negation of this literal.
    pub fn opposite(self) -> Lit
        ensures { result ≡ neg_ℤ self }
    {
        Lit {
            number: -self.number,
        }
    }

    /// The literal as DIMACS writes it.
    pub fn number(self) -> i32
        ensures { result ≡ self }
    {
        self.number
    }
}
