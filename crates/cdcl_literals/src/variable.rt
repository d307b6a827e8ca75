//! Variables.
ghost use Rattle.std.specs.Prelude.{◌≡◌, ◌<◌, ◌^◌};
ghost use Rattle.cdcl_literals.specs.Literals.{positive_of};

use crate::Literal;
use std::marker::Model;

/// A variable: a number from 0, which contracts see.
#[derive(Debug, Clone, Copy, PartialEq, Eq, PartialOrd, Ord)]
pub struct Variable {
    number: u32,
}

impl Model for Variable {
    ghost use Rattle.std.specs.Prelude.{ℕ, ◌<◌, ◌^◌};

    ghost Value = { ℕ };

    ghost view = { λ v. v.number };

    ghost invariant = { λ v. v.number < 2 ^ 31 };

    ghost inverse = { λ n. record { number = n } };
}

impl Variable {
    /// The variable of a number.
    pub fn new(number: u32) -> Variable
        requires { number < 2 ^ 31 }
        ensures { result ≡ number }
    {
        Variable { number }
    }

    /// Its literal that isn't negated.
    pub fn positive(self) -> Literal
        ensures { result ≡ positive_of self }
    {
        Literal::new(self, false)
    }

    /// Its index in a list with an entry for each variable.
    pub fn index(self) -> usize
        ensures index { result ≡ self }
        ensures small { result < 2 ^ 31 }
    {
        self.number as usize
    }
}
