//! Literals.
ghost use Rattle.std.specs.Prelude.{◌≡◌, ◌%◌, ◌<◌, ◌^◌, IsTrue, ◌↔◌};
ghost use Rattle.cdcl_literals.specs.Literals.{variable_of, opposite_of};

use crate::Variable;
use std::marker::Model;

/// A variable or its negation: a number, twice the variable, plus one if it is negated. Contracts
/// see that number.
#[derive(Debug, Clone, Copy, PartialEq, Eq, PartialOrd, Ord)]
pub struct Literal {
    number: u32,
}

impl Model for Literal {
    ghost use Rattle.std.specs.Prelude.{ℕ};

    ghost Value = { ℕ };

    ghost view = { λ l. l.number };

    ghost inverse = { λ n. record { number = n } };
}

impl Literal {
    /// The literal of a variable.
    pub fn new(variable: Variable, is_negative: bool) -> Literal
        ensures variable { variable_of result ≡ variable }
        ensures negative { IsTrue is_negative ↔ (result % 2 ≡ 1) }
    {
        let positive = 2 * variable.index() as u32;
        Literal {
            number: if is_negative { positive + 1 } else { positive },
        }
    }

    /// Its variable.
    pub fn variable(self) -> Variable
        ensures { result ≡ variable_of self }
    {
        Variable::new(self.number / 2)
    }

    /// Whether it is negated.
    pub fn is_negative(self) -> bool
        ensures { IsTrue result ↔ (self % 2 ≡ 1) }
    {
        self.number % 2 == 1
    }

    /// The other literal of the same variable.
    pub fn opposite(self) -> Literal
        ensures { result ≡ opposite_of self }
    {
        Literal {
            number: if self.number % 2 == 0 {
                self.number + 1
            } else {
                self.number - 1
            },
        }
    }

    /// Its index in a list with an entry for each literal.
    pub fn index(self) -> usize
        ensures index { result ≡ self }
        ensures small { result < 2 ^ 32 }
    {
        self.number as usize
    }
}
