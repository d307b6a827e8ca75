//! Clause numbers.
ghost use Rattle.std.specs.Prelude.{◌≡◌, ◌<◌, ◌^◌};

use std::marker::Model;

/// The name of a clause: its index among the clauses of a search, which contracts see.
#[derive(Debug, Clone, Copy, PartialEq, Eq)]
pub struct ClauseId {
    number: u32,
}

impl Model for ClauseId {
    ghost use Rattle.std.specs.Prelude.{ℕ};

    ghost Value = { ℕ };

    ghost view = { λ k. k.number };

    ghost inverse = { λ n. record { number = n } };
}

impl ClauseId {
    /// The clause at an index.
    pub fn new(number: u32) -> ClauseId
        ensures { result ≡ number }
    {
        ClauseId { number }
    }

    /// Its index in a list with an entry for each clause.
    pub fn index(self) -> usize
        ensures index { result ≡ self }
        ensures small { result < 2 ^ 32 }
    {
        self.number as usize
    }
}
