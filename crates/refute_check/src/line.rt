//! Lines, and derivations, which consist of lines.
ghost use Rattle.std.specs.Prelude.{◌≡◌, ℕ, ◌+◌, ◌<◌, ◌≤◌, ◌^◌, List, [], ◌∷◌, ◌++◌, length, slice_get, Some, IsTrue, OnOk, OnErr, IfErr};
ghost use Rattle.refute_check.specs.Numbers.{are_numbers};

use cnf_core::Clause;
use std::alloc::{AllocFailed, Global};
use std::marker::Model;

/// A derivation has at most this many lines.
pub const LINES: u32 = 2_000_000_000;

/// Numbers of clauses, each from 1 to 4,294,967,295. Contracts see them as a list.
#[derive(Debug, Drop)]
pub struct Numbers {
    numbers: Vec<u32>,
}

impl Model for Numbers {
    ghost use Rattle.std.specs.Prelude.{ℕ, List, IsTrue};
    ghost use Rattle.refute_check.specs.Numbers.{are_numbers};

    ghost Value = { List ℕ };

    ghost view = { λ n. n.numbers.items };

    ghost invariant = { λ n. IsTrue (are_numbers n.numbers.items) };
}

impl Numbers {
    /// Wraps these numbers.
    pub fn new(numbers: Vec<u32>) -> Numbers
        requires { IsTrue (are_numbers numbers.items) }
        ensures { result ≡ numbers.items }
    {
        Numbers { numbers }
    }

    /// The numbers.
    pub fn as_slice(&self) -> &[u32]
        ensures numbers { result.now ≡ self.now }
        ensures positive { IsTrue (are_numbers self.now) }
    {
        self.numbers.as_slice()
    }
}

/// A line of a derivation.
#[derive(Debug, Drop)]
pub enum Line {
    /// An implied clause, and the numbers of the clauses that prove it, in the order of their use.
    Add(Clause, Numbers),
    /// The numbers of clauses that are no longer kept.
    Delete(Numbers),
}

/// At most [`LINES`] lines; a deletion names a clause. Contracts see them as a list.
#[derive(Debug, Drop)]
pub struct Derivation {
    lines: Vec<Line>,
}

impl Model for Derivation {
    ghost use Rattle.std.specs.Prelude.{List};
    ghost use Rattle.refute_check.specs.declared.line.Line.{Line};
    ghost use Rattle.refute_check.specs.Refutations.{IsDerivation};

    ghost Value = { List Line };

    ghost view = { λ d. d.lines.items };

    ghost invariant = { λ d. IsDerivation d.lines.items };
}

impl Derivation {
    ghost use Rattle.refute_check.specs.Refutations.{IsDerivation, is_line};
    ghost use Rattle.refute_check.specs.declared.line.TheConstants.{LINES};

    /// The empty derivation.
    pub fn new(alloc: Global) -> Derivation
        ensures { result ≡ [] }
    {
        Derivation {
            lines: Vec::new(alloc),
        }
    }

    /// The lines, in order.
    pub fn lines(&self) -> &[Line]
        ensures lines { result.now ≡ self.now }
        ensures derivation { IsDerivation self.now }
    {
        self.lines.as_slice()
    }

    /// Appends a line. If there is no memory, the line is returned.
    pub fn push(&mut self, line: Line) -> Result<(), AllocFailed<Line>>
        requires line { IsTrue (is_line line) }
        requires room { length self.old < LINES }
        ensures ok { OnOk result (self.new ≡ self.old ++ line ∷ []) }
        ensures err { OnErr result (self.new ≡ self.old) }
        ensures returned { IfErr result (λ failed. failed.value ≡ line) }
    {
        self.lines.push(line)
    }
}
