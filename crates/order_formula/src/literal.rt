//! The smallest parts of formulas.
ghost use Rattle.std.specs.Prelude.{◌≡◌, true, not};
ghost use Rattle.order_formula.specs.declared.literal.Atom.TheVariants.{Before, Ends, Test};

use sym_terms::Id;

/// A statement that a world and the terms decide. Events and sleeps are named by number.
#[derive(Clone, Copy, Debug)]
pub enum Atom {
    /// The first event comes before the second.
    Before { first: u32, second: u32 },
    /// The event ends the sleep.
    Ends { sleep: u32, by: u32 },
    /// The value of the term isn't 0.
    Test(Id),
}

/// An atom or its negation.
#[derive(Clone, Copy, Debug)]
pub struct Literal {
    /// The atom.
    pub atom: Atom,
    /// Whether it is to be true.
    pub wanted: bool,
}

impl Literal {
    /// The first event comes before the second.
    pub fn before(first: u32, second: u32) -> Literal
        ensures { result ≡ record { atom = Before first second; wanted = true } }
    {
        Literal {
            atom: Atom::Before { first, second },
            wanted: true,
        }
    }

    /// The event ends the sleep.
    pub fn ends(sleep: u32, by: u32) -> Literal
        ensures { result ≡ record { atom = Ends sleep by; wanted = true } }
    {
        Literal {
            atom: Atom::Ends { sleep, by },
            wanted: true,
        }
    }

    /// The value of the term isn't 0.
    pub fn test(term: Id) -> Literal
        ensures { result ≡ record { atom = Test term; wanted = true } }
    {
        Literal {
            atom: Atom::Test(term),
            wanted: true,
        }
    }

    /// The opposite of the literal.
    pub fn opposite(self) -> Literal
        ensures { result ≡ record { atom = self.atom; wanted = not self.wanted } }
    {
        Literal {
            atom: self.atom,
            wanted: !self.wanted,
        }
    }
}
