//! The literals that the check of a line takes as true.
ghost use Rattle.std.specs.Prelude.{◌≡◌, ◌<◌, ◌≤◌, ◌++◌, ◌∷◌, [], neg_ℤ, OnOk, OnErr, IfOk, IsTrue, map};
ghost use Rattle.cnf_core.specs.Clauses.{var_of, is_within};
ghost use Rattle.cnf_core.specs.declared.cnf.TheConstants.{LIMIT};
ghost use Rattle.refute_check.specs.Literals.{is_among, left};
ghost use Rattle.refute_check.specs.helpers.Given.{place_of};

use cnf_core::Lit;
use std::alloc::{AllocError, Global};
use std::marker::Model;

/// Literals over the variables 1 to a number, each with a mark for lookups in constant time.
///
/// Clearing takes time linear in the literals, whatever the number of variables.
#[derive(Drop)]
pub struct Given {
    vars: u32,
    literals: Vec<Lit>,
    marks: Vec<bool>,
}

impl Model for Given {
    ghost use Rattle.refute_check.specs.helpers.Given.{Assumed, assumed_of, AreMarked};

    ghost Value = { Assumed };

    ghost view = { assumed_of };

    ghost invariant = { AreMarked };
}

/// The index of a literal's mark.
fn place_of(lit: Lit) -> usize
    ensures place { result ≡ place_of lit }
    ensures positive { 0 < var_of lit }
{
    let place = 2 * lit.var() as usize;
    if lit.negative() { place + 1 } else { place }
}

/// What is left of a clause without its false literals.
#[derive(Clone, Copy, Debug, PartialEq, Eq)]
pub enum Left {
    /// No literal is left: the clause is false.
    Nothing,
    /// One literal is left, and must be true.
    One(Lit),
    /// More than one literal is left.
    More,
}

impl Given {
    ghost use Rattle.refute_check.specs.Left.{left_of_clause};
    ghost use Rattle.refute_check.specs.helpers.Given.{those};

    /// An empty set of literals.
    pub fn new(alloc: Global, vars: u32) -> Result<Given, AllocError>
        requires { vars < LIMIT }
        ensures vars { IfOk result (λ given. given.vars ≡ vars) }
        ensures literals { IfOk result (λ given. given.literals ≡ []) }
    {
        Ok(Given {
            vars,
            literals: Vec::new(alloc),
            marks: vec![in alloc; false; 2 * vars as usize + 2]?,
        })
    }

    /// Whether a literal is false if these are true.
    pub fn is_false(&self, lit: Lit) -> bool
        requires { var_of lit ≤ self.now.vars }
        ensures { result ≡ is_among self.now.literals (neg_ℤ lit) }
    {
        self.marks[place_of(lit.opposite())]
    }

    /// Adds a literal.
    pub fn assume(&mut self, lit: Lit) -> Result<(), AllocError>
        requires { var_of lit ≤ self.old.vars }
        ensures vars { self.new.vars ≡ self.old.vars }
        ensures ok { OnOk result (self.new.literals ≡ self.old.literals ++ lit ∷ []) }
        ensures err { OnErr result (self.new ≡ self.old) }
    {
        self.literals.push(lit)?;
        self.marks[place_of(lit)] = true;
        Ok(())
    }

    /// Removes all literals.
    pub fn clear(&mut self)
        ensures vars { self.new.vars ≡ self.old.vars }
        ensures literals { self.new.literals ≡ [] }
    {
        while let Some(lit) = self.literals.pop() {
            self.marks[place_of(lit)] = false;
        }
    }

    /// What is left of a clause if these are true.
    pub fn left(&self, clause: &[Lit]) -> Left
        requires { IsTrue (is_within self.now.vars clause.now) }
        ensures left { result ≡ left_of_clause self.now.literals clause.now }
        ensures within { IsTrue (is_within self.now.vars (those result)) }
    {
        let mut found = Left::Nothing;
        for lit in clause {
            if !self.is_false(*lit) {
                match found {
                    Left::Nothing => found = Left::One(*lit),
                    _ => return Left::More,
                }
            }
        }
        found
    }

    /// Adds the negations of some literals.
    pub fn assume_opposites(&mut self, literals: &[Lit]) -> Result<(), AllocError>
        requires none { self.old.literals ≡ [] }
        requires within { IsTrue (is_within self.old.vars literals.now) }
        ensures vars { self.new.vars ≡ self.old.vars }
        ensures ok { OnOk result (self.new.literals ≡ map neg_ℤ literals.now) }
    {
        for lit in literals {
            self.assume(lit.opposite())?;
        }
        Ok(())
    }
}
