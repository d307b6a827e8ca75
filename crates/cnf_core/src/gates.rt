//! The gates of a circuit.
ghost use Rattle.std.specs.Prelude.{◌≡◌, ◌≤◌, ◌<◌, ◌+◌, ◌++◌, suc, pos, neg_ℤ, length, IfOk, OnOk, OnErr};
ghost use Rattle.cnf_core.specs.Clauses.{var_of};
ghost use Rattle.cnf_core.specs.declared.cnf.TheConstants.{LIMIT};
ghost use Rattle.cnf_core.specs.Gates.{BlockKeeps, BlockDecides, and_clauses, xor_clauses, is_one};

use crate::{Cnf, Lit};
use std::alloc::AllocError;

/// The function that a gate computes of two literals.
#[derive(Clone, Copy, Debug, PartialEq, Eq)]
pub enum Gate {
    /// Conjunction.
    And,
    /// Disjunction.
    Or,
    /// Exclusive or.
    Xor,
}

/// A model of a formula, extended by the values of a block's gates, is one with the block added.
pub fn block_keeps()
    ensures { BlockKeeps }
{}

/// A model with a block gives the block's variables the values of their gates.
pub fn block_decides()
    ensures { BlockDecides }
{}

impl Cnf {
    ghost use Rattle.cnf_core.specs.Gates.{after_gate};

    /// Adds a variable for the conjunction of two literals, which may share a variable.
    pub fn and_gate(&mut self, a: Lit, b: Lit) -> Result<Lit, AllocError>
        requires first { var_of a ≤ self.old.vars }
        requires second { var_of b ≤ self.old.vars }
        requires vars { self.old.vars + 1 < LIMIT }
        requires clauses { length self.old.clauses + 3 < LIMIT }
        ensures literal { IfOk result (λ lit. lit ≡ pos (suc self.old.vars)) }
        ensures ok { OnOk result (self.new ≡ after_gate self.old (record { gate = Gate.And; first = a; second = b })) }
        ensures err { OnErr result (self.new ≡ self.old) }
    {
        self.define_and(a, b, Lit::new(self.vars() + 1, false))
    }

    /// Adds a variable for the disjunction of two literals, which may share a variable.
    pub fn or_gate(&mut self, a: Lit, b: Lit) -> Result<Lit, AllocError>
        requires first { var_of a ≤ self.old.vars }
        requires second { var_of b ≤ self.old.vars }
        requires vars { self.old.vars + 1 < LIMIT }
        requires clauses { length self.old.clauses + 3 < LIMIT }
        ensures literal { IfOk result (λ lit. lit ≡ pos (suc self.old.vars)) }
        ensures ok { OnOk result (self.new ≡ after_gate self.old (record { gate = Gate.Or; first = a; second = b })) }
        ensures err { OnErr result (self.new ≡ self.old) }
    {
        self.define_and(a.opposite(), b.opposite(), Lit::new(self.vars() + 1, true))
    }

    /// Adds a variable for the exclusive or of two literals, which may share a variable.
    pub fn xor_gate(&mut self, a: Lit, b: Lit) -> Result<Lit, AllocError>
        requires first { var_of a ≤ self.old.vars }
        requires second { var_of b ≤ self.old.vars }
        requires vars { self.old.vars + 1 < LIMIT }
        requires clauses { length self.old.clauses + 4 < LIMIT }
        ensures literal { IfOk result (λ lit. lit ≡ pos (suc self.old.vars)) }
        ensures ok { OnOk result (self.new ≡ after_gate self.old (record { gate = Gate.Xor; first = a; second = b })) }
        ensures err { OnErr result (self.new ≡ self.old) }
    {
        self.define_xor(a, b, Lit::new(self.vars() + 1, false))
    }

    /// Adds the variable of `out`, and clauses that make `out` the conjunction of two literals.
    fn define_and(&mut self, a: Lit, b: Lit, out: Lit) -> Result<Lit, AllocError>
        requires first { var_of a ≤ self.old.vars }
        requires second { var_of b ≤ self.old.vars }
        requires out { var_of out ≡ suc self.old.vars }
        requires vars { self.old.vars + 1 < LIMIT }
        requires clauses { length self.old.clauses + 3 < LIMIT }
        ensures literal { IfOk result (λ lit. lit ≡ pos (suc self.old.vars)) }
        ensures vars { OnOk result (self.new.vars ≡ suc self.old.vars) }
        ensures clauses { OnOk result (self.new.clauses ≡ self.old.clauses ++ and_clauses a b out) }
        ensures err { OnErr result (self.new ≡ self.old) }
    {
        let no = out.opposite();
        if a == b {
            self.define(&[&[a.opposite(), out], &[a, no]])
        } else if a == b.opposite() {
            self.define(&[&[no]])
        } else if a.var() < b.var() {
            self.define(&[&[a.opposite(), b.opposite(), out], &[a, no], &[b, no]])
        } else {
            self.define(&[&[b.opposite(), a.opposite(), out], &[b, no], &[a, no]])
        }
    }

    /// Adds the variable of `out`, and clauses that make `out` the exclusive or of two literals.
    fn define_xor(&mut self, a: Lit, b: Lit, out: Lit) -> Result<Lit, AllocError>
        requires first { var_of a ≤ self.old.vars }
        requires second { var_of b ≤ self.old.vars }
        requires out { var_of out ≡ suc self.old.vars }
        requires vars { self.old.vars + 1 < LIMIT }
        requires clauses { length self.old.clauses + 4 < LIMIT }
        ensures literal { IfOk result (λ lit. lit ≡ pos (suc self.old.vars)) }
        ensures vars { OnOk result (self.new.vars ≡ suc self.old.vars) }
        ensures clauses { OnOk result (self.new.clauses ≡ self.old.clauses ++ xor_clauses a b out) }
        ensures err { OnErr result (self.new ≡ self.old) }
    {
        let no = out.opposite();
        if a == b {
            self.define(&[&[no]])
        } else if a == b.opposite() {
            self.define(&[&[out]])
        } else if a.var() < b.var() {
            self.define_one(a, b, out)
        } else {
            self.define_one(b, a, out)
        }
    }

    /// The same, if the first literal's variable is below the second's.
    fn define_one(&mut self, a: Lit, b: Lit, out: Lit) -> Result<Lit, AllocError>
        requires rising { var_of a < var_of b }
        requires second { var_of b ≤ self.old.vars }
        requires out { var_of out ≡ suc self.old.vars }
        requires vars { self.old.vars + 1 < LIMIT }
        requires clauses { length self.old.clauses + 4 < LIMIT }
        ensures literal { IfOk result (λ lit. lit ≡ pos (suc self.old.vars)) }
        ensures vars { OnOk result (self.new.vars ≡ suc self.old.vars) }
        ensures clauses { OnOk result (self.new.clauses ≡ self.old.clauses ++ is_one a b out) }
        ensures err { OnErr result (self.new ≡ self.old) }
    {
        let (na, nb, no) = (a.opposite(), b.opposite(), out.opposite());
        self.define(&[&[na, nb, no], &[a, b, no], &[a, nb, out], &[na, b, out]])
    }
}
