//! Clauses under construction.
ghost use Rattle.std.specs.Prelude.{◌≡◌, ◌<◌, ◌≤◌, ◌+◌, ◌++◌, [], ◌∷◌, true, pos, length, IfOk, OnOk, OnErr, IsTrue};
ghost use Rattle.cnf_core.specs.Clauses.{var_of, is_clause, is_within};
ghost use Rattle.cnf_core.specs.declared.cnf.TheConstants.{LIMIT};
ghost use Rattle.bit_gates.specs.Folded.{constant, conjunction, disjunction, differing, folded_gate, conditional, HasRoom, IsLarger};

use crate::constant;
use cnf_core::{Cnf, Gate, Lit};
use std::alloc::{AllocError, Global};
use std::marker::Model;

/// Clauses under construction, whose variable 1 is the constant true. Contracts see the clauses; a
/// circuit always has this variable.
#[derive(Debug, Drop)]
pub struct Circuit {
    clauses: Cnf,
}

impl Model for Circuit {
    ghost use Rattle.std.specs.Prelude.{◌<◌};
    ghost use Rattle.cnf_core.specs.Clauses.{Formula};

    ghost Value = { Formula };

    ghost view = { λ c. c.clauses };

    ghost invariant = { λ c. 0 < c.clauses.vars };
}

impl Circuit {
    /// A circuit over variables of which only the first is defined, as the constant true.
    pub fn new(alloc: Global, vars: u32) -> Result<Circuit, AllocError>
        requires one { 0 < vars }
        requires few { vars < LIMIT }
        ensures vars { IfOk result (λ circuit. circuit.vars ≡ vars) }
        ensures clauses { IfOk result (λ circuit. circuit.clauses ≡ (constant true ∷ []) ∷ []) }
    {
        let mut clauses = Cnf::new(alloc, vars);
        clauses.push(&[constant(true)])?;
        Ok(Circuit { clauses })
    }

    /// Its clauses, without an allocation.
    pub fn into_clauses(self) -> Cnf
        ensures { result ≡ self }
    {
        self.clauses
    }

    /// The number of variables.
    pub fn vars(&self) -> u32
        ensures vars { result ≡ self.now.vars }
        ensures one { 0 < result }
        ensures limit { result < LIMIT }
    {
        self.clauses.vars()
    }

    /// The literal of a constant, as a literal of this circuit.
    pub fn constant(&self, value: bool) -> Lit
        ensures literal { result ≡ constant value }
        ensures within { var_of result ≤ self.now.vars }
    {
        let _one = &self.clauses;
        constant(value)
    }

    /// Adds a variable that no clause names yet, and returns its literal.
    pub fn add_variable(&mut self) -> Lit
        requires { self.old.vars + 1 < LIMIT }
        ensures literal { result ≡ pos (self.old.vars + 1) }
        ensures vars { self.new.vars ≡ self.old.vars + 1 }
        ensures clauses { self.new.clauses ≡ self.old.clauses }
    {
        self.clauses.add_variable()
    }

    /// Appends a clause.
    pub fn push(&mut self, clause: &[Lit]) -> Result<(), AllocError>
        requires rises { IsTrue (is_clause clause.now) }
        requires within { IsTrue (is_within self.old.vars clause.now) }
        requires room { length self.old.clauses + 1 < LIMIT }
        ensures vars { self.new.vars ≡ self.old.vars }
        ensures ok { OnOk result (self.new.clauses ≡ self.old.clauses ++ clause.now ∷ []) }
        ensures err { OnErr result (self.new ≡ self.old) }
    {
        self.clauses.push(clause)
    }

    /// The conjunction of two literals.
    pub fn and(&mut self, a: Lit, b: Lit) -> Result<Lit, AllocError>
        requires first { var_of a ≤ self.old.vars }
        requires second { var_of b ≤ self.old.vars }
        requires room { HasRoom 3 self.old }
        ensures literal { IfOk result (λ lit. lit ≡ (conjunction self.old a b).literal) }
        ensures formula { OnOk result (self.new ≡ (conjunction self.old a b).formula) }
        ensures within { IfOk result (λ lit. var_of lit ≤ self.new.vars) }
        ensures larger { OnOk result (IsLarger 3 self.old self.new) }
    {
        if a == constant(false) || b == constant(false) || a == b.opposite() {
            Ok(self.constant(false))
        } else if a == constant(true) || a == b {
            Ok(b)
        } else if b == constant(true) {
            Ok(a)
        } else {
            self.clauses.and_gate(a, b)
        }
    }

    /// The disjunction of two literals.
    pub fn or(&mut self, a: Lit, b: Lit) -> Result<Lit, AllocError>
        requires first { var_of a ≤ self.old.vars }
        requires second { var_of b ≤ self.old.vars }
        requires room { HasRoom 3 self.old }
        ensures literal { IfOk result (λ lit. lit ≡ (disjunction self.old a b).literal) }
        ensures formula { OnOk result (self.new ≡ (disjunction self.old a b).formula) }
        ensures within { IfOk result (λ lit. var_of lit ≤ self.new.vars) }
        ensures larger { OnOk result (IsLarger 3 self.old self.new) }
    {
        Ok(self.and(a.opposite(), b.opposite())?.opposite())
    }

    /// The exclusive or of two literals.
    pub fn xor(&mut self, a: Lit, b: Lit) -> Result<Lit, AllocError>
        requires first { var_of a ≤ self.old.vars }
        requires second { var_of b ≤ self.old.vars }
        requires room { HasRoom 4 self.old }
        ensures literal { IfOk result (λ lit. lit ≡ (differing self.old a b).literal) }
        ensures formula { OnOk result (self.new ≡ (differing self.old a b).formula) }
        ensures within { IfOk result (λ lit. var_of lit ≤ self.new.vars) }
        ensures larger { OnOk result (IsLarger 4 self.old self.new) }
    {
        if a == b {
            Ok(self.constant(false))
        } else if a == b.opposite() {
            Ok(self.constant(true))
        } else if a == constant(false) {
            Ok(b)
        } else if a == constant(true) {
            Ok(b.opposite())
        } else if b == constant(false) {
            Ok(a)
        } else if b == constant(true) {
            Ok(a.opposite())
        } else {
            self.clauses.xor_gate(a, b)
        }
    }

    /// The literal of a gate over two literals.
    pub fn gate(&mut self, gate: Gate, a: Lit, b: Lit) -> Result<Lit, AllocError>
        requires first { var_of a ≤ self.old.vars }
        requires second { var_of b ≤ self.old.vars }
        requires room { HasRoom 4 self.old }
        ensures literal { IfOk result (λ lit. lit ≡ (folded_gate gate self.old a b).literal) }
        ensures formula { OnOk result (self.new ≡ (folded_gate gate self.old a b).formula) }
        ensures within { IfOk result (λ lit. var_of lit ≤ self.new.vars) }
        ensures larger { OnOk result (IsLarger 4 self.old self.new) }
    {
        match gate {
            Gate::And => self.and(a, b),
            Gate::Or => self.or(a, b),
            Gate::Xor => self.xor(a, b),
        }
    }

    /// A literal with the value of `a` if `condition` is true, else of `b`.
    pub fn choose(&mut self, condition: Lit, a: Lit, b: Lit) -> Result<Lit, AllocError>
        requires condition { var_of condition ≤ self.old.vars }
        requires first { var_of a ≤ self.old.vars }
        requires second { var_of b ≤ self.old.vars }
        requires room { HasRoom 9 self.old }
        ensures literal { IfOk result (λ lit. lit ≡ (conditional self.old condition a b).literal) }
        ensures formula { OnOk result (self.new ≡ (conditional self.old condition a b).formula) }
        ensures within { IfOk result (λ lit. var_of lit ≤ self.new.vars) }
        ensures larger { OnOk result (IsLarger 9 self.old self.new) }
    {
        if a == b {
            return Ok(a);
        }
        let first = self.and(condition, a)?;
        let second = self.and(condition.opposite(), b)?;
        self.or(first, second)
    }
}
