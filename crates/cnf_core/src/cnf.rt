//! Lists of clauses.
ghost use Rattle.std.specs.Prelude.{
  ◌≡◌,
  ℕ,
  ◌+◌,
  ◌<◌,
  ◌≤◌,
  ℤ,
  pos,
  List,
  [],
  ◌∷◌,
  ◌++◌,
  length,
  slice_get,
  slice_index,
  slice_range,
  ◌==◌,
  Some,
  IsTrue,
  OnOk,
  OnErr,
  IfOk,
  take,
  suc,
  ◌-◌,
};
ghost use Rattle.cnf_core.specs.Clauses.{is_clause, is_within, are_clauses};
ghost use Rattle.cnf_core.specs.declared.cnf.TheConstants.{LIMIT};

use crate::Lit;
use std::alloc::{AllocError, Global};
use std::marker::Model;

/// A list has fewer variables than this, and fewer clauses than this.
pub const LIMIT: u32 = 2_000_000_000;

/// Clauses over the variables 1 to a number. Contracts see this number and the list of the clauses.
///
/// All literals are in one list, with the clauses' ends: 4 bytes a literal and 8 more a clause.
#[derive(Debug, Drop)]
pub struct Cnf {
    vars: u32,
    literals: Vec<Lit>,
    ends: Vec<usize>,
}

impl Model for Cnf {
    ghost use Rattle.cnf_core.specs.Clauses.{Formula};

    ghost Value = { Formula };

    ghost use Rattle.cnf_core.specs.helpers.Layout.{formula_of, IsLaidOut};

    ghost view = { formula_of };

    ghost invariant = { IsLaidOut };
}

/// Where the piece at an index begins, or would begin: where the one before it ends.
fn start(ends: &[usize], place: usize) -> usize
    requires { place ≤ length ends.now }
    ensures { result ≡ slice_index (0 ∷ ends.now) place }
{
    if place == 0 { 0 } else { ends[place - 1] }
}

/// The literals from one index to another.
fn piece(literals: &[Lit], from: usize, to: usize) -> &[Lit]
    requires ordered { from ≤ to }
    requires there { to ≤ length literals.now }
    ensures { result.now ≡ slice_range literals.now from to }
{
    &literals[from..to]
}

impl Cnf {
    ghost use Rattle.cnf_core.specs.helpers.Layout.{all_now};

    /// No clauses over these variables.
    pub fn new(alloc: Global, vars: u32) -> Cnf
        requires { vars < LIMIT }
        ensures vars { result.vars ≡ vars }
        ensures clauses { result.clauses ≡ [] }
    {
        Cnf {
            vars,
            literals: Vec::new(alloc),
            ends: Vec::new(alloc),
        }
    }

    /// The number of variables.
    pub fn vars(&self) -> u32
        ensures vars { result ≡ self.now.vars }
        ensures limit { result < LIMIT }
    {
        self.vars
    }

    /// The number of clauses.
    pub fn len(&self) -> usize
        ensures len { result ≡ length self.now.clauses }
        ensures clauses { IsTrue (are_clauses self.now.vars self.now.clauses) }
        ensures limit { result < LIMIT }
    {
        self.ends.len()
    }

    /// Whether there is no clause.
    pub fn is_empty(&self) -> bool
        ensures { result ≡ (length self.now.clauses == 0) }
    {
        self.ends.is_empty()
    }

    /// The clause at an index, from 0.
    pub fn clause(&self, place: usize) -> &[Lit]
        requires { place < length self.now.clauses }
        ensures clause { slice_get self.now.clauses place ≡ Some result.now }
        ensures rises { IsTrue (is_clause result.now) }
        ensures within { IsTrue (is_within self.now.vars result.now) }
    {
        piece(&self.literals, start(&self.ends, place), self.ends[place])
    }

    /// Adds a variable that no clause names yet, and returns its literal.
    pub fn add_variable(&mut self) -> Lit
        requires { self.old.vars + 1 < LIMIT }
        ensures literal { result ≡ pos (self.old.vars + 1) }
        ensures vars { self.new.vars ≡ self.old.vars + 1 }
        ensures clauses { self.new.clauses ≡ self.old.clauses }
    {
        self.vars += 1;
        Lit::new(self.vars, false)
    }

    /// Appends a clause.
    pub fn push(&mut self, clause: &[Lit]) -> Result<(), AllocError>
        requires rises { IsTrue (is_clause clause.now) }
        requires within { IsTrue (is_within self.old.vars clause.now) }
        requires room { length self.old.clauses + 1 < LIMIT }
        ensures vars { self.new.vars ≡ self.old.vars }
        ensures ok { OnOk result (self.new.clauses ≡ self.old.clauses ++ clause.now ∷ []) }
        ensures err { OnErr result (self.new ≡ self.old) }
    {
        self.ends.reserve(1)?;
        self.literals.extend_from_slice(clause)?;
        self.ends.push(self.literals.len())?;
        Ok(())
    }

    /// Appends clauses; if memory runs out, perhaps only some of them.
    fn push_all(&mut self, clauses: &[&[Lit]]) -> Result<(), AllocError>
        requires clauses { IsTrue (are_clauses self.old.vars (all_now clauses.now)) }
        requires room { length self.old.clauses + length clauses.now < LIMIT }
        ensures vars { self.new.vars ≡ self.old.vars }
        ensures ok { OnOk result (self.new.clauses ≡ self.old.clauses ++ all_now clauses.now) }
        ensures older { length self.old.clauses ≤ length self.new.clauses }
        ensures kept { take (length self.old.clauses) self.new.clauses ≡ self.old.clauses }
    {
        for clause in clauses {
            self.push(clause)?;
        }
        Ok(())
    }

    /// Removes the last variable, and all clauses after the first `len`.
    fn take_back(&mut self, len: usize)
        requires vars { 0 < self.old.vars }
        requires len { len ≤ length self.old.clauses }
        requires clauses { IsTrue (are_clauses (self.old.vars - 1) (take len self.old.clauses)) }
        ensures vars { self.new.vars ≡ self.old.vars - 1 }
        ensures clauses { self.new.clauses ≡ take len self.old.clauses }
    {
        self.vars -= 1;
        self.literals.truncate(start(&self.ends, len));
        self.ends.truncate(len);
    }

    /// Adds a variable and the clauses that define it, and returns its literal.
    pub(crate) fn define(&mut self, clauses: &[&[Lit]]) -> Result<Lit, AllocError>
        requires vars { self.old.vars + 1 < LIMIT }
        requires clauses { IsTrue (are_clauses (suc self.old.vars) (all_now clauses.now)) }
        requires room { length self.old.clauses + length clauses.now < LIMIT }
        ensures literal { IfOk result (λ lit. lit ≡ pos (suc self.old.vars)) }
        ensures vars { OnOk result (self.new.vars ≡ suc self.old.vars) }
        ensures clauses { OnOk result (self.new.clauses ≡ self.old.clauses ++ all_now clauses.now) }
        ensures err { OnErr result (self.new ≡ self.old) }
    {
        let len = self.len();
        let lit = self.add_variable();
        match self.push_all(clauses) {
            Ok(()) => Ok(lit),
            Err(refused) => {
                self.take_back(len);
                Err(refused)
            }
        }
    }
}
