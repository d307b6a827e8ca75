//! Assignments, and whether they satisfy clauses.
ghost use Rattle.std.specs.Prelude.{◌≡◌, ◌≤◌, ◌<◌, Bool, List, length, IsTrue};
ghost use Rattle.cnf_core.specs.Clauses.{value_in, satisfies, var_of, literal_true, clause_true, is_within};

use crate::{Cnf, Lit};
use std::alloc::Global;
use std::marker::Model;

/// A value for each of the variables 1 to some number. Contracts see the list of the values.
#[derive(Debug, Drop)]
pub struct Assignment {
    values: Vec<bool>,
}

impl Model for Assignment {
    ghost use Rattle.std.specs.Prelude.{Bool, List};

    ghost Value = { List Bool };

    ghost view = { λ a. a.values.items };
}

impl Assignment {
    /// The assignment of these values; the first is that of variable 1.
    pub fn new(values: Vec<bool>) -> Assignment
        ensures { result ≡ values.items }
    {
        Assignment { values }
    }

    /// Its values, without an allocation.
    pub fn into_values(self) -> Vec<bool>
        ensures { result.items ≡ self }
    {
        let Assignment { values } = self;
        values
    }

    /// The number of its variables.
    pub fn vars(&self) -> usize
        ensures { result ≡ length self.now }
    {
        self.values.len()
    }

    /// The value of a variable.
    pub fn get(&self, var: u32) -> bool
        requires positive { 0 < var }
        requires there { var ≤ length self.now }
        ensures { result ≡ value_in self.now var }
    {
        self.values[var as usize - 1]
    }

    /// The value of a literal.
    pub fn is_true(&self, lit: Lit) -> bool
        requires { var_of lit ≤ length self.now }
        ensures { result ≡ literal_true (value_in self.now) lit }
    {
        self.get(lit.var()) != lit.negative()
    }

    /// Whether a literal of the clause is true.
    fn is_clause_true(&self, clause: &[Lit]) -> bool
        requires { IsTrue (is_within (length self.now) clause.now) }
        ensures { result ≡ clause_true (value_in self.now) clause.now }
    {
        for lit in clause {
            if self.is_true(*lit) {
                return true;
            }
        }
        false
    }
}

/// Whether the assignment satisfies every clause.
pub fn satisfies(cnf: &Cnf, assignment: &Assignment) -> bool
    requires { cnf.now.vars ≤ length assignment.now }
    ensures { result ≡ satisfies (value_in assignment.now) cnf.now.clauses }
{
    for place in 0..cnf.len() {
        if !assignment.is_clause_true(cnf.clause(place)) {
            return false;
        }
    }
    true
}
