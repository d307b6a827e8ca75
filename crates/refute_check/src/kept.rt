//! The kept clauses, by their numbers.
ghost use Rattle.std.specs.Prelude.{◌≡◌, ℤ, List, OnOk, OnErr, is_some, IfSome};
ghost use Rattle.std.specs.Option.{option_copied};
ghost use Rattle.std.specs.FinMap as map;

use crate::blocks::Blocks;
use cnf_core::Clause;
use std::alloc::{AllocError, Global};
use std::collections::HashMap;
use std::marker::Model;

/// Clauses by their numbers. Contracts see a finite map.
#[derive(Drop)]
pub struct Kept {
    clauses: HashMap<u32, Clause, Blocks>,
}

impl Model for Kept {
    ghost use Rattle.refute_check.specs.Kept.{KeptClauses, kept_code};
    ghost use Rattle.std.specs.FinMap as map;

    ghost Value = { KeptClauses };

    ghost coded = { kept_code };

    ghost view = { λ k. map.from_entries k.clauses.entries };
}

impl Kept {
    /// An empty map.
    pub fn new(alloc: Global) -> Kept
        ensures { result ≡ map.empty }
    {
        Kept {
            clauses: HashMap::with_hasher(alloc, Blocks::new()),
        }
    }

    /// The clause with this number.
    pub fn get(&self, number: u32) -> Option<&Clause>
        ensures { option_copied result ≡ map.get self.now number }
    {
        self.clauses.get(&number)
    }

    /// Keeps a clause under this number.
    pub fn insert(&mut self, number: u32, clause: Clause) -> Result<(), AllocError>
        ensures ok { OnOk result (self.new ≡ map.insert self.old number clause) }
        ensures err { OnErr result (self.new ≡ self.old) }
    {
        self.clauses.insert(number, clause)?;
        Ok(())
    }

    /// Removes the clause with this number, and tells whether it was there.
    pub fn remove(&mut self, number: u32) -> bool
        ensures there { result ≡ is_some (map.get self.old number) }
        ensures gone { self.new ≡ map.remove self.old number }
    {
        self.clauses.remove(&number).is_some()
    }
}
