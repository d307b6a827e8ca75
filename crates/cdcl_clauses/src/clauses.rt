//! Clauses.
ghost use Rattle.std.specs.Prelude.{◌≡◌, ◌+◌, ◌-◌, ◌^◌, ◌<◌, ◌≤◌, List, [], ◌∷◌, ◌++◌, true, false, OnOk, OnErr, length, take, slice_set};

use cdcl_literals::{ClauseId, Literal};
use std::alloc::{AllocError, Global};
use std::marker::Model;

/// The range of a clause's literals, the two literals it watches, and when it was last used.
#[derive(Debug, Clone, Copy)]
struct Entry {
    start: usize,
    end: usize,
    first: Literal,
    second: Literal,
    used: u32,
    kept: bool,
}

/// Clauses by number, from 0; their literals never change. A dropped clause keeps its number.
#[derive(Debug, Drop)]
pub struct Clauses {
    literals: Vec<Literal>,
    entries: Vec<Entry>,
}

impl Model for Clauses {
    ghost use Rattle.std.specs.Prelude.{List};
    ghost use Rattle.cdcl_clauses.specs.Clauses.{Clause};

    ghost Value = { List Clause };

    ghost use Rattle.cdcl_clauses.specs.helpers.Layout.{clauses_of, IsLaidOut};

    ghost view = { clauses_of };

    ghost invariant = { IsLaidOut };
}

impl Clauses {
    ghost use Rattle.cdcl_clauses.specs.Clauses.{at, kept_clause, dropped, watches, beside};

    /// An empty list of clauses.
    pub fn new(alloc: Global) -> Clauses
        ensures { result ≡ [] }
    {
        Clauses {
            literals: Vec::new(alloc),
            entries: Vec::new(alloc),
        }
    }

    /// The number of clauses, kept or not.
    pub fn len(&self) -> usize
        ensures { result ≡ length self.now }
    {
        self.entries.len()
    }

    /// The number of the clause that is appended next.
    pub fn next_id(&self) -> ClauseId
        requires { length self.now < 2 ^ 32 }
        ensures { result ≡ length self.now }
    {
        ClauseId::new(self.entries.len() as u32)
    }

    /// The literals of a clause.
    pub fn literals(&self, clause: ClauseId) -> &[Literal]
        requires { clause < length self.now }
        ensures { result.now ≡ (at self.now clause).literals }
    {
        let entry = self.entries[clause.index()];
        &self.literals.as_slice()[entry.start..entry.end]
    }

    /// Whether a clause is kept.
    pub fn is_kept(&self, clause: ClauseId) -> bool
        requires { clause < length self.now }
        ensures { result ≡ (at self.now clause).kept }
    {
        self.entries[clause.index()].kept
    }

    /// Whether a clause is kept and watches the literal.
    pub fn is_watching(&self, clause: ClauseId, literal: Literal) -> bool
        requires { clause < length self.now }
        ensures { result ≡ watches (at self.now clause) literal }
    {
        let entry = self.entries[clause.index()];
        entry.kept && (entry.first == literal || entry.second == literal)
    }

    /// The other literal that a clause watches.
    pub fn beside(&self, clause: ClauseId, literal: Literal) -> Literal
        requires { clause < length self.now }
        ensures { result ≡ beside (at self.now clause) literal }
    {
        let entry = self.entries[clause.index()];
        if entry.first == literal {
            entry.second
        } else {
            entry.first
        }
    }

    /// Makes a clause watch these two literals.
    pub fn watch(&mut self, clause: ClauseId, first: Literal, second: Literal)
        requires { clause < length self.old }
        ensures { self.new ≡ slice_set self.old clause (record (at self.old clause) { first = first; second = second }) }
    {
        let entry = &mut self.entries[clause.index()];
        entry.first = first;
        entry.second = second;
    }

    /// Appends a clause that watches these two literals.
    pub fn push(
        &mut self,
        literals: &[Literal],
        first: Literal,
        second: Literal,
    ) -> Result<(), AllocError>
        ensures ok { OnOk result (self.new ≡ self.old ++ kept_clause literals.now first second ∷ []) }
        ensures err { OnErr result (self.new ≡ self.old) }
    {
        let start = self.literals.len();
        self.literals.extend_from_slice(literals)?;
        let end = self.literals.len();
        self.entries.push(Entry {
            start,
            end,
            first,
            second,
            used: 0,
            kept: true,
        })?;
        Ok(())
    }

    /// Removes the last clause.
    pub fn pop(&mut self)
        ensures { self.new ≡ take (length self.old - 1) self.old }
    {
        let _ = self.entries.pop();
    }

    /// Drops a clause: it isn't kept any more.
    pub fn remove(&mut self, clause: ClauseId)
        requires { clause < length self.old }
        ensures { self.new ≡ dropped self.old clause }
    {
        self.entries[clause.index()].kept = false;
    }

    /// When a clause was last used, by the time given to `touch`.
    pub fn used(&self, clause: ClauseId) -> u32
        requires { clause < length self.now }
    {
        self.entries[clause.index()].used
    }

    /// Records that a clause is used.
    pub fn touch(&mut self, clause: ClauseId, now: u32)
        requires { clause < length self.old }
        ensures { self.new ≡ self.old }
    {
        self.entries[clause.index()].used = now;
    }
}
