//! A checker that takes a derivation line by line.
ghost use Rattle.std.specs.Prelude.{◌≡◌, ◌+◌, ◌<◌, ◌≤◌, None, Some, IfOk, IfErr, OnOk, OnErr, IsTrue, List, ◌∷◌, [], ⊤, ◌≢◌, IsErrOf};
ghost use Rattle.std.specs.List.{fold};
ghost use Rattle.cnf_core.specs.Clauses.{is_within, is_clause};
ghost use Rattle.cnf_core.specs.declared.cnf.TheConstants.{LIMIT};

use crate::{CheckFault, Checked, Derivation, Given, Kept, LINES, Line, Numbers, hints};
use cnf_core::{Clause, Cnf, Lit, is_within};
use std::alloc::{AllocError, Global};
use std::marker::Model;

/// The state between two lines of a derivation over a formula: the kept clauses by number, the next
/// number, whether an empty clause was added, and the first fault. It keeps nothing else of the
/// lines.
///
/// A line takes time linear in its literals and numbers, and in the literals of clauses it names.
#[derive(Drop)]
pub struct Checker {
    alloc: Global,
    vars: u32,
    kept: Kept,
    next: u32,
    line: u32,
    closed: bool,
    fault: Option<CheckFault>,
    given: Given,
}

impl Model for Checker {
    ghost use Rattle.refute_check.specs.Refutations.{Checking};
    ghost use Rattle.refute_check.specs.Kept.{kept_code};
    ghost use Rattle.std.specs.Coded.{codes};

    ghost Value = { Checking };

    ghost coded = { Prim.hlevel (codes, kept_code) };

    ghost use Rattle.refute_check.specs.helpers.Checkers.{checking_of, IsReady};

    ghost view = { checking_of };

    ghost invariant = { IsReady };
}

impl Checker {
    ghost use Rattle.refute_check.specs.Refutations.{start, keep, state_after_line, verdict, clause_fault, passed_clause, state_after_fault};
    ghost use Rattle.refute_check.specs.helpers.Checkers.{AreWithin};
    ghost use Rattle.refute_check.specs.declared.line.TheConstants.{LINES};

    /// A checker over a formula's clauses, before any line.
    pub fn new(alloc: Global, cnf: &Cnf) -> Result<Checker, AllocError>
        ensures { IfOk result (λ checker. checker ≡ start cnf.now) }
    {
        let mut checker = Checker {
            alloc,
            vars: cnf.vars(),
            kept: Kept::new(alloc),
            next: 1,
            line: 1,
            closed: false,
            fault: None,
            given: Given::new(alloc, cnf.vars())?,
        };
        for place in 0..cnf.len() {
            checker.keep(cnf.clause(place))?;
        }
        Ok(checker)
    }

    /// Keeps one of the formula's clauses.
    fn keep(&mut self, clause: &[Lit]) -> Result<(), AllocError>
        requires rises { IsTrue (is_clause clause.now) }
        requires within { IsTrue (is_within self.old.vars clause.now) }
        requires room { self.old.next ≤ LIMIT }
        ensures ok { OnOk result (self.new ≡ keep self.old clause.now) }
    {
        let literals = Vec::from_slice(self.alloc, clause)?;
        self.kept.insert(self.next, Clause::new(literals))?;
        self.next += 1;
        Ok(())
    }

    /// Checks the next line. After a fault, each later call returns it, and nothing changes.
    pub fn add(&mut self, line: &Line) -> Result<(), CheckFault>
        requires { self.old.line ≤ LINES }
        ensures ok { OnOk result ((self.new ≡ state_after_line self.old line.now) × (self.new.fault ≡ None)) }
        ensures fault { IfErr result (λ fault. fault ≢ CheckFault.Memory → (self.new ≡ state_after_line self.old line.now) × (self.new.fault ≡ Some fault)) }
        ensures memory { IsErrOf result CheckFault.Memory → self.new ≡ self.old }
    {
        if let Some(fault) = self.fault {
            return Err(fault);
        }
        match line {
            Line::Add(clause, hints) => self.add_clause(clause, hints),
            Line::Delete(numbers) => self.delete(numbers),
        }
    }

    /// The number of the last line; the header is line 1. More lines may be added up to [`LINES`].
    pub fn line(&self) -> u32
        ensures { result ≡ self.now.line }
    {
        self.line
    }

    /// What the lines so far prove, or their first fault.
    pub fn verdict(&self) -> Result<Checked, CheckFault>
        ensures { result ≡ verdict self.now }
    {
        match self.fault {
            Some(fault) => Err(fault),
            None if self.closed => Ok(Checked::Closed),
            None => Ok(Checked::Open),
        }
    }

    /// Checks a line that adds a clause.
    fn add_clause(&mut self, clause: &Clause, hints: &Numbers) -> Result<(), CheckFault>
        requires none { self.old.fault ≡ None }
        requires lines { self.old.line ≤ LINES }
        ensures ok { OnOk result ((self.new ≡ state_after_line self.old (Line.Add clause.now hints.now)) × (self.new.fault ≡ None)) }
        ensures fault { IfErr result (λ fault. fault ≢ CheckFault.Memory → (self.new ≡ state_after_line self.old (Line.Add clause.now hints.now))
            × (self.new.fault ≡ Some fault)) }
        ensures memory { IsErrOf result CheckFault.Memory → self.new ≡ self.old }
    {
        match self.clause_fault(clause.literals(), hints.as_slice()) {
            Err(_) => Err(CheckFault::Memory),
            Ok(Some(fault)) => {
                self.refuse(fault);
                Err(fault)
            }
            Ok(None) => match self.pass(clause.literals()) {
                Err(_) => Err(CheckFault::Memory),
                Ok(()) => Ok(()),
            },
        }
    }

    /// The first fault of a line that adds a clause, if it has one.
    fn clause_fault(
        &mut self,
        clause: &[Lit],
        hints: &[u32],
    ) -> Result<Option<CheckFault>, AllocError>
        requires { self.old.line ≤ LINES }
        ensures same { self.new ≡ self.old }
        ensures fault { IfOk result (λ fault. fault ≡ clause_fault (self.old.line + 1) self.old.vars self.old.kept clause.now hints.now) }
    {
        if !is_within(self.vars, clause) {
            return Ok(Some(CheckFault::NoVariable(self.line + 1)));
        }
        hints::clause_fault(self.line + 1, &self.kept, &mut self.given, clause, hints)
    }

    /// Records a line that adds a clause and passes.
    fn pass(&mut self, clause: &[Lit]) -> Result<(), AllocError>
        requires rises { IsTrue (is_clause clause.now) }
        requires within { IsTrue (is_within self.old.vars clause.now) }
        requires lines { self.old.line ≤ LINES }
        ensures ok { OnOk result (self.new ≡ passed_clause self.old clause.now) }
        ensures err { OnErr result (self.new ≡ self.old) }
    {
        let literals = Vec::from_slice(self.alloc, clause)?;
        self.kept.insert(self.next, Clause::new(literals))?;
        self.next += 1;
        self.line += 1;
        self.closed = self.closed || clause.is_empty();
        Ok(())
    }

    /// Records a fault; after it no clause is kept.
    fn refuse(&mut self, fault: CheckFault)
        requires lines { self.old.line ≤ LINES }
        requires fault { fault ≢ CheckFault.Memory }
        ensures { self.new ≡ state_after_fault fault self.old }
    {
        self.kept = Kept::new(self.alloc);
        self.line += 1;
        self.fault = Some(fault);
    }

    /// Checks a line that deletes clauses.
    fn delete(&mut self, numbers: &Numbers) -> Result<(), CheckFault>
        requires none { self.old.fault ≡ None }
        requires lines { self.old.line ≤ LINES }
        ensures ok { OnOk result ((self.new ≡ state_after_line self.old (Line.Delete numbers.now)) × (self.new.fault ≡ None)) }
        ensures fault { IfErr result (λ fault. fault ≢ CheckFault.Memory → (self.new ≡ state_after_line self.old (Line.Delete numbers.now))
            × (self.new.fault ≡ Some fault)) }
        ensures memory { IsErrOf result CheckFault.Memory → self.new ≡ self.old }
    {
        if hints::delete(&mut self.kept, numbers.as_slice()) {
            self.line += 1;
            return Ok(());
        }
        self.kept = Kept::new(self.alloc);
        self.line += 1;
        let fault = CheckFault::NoClause(self.line);
        self.fault = Some(fault);
        Err(fault)
    }
}
