//! What is known between two lines of a certificate.
ghost use Rattle.std.specs.Prelude.{◌≡◌, ◌≢◌, ◌↔◌, true, false, Ok as Right, Some, List, ℕ, IfOk, IsTrue, MatchOption};
ghost use Rattle.tc_code.specs.Code.{Code as PlainCode};
ghost use Rattle.refute_check.specs.Refutations.{verdict};
ghost use Rattle.refute_check.specs.declared.verdict.Checked.TheVariants as checked;
ghost use Rattle.tc_code.specs.Lawful.{IsLawful};
ghost use Rattle.certified_logs.specs.Places.{IsAt, IsNextAt};
ghost use Rattle.certificate_input.specs.Checked.{IsChecked};
ghost use Rattle.certificate_input.specs.Cuts.{HasHeader};
ghost use Rattle.certificate_input.specs.helpers.Incoming.{IsChecking, IsUnrefuted, IsWrongLine, judged};

use crate::lines::{line_in, wrong_log};
use crate::verdict::Verdict;
use crate::wrong::Wrong;
use certified_logs::{Next, Place};
use log_walk::LeftOut;
use none_certificates::{Header, is_log_line};
use refute_check::{CheckFault, Checked, Checker, LINES};
use slot_liveness::live_slots;
use std::alloc::{AllocError, Global};
use tc_code::Code;

/// The state between two lines.
#[derive(Drop)]
pub(crate) struct Checks {
    pub(crate) header: Header,
    /// The place of the log that is refuted.
    place: Place,
    /// A checker of its refutation, after the lines so far. Before the first log there is none.
    checker: Option<Checker>,
}

/// Whether the lines so far are closed.
fn is_closed(checker: &Checker) -> bool
    ensures { IsTrue result ↔ (verdict checker.now ≡ Right checked.Closed) }
{
    match checker.verdict() {
        Ok(Checked::Closed) => true,
        Ok(Checked::Open) | Err(_) => false,
    }
}

/// A line with this fault is refused, unless memory ran out.
fn refused(fault: CheckFault) -> Result<Option<Wrong>, AllocError>
    ensures { IfOk result (λ wrong. (wrong ≡ Some Wrong.Refused) × (fault ≢ CheckFault.Memory)) }
{
    match fault {
        CheckFault::Memory => Err(AllocError),
        _ => Ok(Some(Wrong::Refused)),
    }
}

impl Checks {
    /// After the header.
    pub(crate) fn new(alloc: Global, code: &Code, header: Header) -> Result<Checks, AllocError>
        ensures header { IfOk result (λ checks. checks.header ≡ header) }
        ensures checking { IfOk result (IsChecking code.now) }
    {
        let live = live_slots(alloc, code)?;
        Ok(Checks {
            header,
            place: Place::first(live),
            checker: None,
        })
    }

    /// Goes past the log that is refuted. Before the first log there is none. Returns false if its
    /// lines aren't closed.
    fn pass(&mut self) -> bool
        requires { (code : PlainCode) × IsChecking code self.old }
        ensures header { self.new.header ≡ self.old.header }
        ensures refused { result ≡ false → (code : PlainCode) → IsChecking code self.old → IsUnrefuted code self.old.header }
        ensures passed { result ≡ true → (code : PlainCode) → IsLawful code → IsChecking code self.old → IsAt code self.old.header self.new.place }
    {
        let Some(checker) = &self.checker else {
            return true;
        };
        if !is_closed(checker) {
            return false;
        }
        self.place.rule_out();
        true
    }

    /// The next log that has clauses, if the one before it is refuted.
    fn next(&mut self, alloc: Global, code: &Code) -> Result<Option<Next>, AllocError>
        requires { IsChecking code.now self.old }
        ensures header { IfOk result (λ _. self.new.header ≡ self.old.header) }
        ensures next { IfOk result (λ next. MatchOption next (IsUnrefuted code.now self.old.header) (IsNextAt code.now self.old.header self.new.place)) }
    {
        // Lawful code.
        let _functions = code.functions();
        if !self.pass() {
            return Ok(None);
        }
        let next = self.place.next(alloc, code, self.header)?;
        Ok(Some(next))
    }

    /// Takes another line. Returns what is wrong with it, if something is.
    pub(crate) fn take(
        &mut self,
        alloc: Global,
        code: &Code,
        line: &[u8],
    ) -> Result<Option<Wrong>, AllocError>
        requires { IsChecking code.now self.old }
        ensures header { IfOk result (λ _. self.new.header ≡ self.old.header) }
        ensures wrong { IfOk result (λ wrong. MatchOption wrong (IsChecking code.now self.new) (IsWrongLine code.now self.old.header line.now)) }
    {
        if line.starts_with(b"log ") || self.checker.is_none() {
            self.take_log(alloc, code, line)
        } else {
            self.take_line(alloc, line)
        }
    }

    /// Takes the line of a log.
    fn take_log(
        &mut self,
        alloc: Global,
        code: &Code,
        line: &[u8],
    ) -> Result<Option<Wrong>, AllocError>
        requires { IsChecking code.now self.old }
        ensures header { IfOk result (λ _. self.new.header ≡ self.old.header) }
        ensures wrong { IfOk result (λ wrong. MatchOption wrong (IsChecking code.now self.new) (IsWrongLine code.now self.old.header line.now)) }
    {
        match self.next(alloc, code)? {
            None => Ok(Some(Wrong::Refused)),
            Some(Next::Limit(which, count, limit)) => Ok(Some(Wrong::Limit(which, count, limit))),
            Some(Next::Done(_)) => Ok(Some(wrong_log(alloc, line)?)),
            Some(Next::Log(log, checker)) => {
                if !is_log_line(alloc, log.failing_name(), log.threads(), line)? {
                    return Ok(Some(wrong_log(alloc, line)?));
                }
                self.checker = Some(checker);
                Ok(None)
            }
        }
    }

    /// Takes a line of a refutation.
    fn take_line(&mut self, alloc: Global, line: &[u8]) -> Result<Option<Wrong>, AllocError>
        requires { (code : PlainCode) × IsChecking code self.old }
        ensures header { IfOk result (λ _. self.new.header ≡ self.old.header) }
        ensures wrong { IfOk result (λ wrong. (code : PlainCode) → IsChecking code self.old
            → MatchOption wrong (IsChecking code self.new) (IsWrongLine code self.old.header line.now)) }
    {
        let Some(derivation) = line_in(alloc, line)? else {
            return Ok(Some(Wrong::Form));
        };
        let Some(checker) = &mut self.checker else {
            return Err(AllocError);
        };
        if checker.line() > LINES {
            // No memory has so many lines.
            return Err(AllocError);
        }
        match checker.add(&derivation.lines()[0]) {
            Ok(()) => Ok(None),
            Err(fault) => refused(fault),
        }
    }

    /// The verdict if the certificate ends here.
    pub(crate) fn outcome(self, alloc: Global, code: &Code) -> Result<Verdict, AllocError>
        requires { IsChecking code.now self }
        ensures { IfOk result (λ verdict. (bytes : List ℕ) → HasHeader bytes self.header → IsChecked code.now bytes verdict) }
    {
        // Lawful code.
        let _functions = code.functions();
        let mut checks = self;
        let header = checks.header;
        match checks.next(alloc, code)? {
            None => Ok(Verdict::Open),
            Some(Next::Log(_, _)) => Ok(Verdict::Open),
            Some(Next::Limit(which, count, limit)) => Ok(Verdict::Limit(which, count, limit)),
            Some(Next::Done(out)) => Ok(judged(header, out)),
        }
    }
}

/// The verdict if each log is refuted, except those left out.
fn judged(header: Header, out: LeftOut) -> Verdict
    ensures { result ≡ judged header out }
{
    if out.steps || out.depth || out.threads {
        Verdict::LeftOut(out)
    } else if header.whole && out.outcomes {
        Verdict::LineRefused(1)
    } else {
        Verdict::Holds(header)
    }
}
