//! From one log to the next.
ghost use Rattle.std.specs.Prelude.{◌≡◌, ◌≤◌, ◌==◌, ◌||◌, not, IfOk, IfSome, MatchOption};
ghost use Rattle.run_log.specs.Logs.{Log as PlainLog};
ghost use Rattle.tc_code.specs.Code.{Code as PlainCode};
ghost use Rattle.tc_code.specs.Lawful.{IsLawful};
ghost use Rattle.store_buffers.specs.Buffers.{buffer_of};
ghost use Rattle.clap_solve.specs.Solved.{IsImpossible};
ghost use Rattle.none_certificates.specs.declared.header.Header.{Header as PlainHeader};
ghost use Rattle.slot_liveness.specs.Tables.{liveness};
ghost use Rattle.slot_liveness.specs.pure_turns.Live.{IsClosed};
ghost use Rattle.certified_logs.specs.Logs.{ends_of};
ghost use Rattle.certified_logs.specs.Places.{AllAreDone, IsAt, IsNextAt, IsOf, last_of};

use crate::ends::{end_at, first_end, has_more};
use crate::next::Next;
use crate::start::start_under;
use clap_system::BuildFault;
use find_failures::{both, following, log_of};
use log_walk::{LeftOut, Program};
use none_certificates::Header;
use run_log::{Log, ThreadPath};
use slot_liveness::LiveSlots;
use std::alloc::{AllocError, Global};
use tc_code::Code;

/// Nothing was left out.
const NOTHING: LeftOut = LeftOut {
    outcomes: false,
    steps: false,
    depth: false,
    threads: false,
};

/// A place among the logs: those of the threads given last, with at most `level` outcomes each.
#[derive(Drop)]
pub struct Place {
    live: LiveSlots,
    level: u16,
    /// The threads given last, if any with at most `level` outcomes.
    last: Option<Vec<ThreadPath>>,
    /// The index of their log that comes next.
    end: usize,
    /// What the search for threads left out.
    out: LeftOut,
}

/// Whether more outcomes aren't asked for, or lead to no more logs.
fn is_last(level: u16, most: u16, out: LeftOut) -> bool
    ensures { result ≡ (level == most || not out.outcomes) }
{
    level == most || !out.outcomes
}

impl Place {
    /// Before the first log, given the slots that are live.
    pub fn first(live: LiveSlots) -> Place
        ensures { (code : PlainCode) (header : PlainHeader) → IsClosed code (liveness live) → IsAt code header result }
    {
        Place {
            live,
            level: 0,
            last: None,
            end: 0,
            out: NOTHING,
        }
    }

    /// The log that comes next among those of the threads given last.
    fn log(&self, alloc: Global, code: &Code, header: Header) -> Result<Option<Log>, AllocError>
        requires { IsAt code.now header self.now }
        ensures { IfOk result (λ log. MatchOption log (IfSome (last_of self.now) (λ ts. ends_of header.bounds.kind ts ≤ self.now.end)) (λ l. IsOf header self.now l.log)) }
    {
        let Some(threads) = &self.last else {
            return Ok(None);
        };
        let threads = threads.as_slice();
        if !has_more(header.bounds.kind, threads, self.end) {
            return Ok(None);
        }
        let failing = end_at(header.bounds.kind, self.end);
        let log = log_of(alloc, header.model, failing, threads)?;
        Ok(Some(log))
    }

    /// Goes past a log that no moves reproduce.
    pub fn rule_out(&mut self)
        requires { (code : PlainCode) × (header : PlainHeader) × (log : PlainLog) × IsAt code header self.old × IsOf header self.old log }
        ensures { (code : PlainCode) (header : PlainHeader) (log : PlainLog) → IsAt code header self.old → IsOf header self.old log
            → IsImpossible (buffer_of header.model) code log → IsAt code header self.new }
    {
        let next = self.end + 1;
        self.end = next;
    }

    /// Goes on to the next threads. Returns what comes next if that is known.
    fn go_on(
        &mut self,
        alloc: Global,
        code: &Code,
        header: Header,
    ) -> Result<Option<Next>, AllocError>
        requires at { IsAt code.now header self.old }
        requires gone { IfSome (last_of self.old) (λ ts. ends_of header.bounds.kind ts ≤ self.old.end) }
        ensures { IfOk result (λ next. MatchOption next (IsAt code.now header self.new) (IsNextAt code.now header self.new)) }
    {
        let kind = header.bounds.kind;
        let program = Program {
            code,
            live: &self.live,
        };
        let given = following(alloc, program, kind, self.level, &self.last)?;
        let out = both(self.out, given.out);
        let Some(threads) = given.threads else {
            return Ok(self.raise(header, out));
        };
        self.end = first_end(self.level, kind, &threads);
        self.last = Some(threads);
        self.out = out;
        Ok(None)
    }

    /// Goes on to logs with more outcomes, after all those with fewer. If there are none, returns
    /// so.
    fn raise(&mut self, header: Header, out: LeftOut) -> Option<Next>
        requires { (code : PlainCode) × IsAt code header self.old × AllAreDone code (liveness self.old.live) (record header { bounds = record { kind = header.bounds.kind; most = self.old.level } }) out }
        ensures { (code : PlainCode) → IsAt code header self.old → AllAreDone code (liveness self.old.live) (record header { bounds = record { kind = header.bounds.kind; most = self.old.level } }) out
            → MatchOption result (IsAt code header self.new) (IsNextAt code header self.new) }
    {
        if is_last(self.level, header.bounds.most, out) {
            return Some(Next::Done(out));
        }
        let level = self.level + 1;
        self.level = level;
        self.last = None;
        self.end = 0;
        self.out = NOTHING;
        None
    }

    /// Tries the next log. Returns what comes next if that is known.
    fn turn(
        &mut self,
        alloc: Global,
        code: &Code,
        header: Header,
    ) -> Result<Option<Next>, AllocError>
        requires at { IsAt code.now header self.old }
        requires lawful { IsLawful code.now }
        ensures { IfOk result (λ next. MatchOption next (IsAt code.now header self.new) (IsNextAt code.now header self.new)) }
    {
        let Some(log) = self.log(alloc, code, header)? else {
            return self.go_on(alloc, code, header);
        };
        match start_under(alloc, code, &log, header.model) {
            Ok(checker) => Ok(Some(Next::Log(log, checker))),
            Err(BuildFault::Walk(_)) => {
                self.rule_out();
                Ok(None)
            }
            Err(BuildFault::Limit(which, count, limit)) => {
                Ok(Some(Next::Limit(which, count, limit)))
            }
            Err(BuildFault::Memory) => Err(AllocError),
        }
    }

    /// Goes on to the next log that has clauses.
    pub fn next(&mut self, alloc: Global, code: &Code, header: Header) -> Result<Next, AllocError>
        requires at { IsAt code.now header self.old }
        ensures { IfOk result (IsNextAt code.now header self.new) }
    {
        // Lawful code.
        let _functions = code.functions();
        for _turn in 0..u64::MAX {
            if let Some(next) = self.turn(alloc, code, header)? {
                return Ok(next);
            }
        }
        // No call takes so many turns.
        Err(AllocError)
    }
}
