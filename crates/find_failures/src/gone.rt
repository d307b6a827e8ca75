//! The logs gone through.
ghost use Rattle.std.specs.Prelude.{◌≡◌, ◌≤◌, ◌++◌, ◌∷◌, [], None, Some, is_some, if◌then◌else◌, IfOk};
ghost use Rattle.tc_code.specs.tc_limits.declared.limits.TheConstants.{BUDGET};
ghost use Rattle.log_walk.specs.Given.{IsOne};
ghost use Rattle.log_walk.specs.declared.bounds.Kind.TheVariants.{Failure};
ghost use Rattle.clap_solve.specs.Solved.{IsImpossible};
ghost use Rattle.find_failures.specs.Runs.{IsNeeded, AreImpossible, Records};
ghost use Rattle.find_failures.specs.helpers.Gone.{AreGone, AreReached, IsTried};

use crate::asked::Asked;
use crate::copies::log_of;
use crate::found::{Reason, Refuted, Unknown};
use crate::verdict::{Verdict, decide};
use log_walk::Kind;
use refute_check::Derivation;
use run_log::{Log, ThreadPath};
use std::alloc::{AllocError, Global};
use store_buffers::MemoryModel;
use tc_base::Failing;
use tc_code::Code;

/// The logs gone through, none of which was found possible.
#[derive(Drop)]
pub(crate) struct Gone {
    /// Those that no moves reproduce, up to the first of which it isn't known.
    pub(crate) refuted: Vec<Refuted>,
    /// The first of which it isn't known.
    pub(crate) unknown: Option<Unknown>,
}

impl Gone {
    /// None yet.
    pub(crate) fn new(alloc: Global) -> Gone
        ensures refuted { result.refuted.items ≡ [] }
        ensures unknown { result.unknown ≡ None }
    {
        Gone {
            refuted: Vec::new(alloc),
            unknown: None,
        }
    }

    /// Adds a log that no moves reproduce.
    fn add(&mut self, log: Log, derivation: Derivation) -> Result<(), AllocError>
        ensures unknown { IfOk result (λ _. self.new.unknown ≡ self.old.unknown) }
        ensures refuted { IfOk result (λ _. self.new.refuted.items
            ≡ (if is_some self.old.unknown then self.old.refuted.items else self.old.refuted.items ++ record { log = log; derivation = derivation } ∷ [])) }
    {
        if self.unknown.is_none() {
            self.refuted.push(Refuted { log, derivation })?;
        }
        Ok(())
    }

    /// Adds a log of which it isn't known.
    fn leave(&mut self, log: Log, reason: Reason)
        ensures unknown { self.new.unknown ≡ (if is_some self.old.unknown then self.old.unknown else Some (record { log = log; reason = reason })) }
        ensures refuted { self.new.refuted.items ≡ self.old.refuted.items }
    {
        if self.unknown.is_none() {
            self.unknown = Some(Unknown { log, reason });
        }
    }

    /// Tries a log. Returns it if it is possible.
    fn try_log<M: MemoryModel>(
        &mut self,
        alloc: Global,
        code: &Code,
        asked: Asked,
        log: Log,
    ) -> Result<Option<Log>, AllocError>
        requires some { 1 ≤ asked.budget }
        requires room { asked.budget ≤ BUDGET }
        requires gone { AreGone M.ops M.MODEL M.bound code.now asked self.old }
        requires needed { IsNeeded M.MODEL code.now asked.kind asked.outcomes log.log }
        requires reached { AreReached M.ops M.MODEL code.now asked.kind self.old log.log.threads }
        ensures { IfOk result (IsTried M.ops M.MODEL M.bound code.now asked self.old self.new (IsImpossible M.ops code.now log.log)) }
    {
        match decide::<M>(alloc, code, &log, asked.budget)? {
            Verdict::Possible => Ok(Some(log)),
            Verdict::Impossible(derivation) => {
                self.add(log, derivation)?;
                Ok(None)
            }
            Verdict::Unfit => Ok(None),
            Verdict::Unknown(reason) => {
                self.leave(log, reason);
                Ok(None)
            }
        }
    }

    /// Tries the log of threads with this end. Returns it if it is possible.
    fn try_end<M: MemoryModel>(
        &mut self,
        alloc: Global,
        code: &Code,
        asked: Asked,
        threads: &[ThreadPath],
        failing: Failing,
    ) -> Result<Option<Log>, AllocError>
        requires some { 1 ≤ asked.budget }
        requires room { asked.budget ≤ BUDGET }
        requires gone { AreGone M.ops M.MODEL M.bound code.now asked self.old }
        requires one { IsOne code.now (record { kind = asked.kind; most = asked.outcomes }) threads.now }
        requires records { Records asked.kind (record { model = M.MODEL; failing = failing; threads = threads.now }) }
        requires reached { AreReached M.ops M.MODEL code.now asked.kind self.old threads.now }
        ensures { IfOk result (IsTried M.ops M.MODEL M.bound code.now asked self.old self.new
            (IsImpossible M.ops code.now (record { model = M.MODEL; failing = failing; threads = threads.now }))) }
    {
        let log = log_of(alloc, M::MODEL, failing, threads)?;
        self.try_log::<M>(alloc, code, asked, log)
    }

    /// Tries the logs in which one of the threads fails. Returns the first that is possible.
    fn try_failures<M: MemoryModel>(
        &mut self,
        alloc: Global,
        code: &Code,
        asked: Asked,
        threads: &[ThreadPath],
    ) -> Result<Option<Log>, AllocError>
        requires some { 1 ≤ asked.budget }
        requires room { asked.budget ≤ BUDGET }
        requires gone { AreGone M.ops M.MODEL M.bound code.now asked self.old }
        requires one { IsOne code.now (record { kind = asked.kind; most = asked.outcomes }) threads.now }
        requires reached { AreReached M.ops M.MODEL code.now asked.kind self.old threads.now }
        requires kind { asked.kind ≡ Failure }
        ensures { IfOk result (IsTried M.ops M.MODEL M.bound code.now asked self.old self.new
            (AreImpossible M.ops M.MODEL code.now asked.kind threads.now)) }
    {
        for index in 0..threads.len() {
            let failing = Failing::Thread(index);
            let possible = self.try_end::<M>(alloc, code, asked, threads, failing)?;
            if let Some(log) = possible {
                return Ok(Some(log));
            }
        }
        Ok(None)
    }

    /// Tries the logs of threads. Returns the first that is possible.
    pub(crate) fn try_threads<M: MemoryModel>(
        &mut self,
        alloc: Global,
        code: &Code,
        asked: Asked,
        threads: &[ThreadPath],
    ) -> Result<Option<Log>, AllocError>
        requires some { 1 ≤ asked.budget }
        requires room { asked.budget ≤ BUDGET }
        requires gone { AreGone M.ops M.MODEL M.bound code.now asked self.old }
        requires one { IsOne code.now (record { kind = asked.kind; most = asked.outcomes }) threads.now }
        requires reached { AreReached M.ops M.MODEL code.now asked.kind self.old threads.now }
        ensures { IfOk result (IsTried M.ops M.MODEL M.bound code.now asked self.old self.new
            (AreImpossible M.ops M.MODEL code.now asked.kind threads.now)) }
    {
        match asked.kind {
            Kind::Failure => self.try_failures::<M>(alloc, code, asked, threads),
            Kind::Deadlock => { self.try_end::<M>(alloc, code, asked, threads, Failing::Deadlock) }
        }
    }
}
