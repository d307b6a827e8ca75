//! The draft of a log's paths: its first threads.
ghost use Rattle.std.specs.Prelude.{◌≡◌, ℕ, ◌+◌, ◌<◌, ◌≤◌, ◌^◌, length, Option, Some, IfOk, OnOk, IfErr};
ghost use Rattle.std.specs.Prelude.{IfSome, IfNone, is_none, is_some, slice_get, true, false, bytes_eq, if◌then◌else◌};
ghost use Rattle.std.specs.List.{list_all, list_any};
ghost use Rattle.tc_base.specs.Names.{Name as PlainName};
ghost use Rattle.run_log.specs.Logs.{Log as PlainLog};
ghost use Rattle.tc_base.specs.Paths.{ThreadPath as PlainPath, path_under};
ghost use Rattle.tc_code.specs.tc_limits.declared.limits.TheConstants.{STEPS, THREADS};
ghost use Rattle.path_walk.specs.Fits.{ending_of, function_of, IsFault, Fits};
ghost use Rattle.path_walk.specs.Paths.{have_exited, paths_of};
ghost use Rattle.path_walk.specs.declared.ending.Ending.TheVariants.{Fails, Open};
ghost use Rattle.path_walk.specs.helpers.Drafts as helper;
ghost use Rattle.path_walk.specs.helpers.Drafts.{IsDraft, IsNext, IsFirstAbsent, first_fault, added, no_draft};

use crate::account::{Account, Started, account_of};
use crate::ending::Ending;
use crate::follow::FollowFault;
use crate::{Misfit, Paths, Walk, WalkFault};
use run_log::{Log, ThreadPath};
use std::alloc::{AllocError, Global};
use std::marker::Model;
use tc_base::{Failing, ThreadName};
use tc_code::Code;

/// What is known after the first threads of a log.
#[derive(Drop)]
pub struct Draft {
    threads: Vec<Walk>,
    started: Vec<Started>,
    events: usize,
    operators: u64,
    dead: bool,
    missing: Option<ThreadName>,
}

impl Model for Draft {
    ghost use Rattle.path_walk.specs.helpers.Drafts as spec;

    ghost Value = { spec.Draft };

    ghost view = { λ d. record {
      threads = d.threads.items;
      started = d.started.items;
      events = d.events;
      operators = d.operators;
      dead = d.dead;
      missing = d.missing;
    } };
}

/// Whether a log has the named thread.
fn has_thread(log: &Log, name: &ThreadName) -> bool
    ensures { result ≡ is_some (path_under name.now log.now.log.threads) }
{
    for thread in log.threads() {
        if name.children() == thread.name().children() {
            return true;
        }
    }
    false
}

/// How the named thread's path ends.
fn ending_of(log: &Log, name: &ThreadName) -> Ending
    ensures { result ≡ ending_of log.now.log name.now }
{
    match log.failing_name() {
        Some(failing) => ending_by(name, failing),
        None => Ending::Rests,
    }
}

/// How a thread's path ends in the log of a failure.
fn ending_by(name: &ThreadName, failing: &ThreadName) -> Ending
    ensures { result ≡ if bytes_eq name.now failing.now then Fails else Open }
{
    if name.children() == failing.children() {
        Ending::Fails
    } else {
        Ending::Open
    }
}

/// The first of a thread's first `count` children that isn't in the log, if any.
fn first_absent(
    alloc: Global,
    log: &Log,
    parent: &ThreadName,
    count: u32,
) -> Result<Option<ThreadName>, AllocError>
    requires { count < 2 ^ 31 }
    ensures { IfOk result (IsFirstAbsent log.now.log parent.now count) }
{
    for number in 0..count {
        let name = parent.child(number + 1)?;
        if !has_thread(log, &name) {
            return Ok(Some(name));
        }
    }
    Ok(None)
}

/// The lesser of two names, either of which may be absent.
fn least(first: Option<ThreadName>, second: Option<ThreadName>) -> Option<ThreadName>
    ensures { result ≡ helper.least first second }
{
    match (first, second) {
        (Some(a), Some(b)) => Some(if b < a { b } else { a }),
        (Some(a), None) => Some(a),
        (None, other) => other,
    }
}

/// Whether the log claims a deadlock although every thread has exited.
fn have_exited(failing: Failing, threads: &[Walk]) -> bool
    ensures { result ≡ have_exited failing threads.now }
{
    match failing {
        Failing::Thread(_) => false,
        Failing::Deadlock => all_exited(threads),
    }
}

/// Whether every thread has exited, in the log of a deadlock.
fn all_exited(threads: &[Walk]) -> bool
    ensures { result ≡ list_all (λ w. is_none w.blocked) threads.now }
{
    threads.iter().all(|thread| thread.has_exited())
}

/// The index of the named thread in a list, if it is there.
fn place_of(threads: &[Walk], name: &[u32]) -> Option<usize>
    ensures found { IfSome result (λ i. IfSome (slice_get threads.now i) (λ w. bytes_eq name.now w.name ≡ true) × (i < length threads.now)) }
    ensures none { IfNone result (list_any (λ w. bytes_eq name.now w.name) threads.now ≡ false) }
{
    for place in 0..threads.len() {
        if name == threads[place].name().children() {
            return Some(place);
        }
    }
    None
}

impl Draft {
    /// The draft without threads.
    pub fn new(alloc: Global) -> Draft
        ensures { result ≡ no_draft }
    {
        Draft {
            threads: Vec::new(alloc),
            started: Vec::new(alloc),
            events: 0,
            operators: 0,
            dead: false,
            missing: None,
        }
    }

    /// The function of the log's next thread.
    fn function_of(&self, code: &Code, name: &ThreadName) -> Option<usize>
        ensures { (log : PlainLog) (t : PlainPath) → IsDraft code.now log self.now → IsNext log (length self.now.threads) t
            → name.now ≡ t.name → result ≡ function_of code.now log name.now }
    {
        let numbers = name.children();
        if numbers.is_empty() {
            return Some(code.functions().len().saturating_sub(1));
        }
        let last = numbers.len() - 1;
        match place_of(&self.threads, &numbers[..last]) {
            Some(parent) => self.child_function(parent, numbers[last]),
            None => None,
        }
    }

    /// The function of a child, counted from 1, of the thread at an index.
    fn child_function(&self, place: usize, number: u32) -> Option<usize>
        ensures { result ≡ helper.started_at self.now.started place number }
    {
        if number == 0 {
            return None;
        }
        let started = self.started.get(place)?;
        let function = started.as_slice().get(number as usize - 1)?;
        Some(*function as usize)
    }

    /// The fault of the log's next thread, unless a missing child has a lesser name: then that
    /// fault.
    fn first_fault(&self, name: &ThreadName, misfit: Misfit) -> Result<WalkFault, AllocError>
        ensures { IfOk result (λ e. e ≡ first_fault self.now.missing name.now misfit) }
    {
        if let Some(missing) = &self.missing {
            if missing < name {
                return Ok(WalkFault::Unfit(missing.clone()?, Misfit::Missing));
            }
        }
        Ok(WalkFault::Unfit(name.clone()?, misfit))
    }

    /// Adds a thread.
    fn add(&mut self, alloc: Global, log: &Log, account: Account) -> Result<(), AllocError>
        requires started { length account.started < 2 ^ 31 }
        requires events { self.old.events + length account.walk.events < 2 ^ 64 }
        ensures { OnOk result ((found : Option PlainName)
            × IsFirstAbsent log.now.log account.walk.name (length account.started) found
            × (self.new ≡ added self.old (record {
              walk = account.walk;
              started = account.started;
              operators = account.operators;
              dead = account.dead;
            }) found)) }
    {
        let count = account.started.as_slice().len() as u32;
        let absent = first_absent(alloc, log, account.walk.name(), count)?;
        self.missing = least(self.missing.take(), absent);
        self.events += account.walk.events().len();
        self.operators = self.operators.saturating_add(account.operators);
        self.dead = self.dead || account.dead;
        self.threads.push(account.walk)?;
        self.started.push(account.started)?;
        Ok(())
    }

    /// Follows the log's next thread.
    pub fn follow(
        &mut self,
        alloc: Global,
        code: &Code,
        log: &Log,
        thread: &ThreadPath,
    ) -> Result<(), WalkFault>
        requires few { length log.now.log.threads ≤ THREADS }
        requires draft { IsDraft code.now log.now.log self.old }
        requires next { IsNext log.now.log (length self.old.threads) thread.now }
        ensures ok { OnOk result (IsDraft code.now log.now.log self.new × (length self.new.threads ≡ length self.old.threads + 1)) }
        ensures short { OnOk result (thread.now.path.steps ≤ STEPS) }
        ensures err { IfErr result (IsFault code.now log.now.log) }
    {
        let name = thread.name();
        let Some(function) = self.function_of(code, name) else {
            return Err(self.first_fault(name, Misfit::Stranger)?);
        };
        match account_of(alloc, code, function, ending_of(log, name), thread) {
            Ok(account) => Ok(self.add(alloc, log, account)?),
            Err(FollowFault::Unfit(misfit)) => Err(self.first_fault(name, misfit)?),
            Err(FollowFault::Memory) => Err(WalkFault::Memory),
        }
    }

    /// The paths of the log once all threads are followed, or the fault of the least missing child.
    pub fn finish(self, failing: Failing) -> Result<Paths, WalkFault>
        ensures { result ≡ helper.finished self failing }
    {
        let Draft {
            threads,
            started: _,
            events,
            operators,
            dead,
            missing,
        } = self;
        match missing {
            Some(name) => Err(WalkFault::Unfit(name, Misfit::Missing)),
            None => Ok(Paths {
                failing,
                dead: dead || have_exited(failing, &threads),
                threads,
                events,
                operators,
            }),
        }
    }
}
