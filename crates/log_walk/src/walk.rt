//! From one log to the next.
ghost use Rattle.std.specs.Prelude.{◌≡◌, ◌≤◌, List, [], ◌∷◌, ◌++◌, None, Some, IfOk, IfSome, is_none, option_map, slice_get};
ghost use Rattle.tc_base.specs.Paths.{Path as PlainPath, ThreadPath as PlainThread};
ghost use Rattle.thread_paths.specs.Search.{IsFirst as IsFirstPath};
ghost use Rattle.slot_liveness.specs.Tables.{liveness};
ghost use Rattle.log_walk.specs.Order.{are_to_come};
ghost use Rattle.log_walk.specs.Given.{IsFirst, IsOne};
ghost use Rattle.log_walk.specs.Rest.{Rest as PlainRest, all, leave};
ghost use Rattle.log_walk.specs.helpers.Searches.{scope_of, with_cut, CanFollow, IsTaken, IsKept, IsOpen, IsEnd, begin_from, behind, first_of, others_of};

use crate::bounds::{Bounds, LeftOut};
use crate::rest::{Awaited, Rest};
use run_log::ThreadPath;
use std::alloc::{AllocError, Global};
use std::marker::Model;
use tc_limits::limits::{DEPTH, THREADS};
use thread_paths::{Cut, Found, Path, Program, Scope, first_path, next_path};

/// The threads of a log, if one was found, and what the search left out before it.
#[derive(Debug, Drop)]
pub struct Given {
    /// The threads with their paths, in the order of their names.
    pub threads: Option<Vec<ThreadPath>>,
    /// What was left out.
    pub out: LeftOut,
}

impl Model for Given {
    ghost use Rattle.std.specs.Prelude.{option_map};
    ghost use Rattle.log_walk.specs.Given.{Given as PlainGiven};

    ghost Value = { PlainGiven };

    ghost view = { λ g. record { threads = option_map (λ v. v.items) g.threads; out = g.out } };
}

/// The first threads of a log, and what was left out so far.
#[derive(Drop)]
struct Walk {
    threads: Vec<ThreadPath>,
    out: LeftOut,
}

/// What was left out, including what a search for a path left out.
fn with_cut(out: LeftOut, cut: Cut) -> LeftOut
    ensures { result ≡ with_cut out cut }
{
    LeftOut {
        outcomes: out.outcomes || cut.outcomes,
        steps: out.steps || cut.steps,
        ..out
    }
}

/// The paths that an awaited thread may take.
fn scope_of(bounds: Bounds, rest: &Rest, next: &Awaited) -> Scope
    ensures { result ≡ scope_of bounds rest.now next.now }
{
    Scope {
        function: next.function,
        aim: rest.aim(bounds.kind, next.end),
        most: bounds.most,
    }
}

/// An awaited thread with a path.
fn thread_of(next: &Awaited, path: &Path) -> Result<ThreadPath, AllocError>
    ensures { IfOk result (λ t. t ≡ record { name = next.now.name; path = path.now }) }
{
    let name = next.name.clone()?;
    let outcomes = path.outcomes.clone()?;
    Ok(ThreadPath::new(name, path.steps, outcomes))
}

/// The path of a thread.
fn path_of(alloc: Global, thread: &ThreadPath) -> Result<Path, AllocError>
    ensures { IfOk result (λ p. p ≡ thread.now.path) }
{
    Ok(Path {
        outcomes: Vec::from_slice(alloc, thread.outcomes())?,
        steps: thread.steps(),
    })
}

/// Whether no log was given last.
fn is_none(last: Option<&[ThreadPath]>) -> bool
    ensures { result ≡ is_none (option_map (λ r. r.now) last.entry) }
{
    last.is_none()
}

/// The first thread of the log that was given last.
fn first_of(last: Option<&[ThreadPath]>) -> Option<&ThreadPath>
    ensures { option_map (λ t. t.now) result ≡ first_of (option_map (λ r. r.now) last.entry) }
{
    last?.first()
}

/// The threads after it.
fn others_of(last: Option<&[ThreadPath]>) -> Option<&[ThreadPath]>
    ensures { option_map (λ r. r.now) result ≡ others_of (option_map (λ r. r.now) last.entry) }
{
    let threads = last?;
    if threads.is_empty() {
        Some(threads)
    } else {
        Some(&threads[1..])
    }
}

impl Walk {
    /// Whether a thread may be added.
    fn is_open(&mut self, next: &Awaited, room: usize) -> bool
        ensures threads { self.new.threads ≡ self.old.threads }
        ensures kept { IsKept self.old.out self.new.out }
        ensures open { IsOpen next.now.name room self.new.out result }
    {
        if room == 0 {
            self.out.threads = true;
            return false;
        }
        if next.name.children().len() > DEPTH {
            self.out.depth = true;
            return false;
        }
        true
    }

    /// Removes the last thread.
    fn take_off(&mut self)
        ensures out { self.new.out ≡ self.old.out }
        ensures threads { (ts : List PlainThread) (t : PlainThread) → self.old.threads.items ≡ ts ++ t ∷ [] → self.new.threads.items ≡ ts }
    {
        let len = self.threads.len();
        self.threads.truncate(len.saturating_sub(1));
    }

    /// Adds the first threads that make up a rest and come after the last ones. Returns whether
    /// there are any.
    #[cycle(search)]
    fn search(
        &mut self,
        alloc: Global,
        program: Program<'_>,
        bounds: Bounds,
        rest: &Rest,
        last: Option<&[ThreadPath]>,
        room: usize,
    ) -> Result<bool, AllocError>
        requires last { CanFollow program.code.now bounds rest.now (option_map (λ r. r.now) last) }
        ensures kept { IfOk result (λ _. IsKept self.old.out self.new.out) }
        ensures end { IfOk result (IsEnd program.entry.code.now (liveness program.entry.live.now) bounds rest.now (are_to_come (option_map (λ r. r.now) last.entry)) room
            self.old.threads.items self.new.threads.items self.new.out) }
    {
        let Some(next) = rest.next() else {
            return Ok(is_none(last) && rest.is_whole());
        };
        if !self.is_open(next, room) {
            return Ok(false);
        }
        let scope = scope_of(bounds, rest, next);
        let Some(thread) = first_of(last) else {
            let found = first_path(alloc, program, scope)?;
            return self.first_from(alloc, program, bounds, rest, next, found, room);
        };
        let path = path_of(alloc, thread)?;
        if self.below(
            alloc,
            program,
            bounds,
            rest,
            next,
            &path,
            others_of(last),
            room,
        )? {
            return Ok(true);
        }
        let found = next_path(alloc, program, scope, path)?;
        self.first_from(alloc, program, bounds, rest, next, found, room)
    }

    /// The same for threads that begin with this path or a later one.
    #[cycle(search)]
    fn first_from(
        &mut self,
        alloc: Global,
        program: Program<'_>,
        bounds: Bounds,
        rest: &Rest,
        next: &Awaited,
        found: Found,
        room: usize,
    ) -> Result<bool, AllocError>
        requires next { slice_get rest.now.awaited 0 ≡ Some next.now }
        requires room { 1 ≤ room }
        requires taken { IfSome found.path (IsTaken program.code.now bounds rest.now next.now) }
        ensures kept { IfOk result (λ _. IsKept self.old.out self.new.out) }
        ensures end { (start : PlainPath) → IsFirstPath program.entry.code.now (liveness program.entry.live.now) (scope_of bounds rest.now next.now) start found
            → IfOk result (IsEnd program.entry.code.now (liveness program.entry.live.now) bounds rest.now (begin_from start) room self.old.threads.items self.new.threads.items self.new.out) }
    {
        let scope = scope_of(bounds, rest, next);
        let mut found = found;
        'paths: loop {
            let Found { path, cut } = found;
            self.out = with_cut(self.out, cut);
            let Some(path) = path else {
                return Ok(false);
            };
            if self.below(alloc, program, bounds, rest, next, &path, None, room)? {
                return Ok(true);
            }
            found = next_path(alloc, program, scope, path)?;
        }
    }

    /// The same for threads that begin with this path, followed by threads that come after the last
    /// ones.
    #[cycle(search)]
    fn below(
        &mut self,
        alloc: Global,
        program: Program<'_>,
        bounds: Bounds,
        rest: &Rest,
        next: &Awaited,
        path: &Path,
        last: Option<&[ThreadPath]>,
        room: usize,
    ) -> Result<bool, AllocError>
        requires next { slice_get rest.now.awaited 0 ≡ Some next.now }
        requires room { 1 ≤ room }
        requires taken { IsTaken program.code.now bounds rest.now next.now path.now }
        requires last { (later : PlainRest) → leave program.code.now bounds.kind rest.now.awaited rest.now path.now ≡ Some later
            → CanFollow program.code.now bounds later (option_map (λ r. r.now) last) }
        ensures kept { IfOk result (λ _. IsKept self.old.out self.new.out) }
        ensures end { IfOk result (IsEnd program.entry.code.now (liveness program.entry.live.now) bounds rest.now (behind path.now (option_map (λ r. r.now) last.entry)) room
            self.old.threads.items self.new.threads.items self.new.out) }
    {
        let Some(later) = rest.leave(alloc, program.code, bounds.kind, path)? else {
            return Ok(false);
        };
        self.threads.push(thread_of(next, path)?)?;
        if self.search(alloc, program, bounds, &later, last, room - 1)? {
            return Ok(true);
        }
        self.take_off();
        Ok(false)
    }
}

/// The first threads that make up a log and come after the last ones.
fn find(
    alloc: Global,
    program: Program<'_>,
    bounds: Bounds,
    last: Option<&[ThreadPath]>,
) -> Result<Given, AllocError>
    requires last { CanFollow program.code.now bounds (all program.code.now bounds.kind) (option_map (λ r. r.now) last) }
    ensures { IfOk result (IsFirst program.entry.code.now (liveness program.entry.live.now) bounds (option_map (λ r. r.now) last.entry)) }
{
    let rest = Rest::all(alloc, program.code, bounds.kind)?;
    let mut walk = Walk {
        threads: Vec::new(alloc),
        out: LeftOut {
            outcomes: false,
            steps: false,
            depth: false,
            threads: false,
        },
    };
    let found = walk.search(alloc, program, bounds, &rest, last, THREADS)?;
    let Walk { threads, out } = walk;
    let threads = if found { Some(threads) } else { None };
    Ok(Given { threads, out })
}

/// The threads of the first log.
pub fn first_threads(
    alloc: Global,
    program: Program<'_>,
    bounds: Bounds,
) -> Result<Given, AllocError>
    ensures { IfOk result (IsFirst program.entry.code.now (liveness program.entry.live.now) bounds None) }
{
    find(alloc, program, bounds, None)
}

/// The threads of the log after this one.
pub fn next_threads(
    alloc: Global,
    program: Program<'_>,
    bounds: Bounds,
    last: &[ThreadPath],
) -> Result<Given, AllocError>
    requires { IsOne program.code.now bounds last.now }
    ensures { IfOk result (IsFirst program.entry.code.now (liveness program.entry.live.now) bounds (Some last.now)) }
{
    find(alloc, program, bounds, Some(last))
}
