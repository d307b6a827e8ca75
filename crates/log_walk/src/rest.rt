//! What the first threads of a log leave to the others.
ghost use Rattle.std.specs.Prelude.{◌≡◌, ◌<◌, ◌^◌, ◌++◌, ◌==◌, ◌&&◌, ◌||◌, length, slice_get, slice_index_or, option_map, drop, IfOk};
ghost use Rattle.std.specs.List.{list_any};
ghost use Rattle.log_walk.specs.Rest.{open_end, last_end, end_of, waits_for, waits, is_free, lacks, is_whole, children_from, may_fail, aim_of, ends_log, meet, either, all, rest_by, leave};

use crate::bounds::Kind;
use crate::told::{Told, follow, set};
use std::alloc::{AllocError, Global};
use std::marker::Model;
use tc_base::ThreadName;
use tc_code::{Code, Instr};
use thread_paths::{Aim, End, Path};

/// A thread that is created but has no path yet.
#[derive(Drop)]
pub struct Awaited {
    pub name: ThreadName,
    pub function: usize,
    /// How it ends if it doesn't fail.
    pub end: End,
    /// Whether its creator waits for it at the end of its path.
    waited: bool,
}

/// The rest of a log after its first threads.
#[derive(Drop)]
pub struct Rest {
    awaited: Vec<Awaited>,
    ends: bool,
    held: Vec<bool>,
    waited: Vec<bool>,
}

impl Model for Rest {
    ghost use Rattle.log_walk.specs.Rest.{Rest as PlainRest};

    ghost Value = { PlainRest };

    ghost view = { λ r. record { awaited = r.awaited.items; ends = r.ends; held = r.held.items; waited = r.waited.items } };
}

/// The end of a thread that no path joins.
fn open_end(kind: Kind) -> End
    ensures { result ≡ open_end kind }
{
    match kind {
        Kind::Failure => End::Open,
        Kind::Deadlock => End::Rest,
    }
}

/// The same for a thread whose create is the last step of its creator.
fn last_end(kind: Kind) -> End
    ensures { result ≡ last_end kind }
{
    match kind {
        Kind::Failure => End::Used,
        Kind::Deadlock => End::Rest,
    }
}

/// Whether a number is in the list.
fn is_among(number: usize, numbers: &[usize]) -> bool
    ensures { result ≡ list_any (λ j. j == number) numbers.now }
{
    numbers.iter().any(|other| *other == number)
}

/// Whether the last step creates the child with this number.
fn is_last(told: &Told, number: usize) -> bool
    ensures { result ≡ (told.now.at_create && number == length told.now.created) }
{
    told.at_create && number == told.created.len()
}

/// The end of the child with this number.
fn end_of(kind: Kind, told: &Told, number: usize) -> End
    ensures { result ≡ end_of kind told.now number }
{
    if is_among(number, &told.joined) {
        End::Exit
    } else if is_last(told, number) {
        last_end(kind)
    } else {
        open_end(kind)
    }
}

/// Whether a thread waits for its child of that number, by the instruction it stands before.
fn waits_for(kind: Kind, at: Option<&Instr>, told: &Told, number: usize) -> bool
    ensures { result ≡ waits_for kind (option_map (λ i. i.now) at.entry) told.now number }
{
    match (kind, at) {
        (Kind::Deadlock, Some(Instr::Join { handle })) => {
            child_in(&told.children, *handle) == number
        }
        _ => false,
    }
}

/// The number of the child of a thread variable, or 0.
fn child_in(children: &[usize], handle: u32) -> usize
    ensures { result ≡ slice_index_or children.now handle 0 }
{
    match children.get(handle as usize) {
        Some(child) => *child,
        None => 0,
    }
}

/// Adds the mutex that a thread waits for, by the instruction it stands before.
fn wait(kind: Kind, at: Option<&Instr>, waited: &mut [bool])
    ensures new { waited.new ≡ waits kind (option_map (λ i. i.now) at.entry) waited.old }
    ensures long { length waited.new ≡ length waited.old }
{
    if let (Kind::Deadlock, Some(Instr::Lock { mutex })) = (kind, at) {
        set(waited, *mutex, true);
    }
}

/// The mutexes that are waited for, with that of the instruction that a thread stands before.
fn waits(
    alloc: Global,
    kind: Kind,
    at: Option<&Instr>,
    waited: &[bool],
) -> Result<Vec<bool>, AllocError>
    ensures { IfOk result (λ v. v.items ≡ waits kind (option_map (λ i. i.now) at.entry) waited.now) }
{
    let mut waits = waited.to_vec(alloc)?;
    wait(kind, at, &mut waits);
    Ok(waits)
}

/// Whether a thread may fail.
fn may_fail(kind: Kind, ends: bool, end: End) -> bool
    ensures { result ≡ may_fail kind ends end }
{
    match kind {
        Kind::Failure => end != End::Exit && !ends,
        Kind::Deadlock => false,
    }
}

/// Whether a path ends as one thread of the log must.
fn ends_log(code: &Code, kind: Kind, may: bool, function: usize, told: &Told) -> bool
    ensures { result ≡ ends_log code.now kind may function told.now }
{
    match kind {
        Kind::Failure => may && told.at_site,
        Kind::Deadlock => code.instr(function, told.place).is_some(),
    }
}

/// Whether a thread that another waits for has exited.
fn is_free(code: &Code, next: &Awaited, told: &Told) -> bool
    ensures { result ≡ is_free code.now next.now told.now }
{
    next.waited && code.instr(next.function, told.place).is_none()
}

/// Whether a mutex is waited for that none holds.
fn lacks(waited: &[bool], held: &[bool]) -> bool
    ensures { result ≡ lacks waited.now held.now }
{
    waited.iter().zip(held).any(|(one, other)| *one && !*other)
}

/// Whether a mutex is held by both.
fn meet(first: &[bool], second: &[bool]) -> bool
    ensures { result ≡ meet first.now second.now }
{
    first.iter().zip(second).any(|(one, other)| *one && *other)
}

/// The mutexes that one of the two holds.
fn either(alloc: Global, first: &[bool], second: &[bool]) -> Result<Vec<bool>, AllocError>
    ensures { IfOk result (λ v. v.items ≡ either first.now second.now) }
{
    first
        .iter()
        .zip(second)
        .map(|(one, other)| *one || *other)
        .collect(alloc)
}

/// The children of a thread, followed by the other awaited threads.
fn children(
    alloc: Global,
    kind: Kind,
    name: &ThreadName,
    at: Option<&Instr>,
    told: &Told,
) -> Result<Vec<Awaited>, AllocError>
    requires { length told.now.created < 2 ^ 16 }
    ensures { IfOk result (λ v. v.items ≡ children_from kind name.now (option_map (λ i. i.now) at.entry) told.now 0 told.now.created) }
{
    let mut children = Vec::new(alloc);
    for place in 0..told.created.len() {
        children.push(Awaited {
            name: name.child(place as u32 + 1)?,
            function: told.created[place],
            end: end_of(kind, told, place + 1),
            waited: waits_for(kind, at, told, place + 1),
        })?;
    }
    Ok(children)
}

/// Adds copies of the threads after the first.
fn add_others(awaited: &mut Vec<Awaited>, rest: &[Awaited]) -> Result<(), AllocError>
    ensures { IfOk result (λ _. awaited.new.items ≡ awaited.old.items ++ drop 1 rest.now) }
{
    for place in 1..rest.len() {
        let thread = &rest[place];
        awaited.push(Awaited {
            name: thread.name.clone()?,
            function: thread.function,
            end: thread.end,
            waited: thread.waited,
        })?;
    }
    Ok(())
}

impl Rest {
    /// Only main is awaited.
    pub fn all(alloc: Global, code: &Code, kind: Kind) -> Result<Rest, AllocError>
        ensures { IfOk result (λ r. r ≡ all code.now kind) }
    {
        let mut awaited = Vec::new(alloc);
        awaited.push(Awaited {
            name: ThreadName::main(alloc),
            function: code.functions().len().saturating_sub(1),
            end: open_end(kind),
            waited: false,
        })?;
        Ok(Rest {
            awaited,
            ends: false,
            held: vec![in alloc; false; code.mutexes() as usize]?,
            waited: vec![in alloc; false; code.mutexes() as usize]?,
        })
    }

    /// The first awaited thread.
    pub fn next(&self) -> Option<&Awaited>
        ensures { option_map (λ c. c.now) result ≡ slice_get self.now.awaited 0 }
    {
        self.awaited.first()
    }

    /// Whether one thread ends as it must, and each mutex that is waited for is held.
    pub fn is_whole(&self) -> bool
        ensures { result ≡ is_whole self.now }
    {
        self.ends && !lacks(&self.waited, &self.held)
    }

    /// How the path of an awaited thread must end.
    pub fn aim(&self, kind: Kind, end: End) -> Aim
        ensures { result ≡ aim_of kind self.now.ends end }
    {
        Aim {
            end,
            may_fail: may_fail(kind, self.ends, end),
        }
    }

    /// Whether a path rules the log out: another thread holds a mutex that this one holds at its end, or
    /// it exits though another waits for it.
    fn refuses(&self, code: &Code, next: &Awaited, told: &Told) -> bool
        ensures { result ≡ (meet self.now.held told.now.held || is_free code.now next.now told.now) }
    {
        meet(&self.held, &told.held) || is_free(code, next, told)
    }

    /// Whether one thread ends as it must, once this one has a path that says this.
    fn ends_with(&self, code: &Code, kind: Kind, next: &Awaited, told: &Told) -> bool
        ensures { result ≡ (self.now.ends || ends_log code.now kind (may_fail kind self.now.ends next.now.end) next.now.function told.now) }
    {
        let may = may_fail(kind, self.ends, next.end);
        self.ends || ends_log(code, kind, may, next.function, told)
    }

    /// The threads that are awaited once this one has a path that says this.
    fn awaited_after(
        &self,
        alloc: Global,
        kind: Kind,
        next: &Awaited,
        at: Option<&Instr>,
        told: &Told,
    ) -> Result<Vec<Awaited>, AllocError>
        requires { length told.now.created < 2 ^ 16 }
        ensures { IfOk result (λ v. v.items ≡ children_from kind next.now.name (option_map (λ i. i.now) at.entry) told.now 0 told.now.created ++ drop 1 self.now.awaited) }
    {
        let mut awaited = children(alloc, kind, &next.name, at, told)?;
        add_others(&mut awaited, &self.awaited)?;
        Ok(awaited)
    }

    /// What is left once the first awaited thread has a path that says this.
    fn without(
        &self,
        alloc: Global,
        code: &Code,
        kind: Kind,
        next: &Awaited,
        told: &Told,
    ) -> Result<Rest, AllocError>
        requires { length told.now.created < 2 ^ 16 }
        ensures { IfOk result (λ later. later ≡ rest_by code.now kind self.now next.now (drop 1 self.now.awaited) told.now) }
    {
        let at = code.instr(next.function, told.place);
        Ok(Rest {
            awaited: self.awaited_after(alloc, kind, next, at, told)?,
            ends: self.ends_with(code, kind, next, told),
            held: either(alloc, &self.held, &told.held)?,
            waited: waits(alloc, kind, at, &self.waited)?,
        })
    }

    /// What is left once the first awaited thread has a path, unless that path rules the log out.
    pub fn leave(
        &self,
        alloc: Global,
        code: &Code,
        kind: Kind,
        path: &Path,
    ) -> Result<Option<Rest>, AllocError>
        ensures { IfOk result (λ later. later ≡ leave code.now kind self.now.awaited self.now path.now) }
    {
        let Some(next) = self.awaited.first() else {
            return Ok(None);
        };
        let told = follow(alloc, code, next.function, path)?;
        if self.refuses(code, next, &told) {
            return Ok(None);
        }
        let later = self.without(alloc, code, kind, next, &told)?;
        Ok(Some(later))
    }
}
