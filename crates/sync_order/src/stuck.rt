//! At the end of a deadlock, no thread that hasn't exited can go on.
ghost use Rattle.std.specs.Prelude.{◌≡◌, ◌++◌, [], ◌∷◌, ◌<◌, ◌^◌, length, map, IfOk, OnOk};
ghost use Rattle.std.specs.List.{list_any};
ghost use Rattle.order_events.specs.lawful_order.Events.{all_events, all_sleeps};
ghost use Rattle.sync_order.specs.Children.{is_exit};
ghost use Rattle.sync_order.specs.Stuck.{cannot_go_on, cases_if, has_exited, is_held, is_open, sleeps_on, stuck_formula, not_ended_literal};

use crate::children::is_exit;
use condition_order::{Ender, enders};
use order_events::{Events, Sleeps};
use order_formula::{Atom, Body, Case, Cases, Conjunct, Group, Literal};
use path_walk::{Blocked, Event, Paths, Region, Walk};
use std::alloc::{AllocError, Global};

/// Appends the conjuncts of all threads that are blocked at the end.
pub(crate) fn push_stuck(
    alloc: Global,
    paths: &Paths,
    events: &Events,
    sleeps: &Sleeps,
    conjuncts: &mut Vec<Conjunct>,
) -> Result<(), AllocError>
    requires events { events.now ≡ all_events paths.now }
    requires sleeps { sleeps.now ≡ all_sleeps paths.now }
    requires few { length sleeps.now < 2 ^ 32 }
    ensures { OnOk result (conjuncts.new.items ≡ conjuncts.old.items ++ stuck_formula paths.now) }
{
    for (place, walk) in paths.threads().iter().enumerate() {
        if let Some(blocked) = walk.blocked() {
            let cases = cannot_go_on(alloc, paths, events, sleeps, place, walk, blocked)?;
            conjuncts.push(Conjunct {
                group: Group::Stuck { thread: place },
                body: Body::Any(cases),
            })?;
        }
    }
    Ok(())
}

/// The cases in which a blocked thread can't go on.
fn cannot_go_on(
    alloc: Global,
    paths: &Paths,
    events: &Events,
    sleeps: &Sleeps,
    place: usize,
    walk: &Walk,
    blocked: Blocked,
) -> Result<Cases, AllocError>
    requires events { events.now ≡ all_events paths.now }
    requires sleeps { sleeps.now ≡ all_sleeps paths.now }
    requires few { length sleeps.now < 2 ^ 32 }
    ensures { IfOk result (λ cases. cases ≡ cannot_go_on paths.now place walk.now blocked) }
{
    let threads = paths.threads();
    match blocked {
        Blocked::Lock { mutex } => cases_if(alloc, is_held(threads, mutex)),
        Blocked::Wake { mutex, sleep, .. } => {
            if is_held(threads, mutex) {
                cases_if(alloc, true)
            } else {
                one_case(alloc, sleeps_on(alloc, events, sleeps, place, sleep)?)
            }
        }
        Blocked::Join { child } => cases_if(alloc, !has_exited(threads, walk, child)),
    }
}

/// The cases of a constant, true or false.
fn cases_if(alloc: Global, always: bool) -> Result<Cases, AllocError>
    ensures { IfOk result (λ cases. cases ≡ cases_if always) }
{
    if always {
        one_case(alloc, Vec::new(alloc))
    } else {
        Ok(Cases::new(Vec::new(alloc)))
    }
}

fn one_case(alloc: Global, literals: Vec<Literal>) -> Result<Cases, AllocError>
    ensures { IfOk result (λ cases. cases ≡ literals.items ∷ []) }
{
    let mut cases = Vec::new(alloc);
    cases.push(Case::new(literals))?;
    Ok(Cases::new(cases))
}

/// Whether a thread holds the mutex at the end.
fn is_held(threads: &[Walk], mutex: u32) -> bool
    ensures { result ≡ is_held threads.now mutex }
{
    for walk in threads {
        if has_open(walk.regions(), mutex) {
            return true;
        }
    }
    false
}

fn has_open(regions: &[Region], mutex: u32) -> bool
    ensures { result ≡ list_any (is_open mutex) regions.now }
{
    for region in regions {
        if region.mutex == mutex && region.to.is_none() {
            return true;
        }
    }
    false
}

/// Whether the child `number` of `parent` has exited.
fn has_exited(threads: &[Walk], parent: &Walk, number: u32) -> bool
    ensures { result ≡ has_exited threads.now parent.now number }
{
    for walk in threads {
        if walk.is_child_of(parent, number) && has_exit(walk.events()) {
            return true;
        }
    }
    false
}

fn has_exit(events: &[Event]) -> bool
    ensures { result ≡ list_any (λ x. is_exit x.kind) events.now }
{
    for event in events {
        if is_exit(event.kind) {
            return true;
        }
    }
    false
}

/// The literals that no ender ends the sleep that a thread's step begins.
fn sleeps_on(
    alloc: Global,
    events: &Events,
    sleeps: &Sleeps,
    thread: usize,
    step: usize,
) -> Result<Vec<Literal>, AllocError>
    requires { length sleeps.now < 2 ^ 32 }
    ensures { IfOk result (λ literals. literals.items ≡ sleeps_on events.now sleeps.now thread step) }
{
    let mut literals = Vec::new(alloc);
    for (number, placed) in sleeps.all().iter().enumerate() {
        if placed.thread == thread && placed.it.step == step {
            let enders = enders(alloc, events, placed.it.condition)?;
            push_unended(number as u32, enders.as_slice(), &mut literals)?;
        }
    }
    Ok(literals)
}

/// Appends the literals that no ender ends a sleep.
fn push_unended(sleep: u32, enders: &[Ender], literals: &mut Vec<Literal>) -> Result<(), AllocError>
    ensures { OnOk result (literals.new.items ≡ literals.old.items ++ map (not_ended_literal sleep) enders.now) }
{
    for ender in enders {
        literals.push(Literal {
            atom: Atom::Ends {
                sleep,
                by: ender.event,
            },
            wanted: false,
        })?;
    }
    Ok(())
}
