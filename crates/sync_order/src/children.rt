//! The create of a thread comes before its events, and its exit before the join.
ghost use Rattle.std.specs.Prelude.{◌≡◌, ◌++◌, flat_map, map, IfOk, OnOk};
ghost use Rattle.order_events.specs.Parts.{of_each};
ghost use Rattle.sync_order.specs.Children.{create_conjuncts, created_before, exited_before, is_exit, join_conjuncts, links_formula};

use order_events::{Events, one_of};
use order_formula::{Conjunct, Group};
use path_walk::{Event, EventKind, Link, Walk};
use std::alloc::{AllocError, Global};

/// Appends the conjuncts of all creates and joins of threads.
pub(crate) fn push_children(
    alloc: Global,
    events: &Events,
    threads: &[Walk],
    conjuncts: &mut Vec<Conjunct>,
) -> Result<(), AllocError>
    ensures { OnOk result (conjuncts.new.items
        ≡ conjuncts.old.items ++ of_each (links_formula events.now threads.now) threads.now) }
{
    for (place, walk) in threads.iter().enumerate() {
        push_creates(alloc, events, threads, place, walk, conjuncts)?;
        push_joins(alloc, events, threads, place, walk, conjuncts)?;
    }
    Ok(())
}

fn push_creates(
    alloc: Global,
    events: &Events,
    threads: &[Walk],
    place: usize,
    walk: &Walk,
    conjuncts: &mut Vec<Conjunct>,
) -> Result<(), AllocError>
    ensures { OnOk result (conjuncts.new.items
        ≡ conjuncts.old.items ++ flat_map (create_conjuncts events.now threads.now place walk.now) walk.now.creates) }
{
    for link in walk.creates() {
        push_created(alloc, events, threads, place, walk, *link, conjuncts)?;
    }
    Ok(())
}

fn push_joins(
    alloc: Global,
    events: &Events,
    threads: &[Walk],
    place: usize,
    walk: &Walk,
    conjuncts: &mut Vec<Conjunct>,
) -> Result<(), AllocError>
    ensures { OnOk result (conjuncts.new.items
        ≡ conjuncts.old.items ++ flat_map (join_conjuncts events.now threads.now place walk.now) walk.now.joins) }
{
    for link in walk.joins() {
        push_joined(alloc, events, threads, place, walk, *link, conjuncts)?;
    }
    Ok(())
}

/// Appends that a create comes before all events of the child.
fn push_created(
    alloc: Global,
    events: &Events,
    threads: &[Walk],
    place: usize,
    walk: &Walk,
    link: Link,
    conjuncts: &mut Vec<Conjunct>,
) -> Result<(), AllocError>
    ensures { OnOk result (conjuncts.new.items ≡ conjuncts.old.items ++ create_conjuncts events.now threads.now place walk.now link) }
{
    for (child, thread) in threads.iter().enumerate() {
        if thread.is_child_of(walk, link.child) {
            push_created_before(
                alloc,
                events,
                place,
                link,
                child,
                thread.events(),
                conjuncts,
            )?;
        }
    }
    Ok(())
}

/// Appends that a create comes before these events of the child.
fn push_created_before(
    alloc: Global,
    events: &Events,
    place: usize,
    link: Link,
    child: usize,
    own: &[Event],
    conjuncts: &mut Vec<Conjunct>,
) -> Result<(), AllocError>
    ensures { OnOk result (conjuncts.new.items
        ≡ conjuncts.old.items ++ map (created_before events.now place link child) own.now) }
{
    for event in own {
        let before = events.before(place, link.step, child, event.step);
        conjuncts.push(one_of(alloc, Group::Child { thread: child }, &[before])?)?;
    }
    Ok(())
}

/// Appends that the child's exit comes before a join.
fn push_joined(
    alloc: Global,
    events: &Events,
    threads: &[Walk],
    place: usize,
    walk: &Walk,
    link: Link,
    conjuncts: &mut Vec<Conjunct>,
) -> Result<(), AllocError>
    ensures { OnOk result (conjuncts.new.items ≡ conjuncts.old.items ++ join_conjuncts events.now threads.now place walk.now link) }
{
    for (child, thread) in threads.iter().enumerate() {
        if thread.is_child_of(walk, link.child) {
            conjuncts.push(exited_before(alloc, events, place, link, child, thread)?)?;
        }
    }
    Ok(())
}

/// An exit of the thread comes before a join.
fn exited_before(
    alloc: Global,
    events: &Events,
    place: usize,
    link: Link,
    child: usize,
    thread: &Walk,
) -> Result<Conjunct, AllocError>
    ensures { IfOk result (λ conjunct. conjunct ≡ exited_before events.now place link child thread.now) }
{
    let mut ends = Vec::new(alloc);
    for event in thread.events() {
        if is_exit(event.kind) {
            ends.push(events.before(child, event.step, place, link.step))?;
        }
    }
    one_of(alloc, Group::Child { thread: child }, ends.as_slice())
}

/// Whether an event is the exit of its thread.
pub(crate) fn is_exit(kind: EventKind) -> bool
    ensures { result ≡ is_exit kind }
{
    matches!(kind, EventKind::Exit)
}
