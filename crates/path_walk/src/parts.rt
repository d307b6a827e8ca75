//! Regions of mutexes, waits and links to children, from the events of a thread.
ghost use Rattle.std.specs.Prelude.{◌≡◌, ℕ, ◌+◌, ◌<◌, List, ◌∷◌, length, drop, reverse, IfOk, OnOk};
ghost use Rattle.std.specs.List.{cons_option};
ghost use Rattle.std.specs.BTreeMap as tree;
ghost use Rattle.std.specs.Ordering.{nat_cmp};
ghost use Rattle.path_walk.specs.Events.{acquired_mutex, released_mutex, release_step, region_of, regions_of, sleeps_of, sleep_by};
ghost use Rattle.path_walk.specs.Events.{create_by, join_by, creates_of, joins_of};

use crate::{Event, EventKind, Link, Region, Sleep};
use run_log::ThreadPath;
use std::alloc::{AllocError, Global};
use std::collections::BTreeMap;
use tc_base::ThreadName;

/// The parts of a walk beside its places and events.
#[derive(Drop)]
pub struct Parts {
    pub name: ThreadName,
    pub outcomes: Vec<bool>,
    pub regions: Vec<Region>,
    pub sleeps: Vec<Sleep>,
    pub creates: Vec<Link>,
    pub joins: Vec<Link>,
}

/// The mutex that an event acquires, if any.
fn taken(kind: EventKind) -> Option<u32>
    ensures { result ≡ acquired_mutex kind }
{
    match kind {
        EventKind::Lock(mutex) => Some(mutex),
        EventKind::Wake { mutex, .. } => Some(mutex),
        _ => None,
    }
}

/// The mutex that an event releases, if any.
fn left(kind: EventKind) -> Option<u32>
    ensures { result ≡ released_mutex kind }
{
    match kind {
        EventKind::Unlock(mutex) => Some(mutex),
        EventKind::Sleep { mutex, .. } => Some(mutex),
        _ => None,
    }
}

/// The event at an index.
fn event_at(events: &[Event], place: usize) -> Event
    requires { place < length events.now }
    ensures { (n : ℕ) → n ≡ place → drop n events.now ≡ result ∷ drop (n + 1) events.now }
{
    events[place]
}

/// The region of an event that acquires a mutex; the map has the first later step that releases
/// each mutex.
fn region(event: Event, ends: &BTreeMap<u32, usize>) -> Option<Region>
    ensures { (later : List Event) → ((m : ℕ) → tree.get nat_cmp ends.now m ≡ release_step m later) → result ≡ region_of event later }
{
    match taken(event.kind) {
        Some(mutex) => Some(Region {
            mutex,
            from: event.step,
            to: ends.get(&mutex).copied(),
        }),
        None => None,
    }
}

/// Notes that an event releases a mutex, if it does.
fn note_left(ends: &mut BTreeMap<u32, usize>, event: Event) -> Result<(), AllocError>
    ensures { OnOk result ((later : List Event) → ((m : ℕ) → tree.get nat_cmp ends.old m ≡ release_step m later)
        → (m : ℕ) → tree.get nat_cmp ends.new m ≡ release_step m (event ∷ later)) }
{
    if let Some(mutex) = left(event.kind) {
        ends.insert(mutex, event.step)?;
    }
    Ok(())
}

/// Adds a region, if there is one.
fn push_region(found: &mut Vec<Region>, region: Option<Region>) -> Result<(), AllocError>
    ensures { OnOk result (reverse found.new.items ≡ cons_option region (reverse found.old.items)) }
{
    if let Some(region) = region {
        found.push(region)?;
    }
    Ok(())
}

/// The regions of the events that acquire a mutex, in order.
fn regions(alloc: Global, events: &[Event]) -> Result<Vec<Region>, AllocError>
    ensures { IfOk result (λ found. found.items ≡ regions_of events.now) }
{
    let mut ends: BTreeMap<u32, usize> = BTreeMap::new(alloc);
    let mut found = Vec::new(alloc);
    for later in 0..events.len() {
        let event = event_at(events, events.len() - 1 - later);
        push_region(&mut found, region(event, &ends))?;
        note_left(&mut ends, event)?;
    }
    found.reverse();
    Ok(found)
}

/// The wait that an event begins, if it is a sleep; the next event ends the wait.
fn sleep(event: Event, next: Option<Event>) -> Option<Sleep>
    ensures { result ≡ sleep_by event.step next event.kind }
{
    let wake = match next {
        Some(wake) => Some(wake.step),
        None => None,
    };
    match event.kind {
        EventKind::Sleep { condition, mutex } => Some(Sleep {
            step: event.step,
            condition,
            mutex,
            wake,
        }),
        _ => None,
    }
}

/// The waits, in order.
fn sleeps(alloc: Global, events: &[Event]) -> Result<Vec<Sleep>, AllocError>
    ensures { IfOk result (λ found. found.items ≡ sleeps_of events.now) }
{
    let mut found = Vec::new(alloc);
    for number in 0..events.len() {
        if let Some(sleep) = sleep(events[number], events.get(number + 1).copied()) {
            found.push(sleep)?;
        }
    }
    Ok(found)
}

/// The link of a create: its step and the child's number.
fn create(event: Event) -> Option<Link>
    ensures { result ≡ create_by event.step event.kind }
{
    match event.kind {
        EventKind::Create(child) => Some(Link {
            step: event.step,
            child,
        }),
        _ => None,
    }
}

/// The link of a join: its step and the child's number.
fn join(event: Event) -> Option<Link>
    ensures { result ≡ join_by event.step event.kind }
{
    match event.kind {
        EventKind::Join(child) => Some(Link {
            step: event.step,
            child,
        }),
        _ => None,
    }
}

/// The creates, in order.
fn creates(alloc: Global, events: &[Event]) -> Result<Vec<Link>, AllocError>
    ensures { IfOk result (λ found. found.items ≡ creates_of events.now) }
{
    let mut found = Vec::new(alloc);
    for number in 0..events.len() {
        if let Some(link) = create(events[number]) {
            found.push(link)?;
        }
    }
    Ok(found)
}

/// The joins, in order.
fn joins(alloc: Global, events: &[Event]) -> Result<Vec<Link>, AllocError>
    ensures { IfOk result (λ found. found.items ≡ joins_of events.now) }
{
    let mut found = Vec::new(alloc);
    for number in 0..events.len() {
        if let Some(link) = join(events[number]) {
            found.push(link)?;
        }
    }
    Ok(found)
}

/// The parts of a walk, from a path and its events.
pub fn parts_of(alloc: Global, path: &ThreadPath, events: &[Event]) -> Result<Parts, AllocError>
    ensures name { IfOk result (λ p. p.name ≡ path.now.name) }
    ensures outcomes { IfOk result (λ p. p.outcomes.items ≡ path.now.path.outcomes) }
    ensures regions { IfOk result (λ p. p.regions.items ≡ regions_of events.now) }
    ensures sleeps { IfOk result (λ p. p.sleeps.items ≡ sleeps_of events.now) }
    ensures creates { IfOk result (λ p. p.creates.items ≡ creates_of events.now) }
    ensures joins { IfOk result (λ p. p.joins.items ≡ joins_of events.now) }
{
    Ok(Parts {
        name: path.name().clone()?,
        outcomes: Vec::from_slice(alloc, path.outcomes())?,
        regions: regions(alloc, events)?,
        sleeps: sleeps(alloc, events)?,
        creates: creates(alloc, events)?,
        joins: joins(alloc, events)?,
    })
}
