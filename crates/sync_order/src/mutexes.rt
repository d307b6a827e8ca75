//! A mutex is released before it is taken again.
ghost use Rattle.std.specs.Prelude.{◌≡◌, ◌++◌, flat_map, option_to_list, IfOk, OnOk};
ghost use Rattle.order_events.specs.lawful_order.Events.{all_from};
ghost use Rattle.sync_order.specs.Mutexes.{exclude, excludes, exclusive, left_before, of_pairs};

use order_events::{Events, Placed, one_of, push_items};
use order_formula::{Conjunct, Group, Literal};
use path_walk::{Region, Walk};
use std::alloc::{AllocError, Global};

/// Appends the conjuncts of every two regions of the same mutex.
pub(crate) fn push_mutexes(
    alloc: Global,
    events: &Events,
    threads: &[Walk],
    conjuncts: &mut Vec<Conjunct>,
) -> Result<(), AllocError>
    ensures { OnOk result (conjuncts.new.items
        ≡ conjuncts.old.items ++ of_pairs (exclusive events.now) (all_from (λ q. q.regions) 0 threads.now)) }
{
    let regions = all_regions(alloc, threads)?;
    push_pairs(alloc, events, regions.as_slice(), conjuncts)
}

/// All regions, one thread after another.
fn all_regions(alloc: Global, threads: &[Walk]) -> Result<Vec<Placed<Region>>, AllocError>
    ensures { IfOk result (λ all. all.items ≡ all_from (λ q. q.regions) 0 threads.now) }
{
    let mut all = Vec::new(alloc);
    for (thread, walk) in threads.iter().enumerate() {
        push_items(&mut all, thread, walk.regions())?;
    }
    Ok(all)
}

/// Appends the conjuncts of each region with all later ones.
fn push_pairs(
    alloc: Global,
    events: &Events,
    regions: &[Placed<Region>],
    conjuncts: &mut Vec<Conjunct>,
) -> Result<(), AllocError>
    ensures { OnOk result (conjuncts.new.items ≡ conjuncts.old.items ++ of_pairs (exclusive events.now) regions.now) }
{
    for (place, region) in regions.iter().enumerate() {
        push_exclusive(alloc, events, region, &regions[place + 1..], conjuncts)?;
    }
    Ok(())
}

/// Appends the conjuncts of a region with some others.
fn push_exclusive(
    alloc: Global,
    events: &Events,
    region: &Placed<Region>,
    others: &[Placed<Region>],
    conjuncts: &mut Vec<Conjunct>,
) -> Result<(), AllocError>
    ensures { OnOk result (conjuncts.new.items ≡ conjuncts.old.items ++ flat_map (exclusive events.now region.now) others.now) }
{
    for other in others {
        if exclude(region, other) {
            conjuncts.push(excludes(alloc, events, region, other)?)?;
        }
    }
    Ok(())
}

/// Whether two regions are distinct and of the same mutex.
fn exclude(region: &Placed<Region>, other: &Placed<Region>) -> bool
    ensures { result ≡ exclude region.now other.now }
{
    region.it.mutex == other.it.mutex
        && !(region.thread == other.thread && region.it.from == other.it.from)
}

/// One of two regions ends before the other begins.
fn excludes(
    alloc: Global,
    events: &Events,
    region: &Placed<Region>,
    other: &Placed<Region>,
) -> Result<Conjunct, AllocError>
    ensures { IfOk result (λ conjunct. conjunct ≡ excludes events.now region.now other.now) }
{
    let mut ways = Vec::new(alloc);
    if let Some(way) = left_before(events, region, other) {
        ways.push(way)?;
    }
    if let Some(way) = left_before(events, other, region) {
        ways.push(way)?;
    }
    one_of(alloc, Group::Mutex(region.it.mutex), ways.as_slice())
}

/// The literal that a region's end, if it has one, comes before the beginning of another.
fn left_before(events: &Events, region: &Placed<Region>, other: &Placed<Region>) -> Option<Literal>
    ensures { option_to_list result ≡ left_before events.now region.now other.now }
{
    let to = region.it.to?;
    Some(events.before(region.thread, to, other.thread, other.it.from))
}
