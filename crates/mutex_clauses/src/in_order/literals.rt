//! The literals whose conjunction says that all is in order in a mutex's regions.
ghost use Rattle.std.specs.Prelude.{◌≡◌, ◌++◌, false, filter, get_or, IfOk, OnOk};
ghost use Rattle.std.specs.List.{flat_map};
ghost use Rattle.order_events.specs.lawful_order.Events.{all_events};
ghost use Rattle.bit_gates.specs.Folded.{constant};
ghost use Rattle.mutex_regions.specs.Functions.{is_used};
ghost use Rattle.mutex_regions.specs.InOrder.{must_keep};
ghost use Rattle.mutex_states.specs.InOrder as spec;
ghost use Rattle.mutex_clauses.specs.in_order.Given.{used_in};
ghost use Rattle.mutex_clauses.specs.in_order.helpers.Listed as listed;

use crate::literals::Literals;
use cnf_core::Lit;
use mutex_regions::{Variable, is_used};
use order_events::Placed;
use order_formula::Group;
use path_walk::Region;
use std::alloc::{AllocError, Global};
use sym_exec::Access;

/// Whether a conjunct is about two regions of a mutex.
pub fn is_of_mutex(mutex: u32, group: Group) -> bool
    ensures { result ≡ spec.is_of_mutex mutex group }
{
    match group {
        Group::Mutex(number) => number == mutex,
        _ => false,
    }
}

/// Whether the order of two accesses of a region matters: one of them writes to their variable, and
/// the second isn't a load after a store.
fn must_keep(first: &Access, second: &Access) -> bool
    ensures { result ≡ must_keep first.now second.now }
{
    Variable::of(first.cell).is_same(&Variable::of(second.cell))
        && ((first.writes.is_some() || second.writes.is_some())
            && !(first.takes.is_none() && second.writes.is_none()))
}

/// The literals of a mutex's regions.
pub(crate) fn literals_of(
    alloc: Global,
    draft: &Literals<'_>,
    mutex: u32,
    regions: &[Placed<Region>],
    variables: &[Variable],
    accesses: &[Placed<Access>],
) -> Result<Vec<Lit>, AllocError>
    requires { draft.now.events.now ≡ all_events draft.now.paths.now }
    ensures { IfOk result (λ literals. literals.items
        ≡ listed.of_mutex draft.now.paths.now draft.now.layout.now draft.now.conjuncts.now draft.now.roots.now mutex regions.now
        (λ r. filter (is_used variables.now r) accesses.now)) }
{
    let mut literals = Vec::new(alloc);
    push_apart(&mut literals, draft, mutex)?;
    push_forward(&mut literals, draft, regions)?;
    push_rise(&mut literals, draft, regions)?;
    push_uses(alloc, &mut literals, draft, regions, variables, accesses)?;
    Ok(literals)
}

/// The accesses of regions to some variables.
pub fn used_of(
    alloc: Global,
    regions: &[Placed<Region>],
    variables: &[Variable],
    accesses: &[Placed<Access>],
) -> Result<Vec<Placed<Access>>, AllocError>
    ensures { IfOk result (λ used. used.items ≡ used_in variables.now accesses.now regions.now) }
{
    let mut used = Vec::new(alloc);
    for region in regions {
        push_used(&mut used, variables, accesses, region)?;
    }
    Ok(used)
}

/// Appends the accesses of a region to some variables.
fn push_used(
    used: &mut Vec<Placed<Access>>,
    variables: &[Variable],
    accesses: &[Placed<Access>],
    region: &Placed<Region>,
) -> Result<(), AllocError>
    ensures { OnOk result (used.new.items ≡ used.old.items ++ filter (is_used variables.now region.now) accesses.now) }
{
    for access in accesses {
        if is_used(variables, region, access) {
            used.push(*access)?;
        }
    }
    Ok(())
}

/// Appends the literals that a mutex's regions don't overlap.
fn push_apart(literals: &mut Vec<Lit>, draft: &Literals<'_>, mutex: u32) -> Result<(), AllocError>
    ensures { OnOk result (literals.new.items
        ≡ literals.old.items ++ listed.apart draft.now.paths.now draft.now.layout.now draft.now.conjuncts.now draft.now.roots.now mutex) }
{
    for (number, conjunct) in draft.conjuncts.iter().enumerate() {
        push_root(literals, draft, mutex, number, conjunct.group)?;
    }
    Ok(())
}

/// Appends the literal of a conjunct, if it is about two regions of the mutex.
fn push_root(
    literals: &mut Vec<Lit>,
    draft: &Literals<'_>,
    mutex: u32,
    number: usize,
    group: Group,
) -> Result<(), AllocError>
    ensures { OnOk result (literals.new.items
        ≡ literals.old.items ++ listed.where_wanted (spec.is_of_mutex mutex group) (get_or draft.now.roots.now number (constant false))) }
{
    if is_of_mutex(mutex, group) {
        literals.push(draft.root(number))?;
    }
    Ok(())
}

/// Appends the literals that each region begins before it ends.
fn push_forward(
    literals: &mut Vec<Lit>,
    draft: &Literals<'_>,
    regions: &[Placed<Region>],
) -> Result<(), AllocError>
    requires { draft.now.events.now ≡ all_events draft.now.paths.now }
    ensures { OnOk result (literals.new.items
        ≡ literals.old.items ++ flat_map (listed.forward draft.now.paths.now draft.now.layout.now) regions.now) }
{
    for region in regions {
        push_ended(literals, draft, region)?;
    }
    Ok(())
}

/// Appends the literal that a region begins before it ends, if it does.
fn push_ended(
    literals: &mut Vec<Lit>,
    draft: &Literals<'_>,
    region: &Placed<Region>,
) -> Result<(), AllocError>
    requires { draft.now.events.now ≡ all_events draft.now.paths.now }
    ensures { OnOk result (literals.new.items ≡ literals.old.items ++ listed.forward draft.now.paths.now draft.now.layout.now region.now) }
{
    if let Some(to) = region.it.to {
        literals.push(draft.before(region.thread, region.it.from, region.thread, to))?;
    }
    Ok(())
}

/// Appends the literals that a thread's regions are in the order of its path.
fn push_rise(
    literals: &mut Vec<Lit>,
    draft: &Literals<'_>,
    regions: &[Placed<Region>],
) -> Result<(), AllocError>
    requires { draft.now.events.now ≡ all_events draft.now.paths.now }
    ensures { OnOk result (literals.new.items
        ≡ literals.old.items ++ flat_map (listed.rise draft.now.paths.now draft.now.layout.now regions.now) regions.now) }
{
    for region in regions {
        push_later(literals, draft, regions, region)?;
    }
    Ok(())
}

/// Appends the literals that a region begins before those that follow on its thread's path.
fn push_later(
    literals: &mut Vec<Lit>,
    draft: &Literals<'_>,
    regions: &[Placed<Region>],
    region: &Placed<Region>,
) -> Result<(), AllocError>
    requires { draft.now.events.now ≡ all_events draft.now.paths.now }
    ensures { OnOk result (literals.new.items
        ≡ literals.old.items ++ listed.rise draft.now.paths.now draft.now.layout.now regions.now region.now) }
{
    for other in regions {
        push_next(literals, draft, region, other)?;
    }
    Ok(())
}

/// Appends the literal that a region begins before another, if that follows on its thread's path.
fn push_next(
    literals: &mut Vec<Lit>,
    draft: &Literals<'_>,
    region: &Placed<Region>,
    other: &Placed<Region>,
) -> Result<(), AllocError>
    requires { draft.now.events.now ≡ all_events draft.now.paths.now }
    ensures { OnOk result (literals.new.items
        ≡ literals.old.items ++ listed.where_wanted (listed.follows draft.now.paths.now draft.now.layout.now region.now other.now)
        (listed.step_before draft.now.paths.now draft.now.layout.now region.now.thread region.now.it.«from»
        other.now.thread other.now.it.«from»)) }
{
    let (from, later) = (region.it.from, other.it.from);
    if region.thread == other.thread && from < later {
        literals.push(draft.before(region.thread, from, other.thread, later))?;
    }
    Ok(())
}

/// Appends the literals of the accesses of all regions.
fn push_uses(
    alloc: Global,
    literals: &mut Vec<Lit>,
    draft: &Literals<'_>,
    regions: &[Placed<Region>],
    variables: &[Variable],
    accesses: &[Placed<Access>],
) -> Result<(), AllocError>
    requires { draft.now.events.now ≡ all_events draft.now.paths.now }
    ensures { OnOk result (literals.new.items
        ≡ literals.old.items
        ++ flat_map (λ r. listed.of_region draft.now.paths.now draft.now.layout.now draft.now.conjuncts.now draft.now.roots.now r
        (filter (is_used variables.now r) accesses.now)) regions.now) }
{
    for region in regions {
        let mut uses = Vec::new(alloc);
        push_used(&mut uses, variables, accesses, region)?;
        push_region(literals, draft, region, uses.as_slice())?;
    }
    Ok(())
}

/// Appends the literals of all accesses of a region.
fn push_region(
    literals: &mut Vec<Lit>,
    draft: &Literals<'_>,
    region: &Placed<Region>,
    uses: &[Placed<Access>],
) -> Result<(), AllocError>
    requires { draft.now.events.now ≡ all_events draft.now.paths.now }
    ensures { OnOk result (literals.new.items ≡ literals.old.items
        ++ listed.of_region draft.now.paths.now draft.now.layout.now draft.now.conjuncts.now draft.now.roots.now region.now uses.now) }
{
    for access in uses {
        push_access(literals, draft, region, uses, access)?;
    }
    Ok(())
}

/// Appends the literals of an access: it lies in its region, takes the value that it must, and has
/// its order to later ones.
fn push_access(
    literals: &mut Vec<Lit>,
    draft: &Literals<'_>,
    region: &Placed<Region>,
    uses: &[Placed<Access>],
    access: &Placed<Access>,
) -> Result<(), AllocError>
    requires { draft.now.events.now ≡ all_events draft.now.paths.now }
    ensures { OnOk result (literals.new.items ≡ literals.old.items
        ++ listed.of_access draft.now.paths.now draft.now.layout.now draft.now.conjuncts.now draft.now.roots.now
        region.now uses.now access.now) }
{
    literals.push(draft.before(region.thread, region.it.from, access.thread, access.it.step))?;
    push_end(literals, draft, region, access)?;
    push_read(literals, draft, access)?;
    push_orders(literals, draft, uses, access)
}

/// Appends the literal that an access comes before its region's end, if that has one.
fn push_end(
    literals: &mut Vec<Lit>,
    draft: &Literals<'_>,
    region: &Placed<Region>,
    access: &Placed<Access>,
) -> Result<(), AllocError>
    requires { draft.now.events.now ≡ all_events draft.now.paths.now }
    ensures { OnOk result (literals.new.items ≡ literals.old.items
        ++ listed.ends draft.now.paths.now draft.now.layout.now region.now access.now) }
{
    if let Some(to) = region.it.to {
        literals.push(draft.before(access.thread, access.it.step, region.thread, to))?;
    }
    Ok(())
}

/// Appends the literal that an access takes the value that it must, if it is a load.
fn push_read(
    literals: &mut Vec<Lit>,
    draft: &Literals<'_>,
    access: &Placed<Access>,
) -> Result<(), AllocError>
    requires { draft.now.events.now ≡ all_events draft.now.paths.now }
    ensures { OnOk result (literals.new.items ≡ literals.old.items
        ++ listed.reads draft.now.paths.now draft.now.layout.now draft.now.conjuncts.now draft.now.roots.now access.now) }
{
    if access.it.takes.is_some() {
        literals.push(draft.read(access))?;
    }
    Ok(())
}

/// Appends the literals that an access comes before those to which its order matters.
fn push_orders(
    literals: &mut Vec<Lit>,
    draft: &Literals<'_>,
    uses: &[Placed<Access>],
    access: &Placed<Access>,
) -> Result<(), AllocError>
    requires { draft.now.events.now ≡ all_events draft.now.paths.now }
    ensures { OnOk result (literals.new.items
        ≡ literals.old.items ++ listed.orders draft.now.paths.now draft.now.layout.now uses.now access.now) }
{
    for other in uses {
        push_order(literals, draft, access, other)?;
    }
    Ok(())
}

/// Appends the literal that an access comes before another, if their order matters.
fn push_order(
    literals: &mut Vec<Lit>,
    draft: &Literals<'_>,
    access: &Placed<Access>,
    other: &Placed<Access>,
) -> Result<(), AllocError>
    requires { draft.now.events.now ≡ all_events draft.now.paths.now }
    ensures { OnOk result (literals.new.items
        ≡ literals.old.items ++ listed.where_wanted (listed.matters draft.now.paths.now draft.now.layout.now access.now other.now)
        (listed.step_before draft.now.paths.now draft.now.layout.now access.now.thread access.now.it.step
        other.now.thread other.now.it.step)) }
{
    let (step, later) = (access.it.step, other.it.step);
    if step < later && must_keep(&access.it, &other.it) {
        literals.push(draft.before(access.thread, step, other.thread, later))?;
    }
    Ok(())
}
