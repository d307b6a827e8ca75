//! All conjuncts of synchronisation.
ghost use Rattle.std.specs.Prelude.{◌≡◌, ◌≤◌, ◌<◌, ◌^◌, length, IfOk, OnOk};
ghost use Rattle.path_walk.specs.tc_limits.declared.limits.TheConstants.{EVENTS};
ghost use Rattle.order_formula.specs.Orders.{Grows, with_formula};
ghost use Rattle.order_events.specs.lawful_order.Events.{all_events, all_sleeps};
ghost use Rattle.order_events.specs.lawful_order.Whole.{AreWhole};
ghost use Rattle.sync_order.specs.Sync.{sync_formula};

use crate::children::push_children;
use crate::mutexes::push_mutexes;
use crate::stuck::push_stuck;
use condition_order::condition_conjuncts;
use order_events::{Events, Sleeps, formula_of};
use order_formula::{Conjunct, Formula, Order};
use path_walk::Paths;
use std::alloc::{AllocError, Global};

/// The conjuncts of the paths' creates, joins, regions, sleeps and blocked threads. Adds their
/// questions to the order.
///
/// Fails only if out of memory; the order may then have some of the questions.
pub fn sync_constraints(
    alloc: Global,
    paths: &Paths,
    order: &mut Order,
) -> Result<Formula, AllocError>
    requires whole { AreWhole paths.now }
    requires few { paths.now.events ≤ EVENTS }
    requires events { order.old.events ≡ length (all_events paths.now) }
    requires sleeps { order.old.sleeps ≡ length (all_sleeps paths.now) }
    ensures formula { IfOk result (λ formula. formula ≡ sync_formula paths.now) }
    ensures asked { OnOk result (order.new ≡ with_formula order.old (sync_formula paths.now)) }
    ensures grows { Grows order.old order.new }
{
    // The order counts sleeps in 32 bits, so their numbers fit too.
    let _count = order.sleeps();
    let events = Events::of(alloc, paths)?;
    let sleeps = Sleeps::of(alloc, paths)?;
    formula_of(alloc, conjuncts(alloc, paths, &events, &sleeps)?, order)
}

/// The conjuncts of all rules.
fn conjuncts(
    alloc: Global,
    paths: &Paths,
    events: &Events,
    sleeps: &Sleeps,
) -> Result<Vec<Conjunct>, AllocError>
    requires events { events.now ≡ all_events paths.now }
    requires sleeps { sleeps.now ≡ all_sleeps paths.now }
    requires few { length sleeps.now < 2 ^ 32 }
    ensures { IfOk result (λ conjuncts. conjuncts.items ≡ sync_formula paths.now) }
{
    let mut conjuncts = Vec::new(alloc);
    push_children(alloc, events, paths.threads(), &mut conjuncts)?;
    push_mutexes(alloc, events, paths.threads(), &mut conjuncts)?;
    condition_conjuncts(alloc, events, sleeps, &mut conjuncts)?;
    push_stuck(alloc, paths, events, sleeps, &mut conjuncts)?;
    Ok(conjuncts)
}
