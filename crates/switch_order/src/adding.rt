//! Levels of events as clauses.
ghost use Rattle.std.specs.Prelude.{◌≡◌, ℕ, ◌+◌, ◌*◌, ◌<◌, ◌≤◌, ◌++◌, List, length, OnErr, OnOk};
ghost use Rattle.std.specs.List.{All, flat_map, range_with_len};
ghost use Rattle.cnf_core.specs.Clauses.{var_of};
ghost use Rattle.cnf_core.specs.declared.cnf.TheConstants.{LIMIT};
ghost use Rattle.bit_gates.specs.Folded.{HasRoom};
ghost use Rattle.bit_order.specs.Clauses.{with_clause};
ghost use Rattle.bit_order.specs.Comparators.{ordered};
ghost use Rattle.order_switches.specs.order_formula.Orders.{IsOrder};
ghost use Rattle.switch_order.specs.Levels.{counts_literal, level_literal, with_levels, rises_from};
ghost use Rattle.switch_order.specs.Sizes.{size_of};
ghost use Rattle.switch_order.specs.helpers.Within.{AreBeforesWithin, rise_of};

use bit_gates::constant;
use bit_order::{Layout, clause_of};
use cnf_core::{Cnf, Lit};
use std::alloc::{AllocError, Global};

/// Adds levels of at most `most` to a formula over an order, and so bounds its switches. `threads`
/// has the thread of each event; if an event fails, later ones don't count.
pub fn add_levels(
    alloc: Global,
    cnf: &mut Cnf,
    layout: &Layout,
    threads: &[usize],
    failing: Option<u32>,
    most: u32,
) -> Result<(), AllocError>
    requires events { layout.now.order.events ≤ 256 }
    requires most { most ≤ 255 }
    requires threads { length threads.now ≡ layout.now.order.events }
    requires order { IsOrder layout.now.order }
    requires ordered { (ordered layout.now).vars ≤ cnf.old.vars }
    requires room { HasRoom (size_of layout.now.order.events most) cnf.old }
    ensures { OnOk result (cnf.new ≡ with_levels layout.now threads.now failing most cnf.old) }
{
    let start = cnf.vars() + 1;
    let events = layout.order().events();
    add_variables(cnf, events * most);
    for first in 0..events {
        add_rises_from(alloc, cnf, layout, threads, failing, start, most, first)?;
    }
    Ok(())
}

/// Adds `count` variables that no clause names yet.
fn add_variables(cnf: &mut Cnf, count: u32)
    requires { cnf.old.vars + count < LIMIT }
    ensures vars { cnf.new.vars ≡ cnf.old.vars + count }
    ensures clauses { cnf.new.clauses ≡ cnf.old.clauses }
{
    for _ in 0..count {
        cnf.add_variable();
    }
}

/// Adds clauses: the level rises from an event to each later one of another thread that counts.
fn add_rises_from(
    alloc: Global,
    cnf: &mut Cnf,
    layout: &Layout,
    threads: &[usize],
    failing: Option<u32>,
    start: u32,
    most: u32,
    first: u32,
) -> Result<(), AllocError>
    requires events { layout.now.order.events ≤ 256 }
    requires most { most ≤ 255 }
    requires threads { length threads.now ≡ layout.now.order.events }
    requires start { 1 < start }
    requires first { first < layout.now.order.events }
    requires levels { start + layout.now.order.events * most ≤ cnf.old.vars + 1 }
    requires befores { AreBeforesWithin cnf.old.vars layout.now }
    requires small { cnf.old.vars < LIMIT }
    requires room { length cnf.old.clauses + layout.now.order.events * (most + 1) < LIMIT }
    ensures vars { cnf.new.vars ≡ cnf.old.vars }
    ensures clauses { OnOk result (cnf.new.clauses ≡ cnf.old.clauses ++ rises_from layout.now threads.now failing start most first) }
    ensures few { length cnf.new.clauses ≤ length cnf.old.clauses + layout.now.order.events * (most + 1) }
{
    for second in 0..layout.order().events() {
        if threads[first as usize] != threads[second as usize] {
            let before = layout.before(first, second);
            let counts = counts(layout, failing, second);
            add_rises(alloc, cnf, before, counts, start, most, first, second)?;
        }
    }
    Ok(())
}

/// The literal of "this event counts": it is the failing event or before it, or no event fails.
fn counts(layout: &Layout, failing: Option<u32>, event: u32) -> Lit
    ensures { (threads : List ℕ) → result ≡ counts_literal layout.now threads failing event }
{
    match failing {
        Some(last) if event != last => layout.before(event, last),
        _ => constant(true),
    }
}

/// Adds clauses: if an event is before another that counts, the other's level is higher.
fn add_rises(
    alloc: Global,
    cnf: &mut Cnf,
    before: Lit,
    counts: Lit,
    start: u32,
    most: u32,
    first: u32,
    second: u32,
) -> Result<(), AllocError>
    requires before { var_of before ≤ cnf.old.vars }
    requires counts { var_of counts ≤ cnf.old.vars }
    requires start { 1 < start }
    requires most { most ≤ 255 }
    requires first { first < 256 }
    requires second { second < 256 }
    requires levels { start + (first + 1) * most ≤ cnf.old.vars + 1 }
    requires levels_too { start + (second + 1) * most ≤ cnf.old.vars + 1 }
    requires small { cnf.old.vars < LIMIT }
    requires room { length cnf.old.clauses + (most + 1) < LIMIT }
    ensures vars { cnf.new.vars ≡ cnf.old.vars }
    ensures clauses { OnOk result (cnf.new.clauses ≡ cnf.old.clauses
        ++ flat_map (rise_of before counts start most first second) (range_with_len 0 (most + 1))) }
    ensures few { length cnf.new.clauses ≤ length cnf.old.clauses + (most + 1) }
{
    for least in 0..most + 1 {
        let low = level(start, most, first, least);
        let high = level(start, most, second, least + 1);
        add_clause(
            alloc,
            cnf,
            &[before.opposite(), counts.opposite(), low.opposite(), high],
        )?;
    }
    Ok(())
}

/// Adds the clause of the literals, unless it is always true.
fn add_clause(alloc: Global, cnf: &mut Cnf, literals: &[Lit]) -> Result<(), AllocError>
    requires literals { All (λ l. var_of l ≤ cnf.old.vars) literals.now }
    requires room { length cnf.old.clauses + 1 < LIMIT }
    ensures ok { OnOk result (cnf.new ≡ with_clause cnf.old literals.now) }
    ensures err { OnErr result (cnf.new ≡ cnf.old) }
    ensures few { length cnf.new.clauses ≤ length cnf.old.clauses + 1 }
{
    match clause_of(alloc, literals)? {
        Some(clause) => cnf.push(clause.literals()),
        None => Ok(()),
    }
}

/// The literal of "this event's level is at least `least`".
fn level(start: u32, most: u32, event: u32, least: u32) -> Lit
    requires start { 1 < start }
    requires most { most ≤ 255 }
    requires event { event < 256 }
    requires small { start + (event + 1) * most ≤ LIMIT }
    ensures literal { result ≡ level_literal start most event least }
    ensures within { var_of result < start + (event + 1) * most }
{
    if least == 0 {
        return constant(true);
    }
    if least > most {
        return constant(false);
    }
    Lit::new(start + (event * most + (least - 1)), false)
}
