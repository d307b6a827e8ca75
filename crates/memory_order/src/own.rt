//! The conjuncts of threads' own events.
ghost use Rattle.std.specs.Prelude.{◌≡◌, ◌≤◌, ◌++◌, ◌∷◌, List, [], length, fold, map, filter, IfOk, OnOk};
ghost use Rattle.std.specs.List.{flat_map};
ghost use Rattle.path_walk.specs.tc_limits.declared.limits.TheConstants.{EVENTS};
ghost use Rattle.sym_terms.specs.Terms.{with_node};
ghost use Rattle.sym_terms.specs.declared.node.Node.{Node};
ghost use Rattle.sym_exec.specs.Making.{Grows};
ghost use Rattle.order_formula.specs.Orders as orders;
ghost use Rattle.order_formula.specs.Orders.{with_formula};
ghost use Rattle.order_cells.specs.lawful_order.Events.{all_events};
ghost use Rattle.order_cells.specs.Terms.{HaveTerms};
ghost use Rattle.order_events.specs.Parts as parts;
ghost use Rattle.order_events.specs.Parts.{of_each};
ghost use Rattle.order_formula.specs.declared.group.Group.TheVariants.{Own};
ghost use Rattle.memory_order.specs.Own as spec;
ghost use Rattle.memory_order.specs.Twos.{twos_with};
ghost use Rattle.memory_order.specs.helpers.Twos.{plain};

use crate::kept::{Thread, Two, is_failing, is_settled};
use order_events::{Events, Placed, formula_of, one_of};
use order_formula::{Conjunct, Formula, Group, Literal, Order};
use path_walk::{Event, Paths, Walk};
use std::alloc::{AllocError, Global};
use store_buffers::MemoryModel;
use sym_exec::Symbolic;
use sym_terms::{Id, Terms};

/// The conjuncts of a memory model for the order of each thread's own events, and that every event
/// except stores in buffers comes before the failing one. Adds the tests of indexes to the terms,
/// and the questions to the order.
///
/// Of events that are kept in order whatever their indexes are, only neighbours get a conjunct,
/// which implies the rest. If out of memory, existing terms keep their meaning, and the order may
/// have more questions.
pub fn order_constraints<M: MemoryModel>(
    alloc: Global,
    paths: &Paths,
    symbolic: &Symbolic,
    terms: &mut Terms,
    order: &mut Order,
) -> Result<Formula, AllocError>
    requires few { length (all_events paths.now) ≤ EVENTS }
    requires terms { HaveTerms terms.old symbolic.now }
    requires events { order.old.events ≡ length (all_events paths.now) }
    ensures formula { IfOk result (λ formula. formula ≡ spec.own_formula M.BUFFERED M.bound paths.now symbolic.now terms.new) }
    ensures terms { OnOk result (terms.new ≡ fold with_node terms.old (spec.own_needs M.BUFFERED M.bound paths.now symbolic.now terms.old)) }
    ensures order { IfOk result (λ formula. order.new ≡ with_formula order.old formula) }
    ensures more_terms { Grows terms.old terms.new }
    ensures more_questions { orders.Grows order.old order.new }
{
    let events = Events::of(alloc, paths)?;
    let mut conjuncts = Vec::new(alloc);
    push_threads::<M>(
        alloc,
        &mut conjuncts,
        &events,
        symbolic,
        terms,
        paths.threads(),
    )?;
    push_failing::<M>(alloc, &mut conjuncts, &events)?;
    formula_of(alloc, conjuncts, order)
}

/// Appends the conjuncts of every two events of each thread.
fn push_threads<M: MemoryModel>(
    alloc: Global,
    conjuncts: &mut Vec<Conjunct>,
    events: &Events,
    symbolic: &Symbolic,
    terms: &mut Terms,
    threads: &[Walk],
) -> Result<(), AllocError>
    requires { HaveTerms terms.old symbolic.now }
    ensures pushed { OnOk result ((later : List Node) → Grows terms.new later → conjuncts.new.items ≡ conjuncts.old.items
        ++ of_each (spec.thread_formula M.BUFFERED M.bound events.now symbolic.now later) threads.now) }
    ensures added { OnOk result ((before : List Node) → HaveTerms before symbolic.now → Grows before terms.old → terms.new ≡ fold with_node terms.old
        (of_each (spec.thread_tests M.BUFFERED M.bound symbolic.now before) threads.now)) }
    ensures grown { Grows terms.old terms.new }
{
    for (number, walk) in threads.iter().enumerate() {
        let thread = Thread { symbolic, number };
        push_thread::<M>(alloc, conjuncts, events, &thread, terms, walk)?;
    }
    Ok(())
}

/// Appends the conjuncts of every two events of a thread.
fn push_thread<M: MemoryModel>(
    alloc: Global,
    conjuncts: &mut Vec<Conjunct>,
    events: &Events,
    thread: &Thread,
    terms: &mut Terms,
    walk: &Walk,
) -> Result<(), AllocError>
    requires { HaveTerms terms.old thread.now.symbolic.now }
    ensures pushed { OnOk result ((later : List Node) → Grows terms.new later → conjuncts.new.items ≡ conjuncts.old.items
        ++ spec.thread_formula M.BUFFERED M.bound events.now thread.now.symbolic.now later thread.now.number walk.now) }
    ensures added { OnOk result ((before : List Node) → HaveTerms before thread.now.symbolic.now → Grows before terms.old
        → terms.new ≡ fold with_node terms.old (spec.thread_tests M.BUFFERED M.bound thread.now.symbolic.now before thread.now.number walk.now)) }
    ensures grown { Grows terms.old terms.new }
{
    let mut rest = walk.events();
    while let [first, after @ ..] = rest {
        push_after::<M>(alloc, conjuncts, events, thread, terms, first, after)?;
        rest = after;
    }
    Ok(())
}

/// Appends the conjuncts of an event with each later one.
fn push_after<M: MemoryModel>(
    alloc: Global,
    conjuncts: &mut Vec<Conjunct>,
    events: &Events,
    thread: &Thread,
    terms: &mut Terms,
    first: &Event,
    after: &[Event],
) -> Result<(), AllocError>
    requires { HaveTerms terms.old thread.now.symbolic.now }
    ensures pushed { OnOk result ((later : List Node) → Grows terms.new later → conjuncts.new.items ≡ conjuncts.old.items
        ++ flat_map (spec.two_formula M.BUFFERED M.bound events.now thread.now.symbolic.now later thread.now.number) (twos_with first.now [] after.now)) }
    ensures added { OnOk result ((before : List Node) → HaveTerms before thread.now.symbolic.now → Grows before terms.old → terms.new
        ≡ fold with_node terms.old
        (flat_map (spec.two_tests M.BUFFERED M.bound thread.now.symbolic.now before thread.now.number) (twos_with first.now [] after.now))) }
    ensures grown { Grows terms.old terms.new }
{
    for (place, second) in after.iter().enumerate() {
        let between = &after[..place];
        let two = Two {
            first,
            between,
            second,
        };
        push_two::<M>(alloc, conjuncts, events, thread, terms, &two)?;
    }
    Ok(())
}

/// Appends the conjuncts of two events of a thread.
fn push_two<M: MemoryModel>(
    alloc: Global,
    conjuncts: &mut Vec<Conjunct>,
    events: &Events,
    thread: &Thread,
    terms: &mut Terms,
    two: &Two,
) -> Result<(), AllocError>
    requires { HaveTerms terms.old thread.now.symbolic.now }
    ensures pushed { OnOk result ((later : List Node) → Grows terms.new later → conjuncts.new.items ≡ conjuncts.old.items
        ++ spec.two_formula M.BUFFERED M.bound events.now thread.now.symbolic.now later thread.now.number (plain two.now)) }
    ensures added { OnOk result ((before : List Node) → HaveTerms before thread.now.symbolic.now → Grows before terms.old → terms.new
        ≡ fold with_node terms.old (spec.two_tests M.BUFFERED M.bound thread.now.symbolic.now before thread.now.number (plain two.now))) }
    ensures grown { Grows terms.old terms.new }
{
    push_next::<M>(alloc, conjuncts, events, thread, terms, two)?;
    push_tested::<M>(alloc, conjuncts, events, thread, terms, two)
}

/// Appends that the earlier comes before the later, if it always does and no event between implies
/// it.
fn push_next<M: MemoryModel>(
    alloc: Global,
    conjuncts: &mut Vec<Conjunct>,
    events: &Events,
    thread: &Thread,
    terms: &Terms,
    two: &Two,
) -> Result<(), AllocError>
    requires { HaveTerms terms.now thread.now.symbolic.now }
    ensures { OnOk result ((later : List Node) → Grows terms.now later → conjuncts.new.items ≡ conjuncts.old.items
        ++ spec.next_formula M.BUFFERED M.bound events.now thread.now.symbolic.now later thread.now.number (plain two.now)) }
{
    if thread.is_kept_next::<M>(terms, two) {
        conjuncts.push(kept(alloc, events, thread, two)?)?;
    }
    Ok(())
}

/// Appends that the earlier comes before the later if the test of their indexes passes, if they
/// have one.
fn push_tested<M: MemoryModel>(
    alloc: Global,
    conjuncts: &mut Vec<Conjunct>,
    events: &Events,
    thread: &Thread,
    terms: &mut Terms,
    two: &Two,
) -> Result<(), AllocError>
    requires { HaveTerms terms.old thread.now.symbolic.now }
    ensures pushed { OnOk result ((later : List Node) → Grows terms.new later → conjuncts.new.items ≡ conjuncts.old.items
        ++ spec.tested_formula M.BUFFERED M.bound events.now thread.now.symbolic.now later thread.now.number (plain two.now)) }
    ensures added { OnOk result ((before : List Node) → HaveTerms before thread.now.symbolic.now → Grows before terms.old → terms.new
        ≡ fold with_node terms.old (spec.two_tests M.BUFFERED M.bound thread.now.symbolic.now before thread.now.number (plain two.now))) }
    ensures grown { Grows terms.old terms.new }
{
    if let Some(test) = thread.kept_test::<M>(terms, two)? {
        conjuncts.push(kept_where(alloc, events, thread, two, test)?)?;
    }
    Ok(())
}

/// An event comes before a later one of its thread.
fn kept(alloc: Global, events: &Events, thread: &Thread, two: &Two) -> Result<Conjunct, AllocError>
    ensures { IfOk result (λ conjunct. conjunct ≡ parts.one_of (Own thread.now.number) (spec.in_order events.now thread.now.number (plain two.now) ∷ [])) }
{
    let in_order = events.before(
        thread.number,
        two.first.step,
        thread.number,
        two.second.step,
    );
    let group = Group::Own {
        thread: thread.number,
    };
    one_of(alloc, group, &[in_order])
}

/// If a test passes, an event comes before a later one of its thread.
fn kept_where(
    alloc: Global,
    events: &Events,
    thread: &Thread,
    two: &Two,
    test: Id,
) -> Result<Conjunct, AllocError>
    ensures { IfOk result (λ conjunct. conjunct
        ≡ parts.one_of (Own thread.now.number) (spec.fails test ∷ spec.in_order events.now thread.now.number (plain two.now) ∷ [])) }
{
    let in_order = events.before(
        thread.number,
        two.first.step,
        thread.number,
        two.second.step,
    );
    let group = Group::Own {
        thread: thread.number,
    };
    one_of(alloc, group, &[Literal::test(test).opposite(), in_order])
}

/// Appends that events come before the failing one.
fn push_failing<M: MemoryModel>(
    alloc: Global,
    conjuncts: &mut Vec<Conjunct>,
    events: &Events,
) -> Result<(), AllocError>
    ensures { OnOk result (conjuncts.new.items ≡ conjuncts.old.items ++ spec.failing_formula M.BUFFERED events.now) }
{
    for placed in events.all() {
        if is_settled::<M>(placed.it.kind) && !is_failing(placed.it.kind) {
            push_before_failing(alloc, conjuncts, events, placed)?;
        }
    }
    Ok(())
}

/// Appends that an event comes before the failing ones.
fn push_before_failing(
    alloc: Global,
    conjuncts: &mut Vec<Conjunct>,
    events: &Events,
    earlier: &Placed<Event>,
) -> Result<(), AllocError>
    ensures { OnOk result (conjuncts.new.items ≡ conjuncts.old.items
        ++ map (spec.before_failing events.now earlier.now) (filter (λ f. spec.is_failing f.it.kind) events.now)) }
{
    for placed in events.all() {
        if is_failing(placed.it.kind) {
            conjuncts.push(before_failing(alloc, events, earlier, placed)?)?;
        }
    }
    Ok(())
}

/// An event comes before the failing one.
fn before_failing(
    alloc: Global,
    events: &Events,
    earlier: &Placed<Event>,
    failing: &Placed<Event>,
) -> Result<Conjunct, AllocError>
    ensures { IfOk result (λ conjunct. conjunct ≡ spec.before_failing events.now earlier.now failing.now) }
{
    let before = events.before(
        earlier.thread,
        earlier.it.step,
        failing.thread,
        failing.it.step,
    );
    let group = Group::Own {
        thread: earlier.thread,
    };
    one_of(alloc, group, &[before])
}
